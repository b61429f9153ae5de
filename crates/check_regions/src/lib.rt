//! The region names that are in scope at a point, which of them are live, and which outlives which.
//!
//! What they mean is defined in `source_typing`: a scope here gives the same answers as the scope of the rules, name by name.
//!
//! Each function that answers a `Result` fails only where no host memory is left.
#![tactic(auto)]

mod begun;
mod bounds;
mod declared;
mod entry;
mod marks;
mod names;
mod scope;
mod walk;
mod ways;

pub use begun::Begun;
pub use declared::DeclaredBounds;
pub use names::RegionNames;
pub use scope::{RegionMark, RegionScope};
