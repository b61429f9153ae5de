//! The meanings of the names that are visible at a point of a program.
//!
//! A scope here gives each name the meaning that the scope of the rules in `source_typing` gives it.
//!
//! Each function that answers a `Result` fails only where no host memory is left.
#![tactic(auto)]

mod globals;
mod last;
mod locals;
mod meaning;
mod scope;

pub use globals::Globals;
pub use locals::{Locals, What};
pub use meaning::{Meaning, Signature};
pub use scope::{Named, Scope};
