//! The earliest fault of a program.
//!
//! What is said of it are the rules of `source_typing` on names, types, regions, effects and sizes: `program_fault` answers the earliest of
//! the faults that these find, with or without those on live regions and effects.
//!
//! Each function that answers a `Result` fails only where no host memory is left.
#![tactic(auto)]

mod bodies;
mod program;
mod seen;
mod sizes;
mod strings;
mod total;

pub use program::program_fault;
