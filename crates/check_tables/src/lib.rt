//! The tables of a program: what its names mean, its globals among them.
//!
//! What is said of them are the rules of `source_typing`: `program_names` answers what each global and function means, with or without the
//! rules on live regions and effects, and `judged_global` the earliest fault of a global beside that.
//!
//! Each function that answers a `Result` fails only where no host memory is left.
#![tactic(auto)]

mod constant;
mod foreign;
mod global;
mod global_types;
mod names;
mod structs;

pub use global::{JudgedGlobal, judged_global};
pub use names::{item_name, next_index, program_names};
pub use structs::Structs;
