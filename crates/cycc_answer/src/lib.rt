//! What `cycc` answers to a command.
//!
//! `answer` does all that a command asks for but to read the words and the file and to write OUT: what is written, what is
//! said on standard error, the exit status, and the bytes for OUT. Stands on `command_line`, `cycc_driver`, `traces` and `reasons`.
#![tactic(auto)]

mod answering;
mod explaining;
mod images;
mod lines;
mod result;
mod sources;
mod stacks;
mod watching;
mod why;

pub use answering::{answer, longest_file};
pub use lines::{ended, printed, refused};
pub use result::Answer;
