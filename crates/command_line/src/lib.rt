//! The command line of `cycc`.
//!
//! `words_of` takes the words of the program, and `command_of` reads them into a `Command`, or gives the text to be shown:
//! help where it was asked for, else what is wrong with the words. `is_same_file` says whether two paths lead to one file,
//! `is_same_entry` whether they would where there is none yet, and `is_replaceable` whether an image may be written over one; `write_whole` writes one whole or
//! leaves it. Stands on `clap`, and on `explanations` for what `explain` says.
#![tactic(auto)]

mod command;
mod commands;
mod files;
mod given;
pub mod status;
mod texts;
mod words;
mod writing;

pub use clap::Error;
pub use command::{Command, MEGABYTE, Pages};
pub use files::{is_replaceable, is_same_entry, is_same_file};
pub use given::{shown, shown_error, why_no_name, words_of};
pub use words::command_of;
pub use writing::write_whole;
