//! The structs and unions of a program, as they are judged.
//!
//! What is said of them are the definitions of `source_typing`, on which it stands.
//!
//! Each function that answers a `Result` fails only where no host memory is left, or where its comment says so.
#![tactic(auto)]

mod heads;
mod member;
mod parameters;
mod structure;
mod tags;

pub use tags::{JudgedTags, judged_tags};
