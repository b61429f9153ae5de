//! The faults of statements in a function's body.
//!
//! What is said of them are the rules of `source_typing`: `items_fault` answers the earliest of the faults that these find in a
//! block, in each scope of the rules that is known as the one in code is.
//!
//! Each function that answers a `Result` fails only where no host memory is left.
#![tactic(auto)]

mod acts;
mod exchange;
mod name_times;
mod named_members;
mod returning;
mod statement;
mod switch;
mod ways;

pub use statement::items_fault;
pub use ways::items_fall;
