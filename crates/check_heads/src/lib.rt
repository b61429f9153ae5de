//! The heads of functions.
//!
//! What is said of them are the rules of `source_typing`: `read_head` answers what a function's head says, `head_meaning` what its name means
//! where its head has no fault, and `entered` what is in scope where its body begins.
//!
//! Each function that answers a `Result` fails only where no host memory is left.
#![tactic(auto)]

mod effect;
mod entering;
mod found;
mod head;
mod keys;
mod meaning;
mod reading;

pub use entering::{Names, entered};
pub use head::{Head, Parameter, is_main, read_head};
pub use meaning::{head_meaning, known_type};
