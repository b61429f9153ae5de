//! The faults of functions.
//!
//! What is said of them are the rules of `source_typing`: `function_fault` answers the earliest of a function's faults, those of its head and
//! of its body.
//!
//! Each function that answers a `Result` fails only where no host memory is left.
#![tactic(auto)]

mod body;

pub use body::function_fault;
