//! What a phrase is: with a fault, not checked, or in order, as the rules of `source_typing` say it, with the first fault alone.
#![tactic(auto)]

mod fault;
mod verdict;

pub use fault::{Fault, FaultKind, sooner};
pub use verdict::Verdict;
