//! Summaries, in code: what each phrase does to the locals that can't be copied, and which faults that causes.
//!
//! `Passed` is the summary of a phrase with one exit, and `Exits` that of a statement with several. Their operations are those of the
//! definitions in `flow_summaries`. Both keep a tree by the locals' numbers (`Table`). So a phrase that touches no such local allocates
//! nothing, and two summaries are joined in time linear in the number of locals that both touch.
//!
//! Each function that answers a `Result` fails only where no host memory is left.
#![tactic(auto)]

mod exits;
mod passed;
mod steps;
mod table;
mod tables;
mod touch;
mod touches;
mod used;
mod ways;

pub use exits::Exits;
pub use passed::{Begun, Passed};
pub use steps::{Declared, Loan, Step, add_step, all_before};
pub use used::{Usage, Used};
