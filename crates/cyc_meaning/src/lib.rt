//! Runs a checked program by the meaning of its source.
//!
//! `eval` does what `source` of `source_meaning` says, with an amount of fuel, between a reader and a writer; `eval_watched` also says
//! where the run stopped, and `eval_within` ends it where it passes a bound. It lowers the program, by `lower_checks`, and runs its
//! Core, by `core_eval`; that Core shows what the source shows is proved of lowering, so the clauses speak of the source alone.
//! `never_stuck` is the law that no checked program is out of order, by the rules of its types (`accepted_proof`). Stands on these
//! and on `accepted_programs`, whose programs it runs.
#![tactic(auto)]

mod laws;
mod running;

pub use core_eval::{Bounds, EvalEnding, Exceeded};
pub use laws::never_stuck;
pub use running::{eval, eval_watched, eval_within};
