//! Runs a program of Core by its meaning, between a reader and a writer, with a number of units of fuel.
//!
//! `evaluate_core` moves from one statement to the next, and keeps what is still to be done on a stack of its own, callers among
//! it, so that no program drives the host's stack deeper, however deep its calls and statements are. Its promise is `IsEvaluated`
//! of specs/Evaluated: what is written is the output of the program's run, and the ending is that run's. A `Stop` says where in its
//! text the run stopped, and in which calls; no clause speaks of that. `evaluate_core_within` also ends a run that has passed a bound
//! of active calls or of memory, as lack of memory does. Stands on `cyc_core`, `cyc_host` and `cyc_words`, and on the
//! definitions of `core_meaning` and `step_trees`.
#![tactic(auto)]

mod arithmetic;
mod begun;
mod births;
mod blocks;
mod bounds;
mod call;
mod caller;
mod ending;
mod enter;
mod frame;
mod held;
mod kept;
mod long_block;
mod memory;
mod object;
mod objects;
mod operation;
mod pending;
mod pointer;
mod region;
mod regions;
mod request;
mod running;
mod spare;
mod stop;
mod take;
mod value;
mod whole;
mod words;

pub use bounds::{Bounds, Exceeded};
pub use ending::EvalEnding;
pub use running::{evaluate_core, evaluate_core_within};
pub use stop::{ActiveCall, Stop};
