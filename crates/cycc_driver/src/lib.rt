//! The compiler: from a text to an image, and to what it does.
//!
//! `front` gives the accepted program of a text, `check` says whether there is one, `compile` gives its image, `execute`
//! runs it between a reader and a writer, and `evaluate` runs it by the meaning of its source. Each refuses with the first
//! fault of the first phase that has one, by line and column. `execute_watched` does as `execute`, and says what was seen of
//! the run. `stack` says how much stack the text's calls need.
//! For who runs an image by hand there are also `load`, `Machine`, `run`, `decode`, the stores, and `Counted` for a reader or writer.
//! Stands on all layers.
#![tactic(auto)]

mod compiling;
mod evaluating;
mod executing;
mod fault;
mod stacks;

pub use compiling::{accepted_or_refused, check, compile, front, one_fault, one_image};
pub use cyc_arena::{PagedStore, PlainStore};
pub use cyc_host::run;
pub use cyc_image::load;
pub use cyc_words::Counted;
pub use evaluating::{evaluate, evaluate_watched, evaluate_within};
pub use executing::{Limits, Watched, execute, execute_watched};
pub use fault::{CompileFault, Place};
pub use rv32_isa::decode;
pub use rv32_machine::Machine;
pub use stack_needs::{Recursion, StackNeeds};
pub use stacks::{StackUse, stack};
