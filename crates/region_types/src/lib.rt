//! Names, types, regions and effects.
//!
//! `into_typed`, and `typed` on a copy, find what breaks a rule in a program, flow apart: `Typed::effect_fault` answers the earliest fault of names, types,
//! regions, effects and sizes, and `Typed::fault` looks for the earliest one without the rules on live regions and effects. The rules are those of
//! `source_typing`; `check_programs` finds the faults. A program in which all these rules find no fault is gone over once: that it has
//! none by fewer rules either is proved here (`proofs/EasedPrograms`). Stands on these and on `cyc_tree`.
//!
//! Each function that answers a `Result` fails only where no host memory is left.
#![tactic(auto)]

mod looking;
mod program;

pub use looking::{into_typed, type_fault, typed};
pub use program::Typed;
