//! From a program's tree to a machine: the lines of its lowered Core do what the source does.
//!
//! specs/Promise has what is promised. `lowerable_do` says it of all programs that lowering takes:
//! the laws of the passes put together, with the bounds on frames and on code. `accepted_do` says it of all programs
//! in which the rules find no fault. There is no code but these laws. Stands on `source_lowering`, from
//! the tree to Core, `core_lines`, from Core to lines, on the rules of `source_typing`, and on
//! `accepted_proof`, from the rules to what lowering takes.
#![tactic(auto)]

mod laws;

pub use laws::{accepted_do, lowerable_do};
