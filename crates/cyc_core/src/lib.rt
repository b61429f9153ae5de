//! Core programs as the code has them: functions of structured statements over flat operations.
//!
//! A contract sees a `Program` as one of `core_meaning`, by the folds of specs/Trees: `program_tree`
//! and its kin. docs/CORE.md lists its forms. Stands on the definitions of `core_meaning`.
#![tactic(auto)]

mod layout;
mod operation;
mod origins;
mod program;
mod statement;

pub use layout::{CellLayout, Layout, Local};
pub use operation::{Binary, Cell, Distance, Operation, Temporary, Variable, Width, Words};
pub use origins::Origins;
pub use program::{Datum, Function, Program};
pub use statement::{Call, Failure, Origin, Statement};
