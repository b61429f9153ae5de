//! How a memory of Core lies in a machine, and the lines of code that do what Core does.
//!
//! specs/Lies has where each local, global, temporary and temporary object stands and what its bytes
//! show, specs/Lines what lines of code are, specs/Comparisons what their branches test, specs/Held what is known of the words of temporaries,
//! specs/Saved which results are saved, and specs/Frames, specs/Operands, specs/Loops,
//! specs/Choosing and specs/Selected the lines of a program. proofs/DoesAsCore: a machine that
//! begins with them does what the program does, whatever its store answers (specs/Running). Stands
//! on `core_meaning` and `rv32_machine`.
#![tactic(auto)]

mod comparison;
mod laws;
mod line;

pub use comparison::{Comparison, Condition, NumberComparison};
pub use laws::lines_do_as_core;
pub use line::Line;
