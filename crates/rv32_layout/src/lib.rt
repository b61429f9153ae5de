//! From the lines of a program of Core to its code, and from its globals and strings to the bytes of its data.
//!
//! `place` gives each line its words, and each jump and call its offset from where its label stands:
//! each machine with the code has the lines. A conditional jump is a branch of one word where its label is in
//! reach. The code is refused as too large only where it is over 1,048,576 bytes. `data` gives each global
//! and string its bytes, whatever the program. `positions` says where in the code statements of the source begin. Stands on `rv32_select`, `cyc_core`,
//! `rv32_isa`, `byteorder`,
//! `indexmap` and `thiserror`, and its clauses on the definitions of `core_lines`, `rv32_machine` and
//! `cyc_image`.
#![tactic(auto)]

mod code;
mod fault;
mod globals;
mod length;
mod places;
mod position;
mod relaxed;
mod words;

pub use code::{Code, place};
pub use fault::LayoutFault;
pub use globals::data;
pub use position::{Position, positions};
