//! The 48 instructions of RV32IM (RISC-V Unprivileged ISA 20191213): their words and their text.
//! `decode` reads a word by the table in specs/Table.antt, and answers `None` for a word that
//! matches no row; `rows_are_apart` is the law that no word matches two.
//! `encode` writes the one word that `decode` reads as the instruction.
//! `Display` writes an assembler's text, with registers as x0 to x31 and numbers decimal.
//! It stands on std alone.
#![tactic(auto)]

mod decoding;
mod encoding;
mod immediates;
mod instruction;
mod operands;
mod text;

pub use decoding::{decode, rows_are_apart};
pub use encoding::encode;
pub use immediates::{BranchOffset, JumpOffset, Signed12};
pub use instruction::Instr;
pub use operands::{FenceBits, Register, ShiftAmount, Upper20};
