//! Runs a machine between a reader and a writer.
//!
//! `run` steps a machine, gathers its output and writes it when 4,096 bytes are gathered, before each read and at each
//! ending, and reads a byte where the machine asks for one. `Gathered` and `read` are these transfers by themselves. How
//! many calls of a device fail is said exactly. `run_watched` does the same one step at a time, and tells a `Watch` of each
//! instruction. Stands on `rv32_machine`, `rv32_isa`, `arena_laws`,
//! `cyc_words`, `arrayvec`, `byteorder`, `indexmap` and `thiserror`.
#![tactic(auto)]

mod actions;
mod calls;
mod counts;
mod ending;
mod frames;
mod pace;
mod pages;
mod running;
mod seen;
mod stacks;
mod transfer;
mod watch;

pub use calls::Active;
pub use counts::Count;
pub use ending::Ending;
pub use running::{run, run_watched};
pub use seen::{Comparison, Seen};
pub use stacks::Stack;
pub use transfer::{GATHERED_BYTES, Gathered, ReadFailed, WriteFailed, read};
pub use watch::Watch;
