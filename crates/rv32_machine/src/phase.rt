// What a machine is at.

use crate::event::Event;
use cyc_words::{Kind, MachineFault};

/// Whether a machine runs, waits, or is over, and why.
#[derive(Clone, Copy)]
pub enum Phase {
    /// It runs.
    Runs,
    /// It waits at a `getchar` for the answer.
    Waits,
    /// It ended with this status, as a word.
    Ended(u32),
    /// It stopped at a failed check of the source.
    Raised(Kind),
    /// It stopped since the store or the stack had no room.
    Exhausted,
    /// It stopped since the store lacked host memory.
    HostMemory,
    /// It stopped at a fault.
    Fault(MachineFault),
}
