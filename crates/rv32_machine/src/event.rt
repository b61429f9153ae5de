// What a step shows.

use cyc_words::{Kind, MachineFault};

/// What a step of the machine shows.
#[derive(Clone, Copy, Debug)]
pub enum Event {
    /// The machine went on to the next instruction.
    Next,
    /// It went on, and wrote this byte.
    Put(u8),
    /// It waits for a byte, or for the end of the input.
    Get,
    /// It ended with this status.
    Ended(i32),
    /// It stopped at a failed check of the source.
    Raised(Kind),
    /// It stopped since the store or the stack had no room.
    Exhausted,
    /// It stopped since the store lacked host memory.
    HostMemory,
    /// It stopped at a fault, before the instruction.
    Fault(MachineFault),
}
