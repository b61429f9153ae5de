// How a run ends.

use cyc_words::{Kind, MachineFault};

/// How a run ends.
#[derive(Clone, Copy, Debug)]
pub enum Ending {
    /// The program ended with this status.
    Ended(i32),
    /// A check of the source failed.
    Raised(Kind),
    /// The store or the stack had no room.
    Exhausted,
    /// The store lacked host memory.
    HostMemory,
    /// The given number of steps was made. Another run goes on from there.
    StepLimit,
    /// The machine stopped at a fault.
    Fault(MachineFault),
    /// A read failed. Another run reads again.
    ReadFault,
    /// A write failed, or took no byte. What was gathered and not written is lost.
    WriteFault,
}
