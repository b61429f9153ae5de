// How a run of a program of Core ends.

use cyc_words::Kind;

/// How a run of a program of Core ends.
#[derive(Clone, Copy, Debug)]
pub enum EvalEnding {
    /// The program ended with this status.
    Ended(i32),
    /// A check of the program failed.
    Raised(Kind),
    /// A unit of fuel was due, and none was left.
    Running,
    /// The program did what no rule gives a meaning.
    Stuck,
    /// A read failed.
    ReadFault,
    /// A write failed, or took no byte. What was gathered and not written is lost.
    WriteFault,
    /// The host has no memory for what is still to be done, or for what is asked for.
    HostMemory,
}
