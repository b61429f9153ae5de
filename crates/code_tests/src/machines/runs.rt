// Runs of short programs between a reader and a writer that stumble.
//
// In a row of a machine `input` has the read that fails, and the text that is read; `output` the most bytes that are taken at a call, the write that
// stumbles, how it does, and what is written. Without them nothing is read, and all is taken. `run` has the number of runs and the steps of each, and says
// how the last one ends, how many bytes are written then, and how many reads and writes there were and failed.

use crate::devices::{Script, Tape};
use crate::texts::{number_of, parted};
use cyc_arena::BlockStore;
use cyc_host::{Ending, run};
use cyc_words::{Counted, Input, Output};
use rv32_machine::Machine;
use std::alloc::{AllocError, Global};

/// What a machine runs between.
#[derive(Drop)]
pub struct Devices {
    reader: Counted<Script>,
    writer: Counted<Tape>,
}

impl Devices {
    /// A reader of nothing, and a writer that takes all.
    pub fn new() -> Devices {
        Devices {
            reader: Counted::new(Script::new(0, "")),
            writer: Counted::new(Tape::new("")),
        }
    }

    /// Takes the reader of a text from now on.
    pub fn read(&mut self, text: &'static str) -> bool {
        let (fails_at, text) = parted(text);
        self.reader = Counted::new(Script::new(fails_at.parse().unwrap_or(0), text));
        true
    }

    /// Takes the writer of a text from now on.
    pub fn write(&mut self, text: &'static str) -> bool {
        self.writer = Counted::new(Tape::stumbling(text));
        true
    }

    /// How the last of `times` runs ends, each of at most `steps` steps.
    fn ending_of<S: BlockStore>(
        &mut self,
        machine: &mut Machine<S>,
        times: u32,
        steps: u32,
    ) -> Ending {
        let mut ending = Ending::StepLimit;
        for _ in 0..times {
            ending = run(
                machine,
                &mut self.reader,
                &mut self.writer,
                u64::from(steps),
            );
        }
        ending
    }

    /// Whether these were asked so, with what they say of it: the ending, the bytes written, the reads and writes, and those that failed.
    fn are_asked(&self, alloc: Global, ending: Ending, wanted: &str) -> Result<bool, AllocError> {
        let (read, written) = (self.reader.get_ref(), self.writer.get_ref());
        let (reads, writes, taken) = (read.calls, written.calls, written.taken);
        let (torn, lost) = (self.reader.faults(), self.writer.faults());
        let shown = format!(in alloc; "{ending:?} {taken} {reads} {writes} {torn} {lost}")?;
        Ok(written.is_right && shown.as_str() == wanted)
    }

    /// Whether runs of a machine end so.
    pub fn run<S: BlockStore>(
        &mut self,
        alloc: Global,
        machine: &mut Machine<S>,
        text: &str,
    ) -> Result<bool, AllocError> {
        let (times, rest) = parted(text);
        let (steps, wanted) = parted(rest);
        let ending = self.ending_of(machine, number_of(times), number_of(steps));
        self.are_asked(alloc, ending, wanted)
    }
}

/// An echo, a byte after the end, a read that fails once, and steps one by one; without steps nothing is read.
///
/// Then a failed write takes the place of an ending. After a failed call no device is called; what was gathered is written before the next byte is read, and at
/// each ending.
///
/// At last output of about 4,096 bytes, at the last of which it is written. Where the first write fails, x5 has how many bytes are still to be put out, the one
/// among them that was put out last.
pub const RUNS: &str = "\
input 0 hello; output 8192 0 fails hello; run 1 1000 Ended(0) 5 6 5 0 0 <- echo
run 1 1000 Ended(-1) 0 1 0 0 0 <- twice
input 3 hello; output 8192 0 fails hello; run 1 1000 ReadFault 2 3 2 1 0; run 1 1000 Ended(0) 5 7 5 1 0 <- echo
input 0 hi; output 8192 0 fails hi; run 1 0 StepLimit 0 0 0 0 0; run 1 2 StepLimit 0 1 0 0 0; pc 10008; x10 68; \
run 15 1 StepLimit 2 3 2 0 0; run 1 1 Ended(0) 2 3 2 0 0; run 2 1 Ended(0) 2 3 2 0 0 <- echo
input 1 x; run 1 0 StepLimit 0 0 0 0 0; run 1 2 ReadFault 0 1 0 1 0; run 1 0 StepLimit 0 1 0 1 0; run 1 1 StepLimit 0 2 0 1 0; x10 78 <- twice
output 1 0 fails AAAAA; run 1 1000 Ended(65) 5 0 5 0 0 <- five
output 1 3 nothing AA; run 1 1000 WriteFault 2 0 3 0 1 <- five
output 1 3 fails AA; run 1 1000 WriteFault 2 0 3 0 1 <- five
input 1 hello; run 1 1000 ReadFault 0 1 0 1 0 <- echo
input 2 hello; output 8192 0 fails h; run 1 1000 ReadFault 1 2 1 1 0 <- echo
input 3 hello; output 8192 0 fails he; run 1 1000 ReadFault 2 3 2 1 0 <- echo
input 0 hello; output 8192 1 nothing; run 1 1000 WriteFault 0 1 1 0 1 <- echo
input 0 hello; output 8192 2 nothing h; run 1 1000 WriteFault 1 2 2 0 1 <- echo
input 0 hello; output 8192 3 nothing he; run 1 1000 WriteFault 2 3 3 0 1 <- echo
input 0 hello; output 8192 1 fails; run 1 1000 WriteFault 0 1 1 0 1 <- echo
input 0 hello; output 8192 2 fails h; run 1 1000 WriteFault 1 2 2 0 1 <- echo
input 0 hello; output 8192 3 fails he; run 1 1000 WriteFault 2 3 3 0 1 <- echo
output 8192 0 fails A; run 1 1000 Raised(ArrayBounds) 1 0 1 0 0 <- raises
output 8192 0 fails A; run 1 1000 Fault(Access) 1 0 1 0 0 <- cut
output 8192 1 fails; run 1 100000 WriteFault 0 0 1 0 1; x5 0 <- less
output 8192 0 fails AAAAA; run 1 100000 Ended(65) 4095 0 1 0 0 <- less
output 8192 1 fails; run 1 100000 WriteFault 0 0 1 0 1; x5 1 <- page
output 8192 0 fails AAAAA; run 1 100000 Ended(65) 4096 0 1 0 0 <- page
output 8192 1 fails; run 1 100000 WriteFault 0 0 1 0 1; x5 2 <- more
output 8192 0 fails AAAAA; run 1 100000 Ended(65) 4097 0 2 0 0 <- more";
