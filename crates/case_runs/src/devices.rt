// What a command reads and writes between: bytes that are given one at a call, and bytes that are kept, where a call may fail.

use crate::cases::Case;
use cyc_words::{Counted, Input, Output};
use std::alloc::Global;
use std::io::{Error, ErrorKind, Read, Write};
use std::{fmt, io};

/// Gives one byte at a call and the end after the last one; fails at the call of that number, and where it is asked for anything but one byte.
#[derive(Drop)]
pub struct Script<'a> {
    bytes: &'a [u8],
    calls: u64,
    fails_at: u64,
}

impl<'a> Read for Script<'a> {
    fn read(&mut self, buffer: &mut [u8]) -> io::Result<usize> {
        self.calls = self.calls.saturating_add(1);
        if self.calls == self.fails_at || buffer.len() != 1 {
            return Err(Error::from(ErrorKind::Other));
        }
        if self.bytes.is_empty() {
            return Ok(0);
        }
        buffer[0] = self.bytes[0];
        self.bytes = &self.bytes[1..];
        Ok(1)
    }
}

/// Keeps what it takes, at most `most` bytes at a call. It fails at one call, and takes nothing at another, each given by its number.
#[derive(Drop)]
pub struct Tape {
    pub bytes: Vec<u8>,
    most: usize,
    calls: u64,
    fails_at: u64,
    takes_nothing_at: u64,
}

impl Write for Tape {
    fn write(&mut self, bytes: &[u8]) -> io::Result<usize> {
        self.calls = self.calls.saturating_add(1);
        if self.calls == self.fails_at {
            return Err(Error::from(ErrorKind::Other));
        }
        let most = if self.calls == self.takes_nothing_at {
            0
        } else {
            self.most
        };
        let taken = bytes.len().min(most);
        self.bytes.extend_from_slice(&bytes[..taken])?;
        Ok(taken)
    }

    fn flush(&mut self) -> io::Result<()> {
        Ok(())
    }
}

/// What a case gives to read, the numbers of the calls that stumble, where 0 is none, and the most bytes that are taken at a call.
#[derive(Clone, Copy)]
pub struct Given<'a> {
    input: &'a [u8],
    read_fails: u64,
    write_fails: u64,
    write_takes_nothing: u64,
    most: usize,
}

/// The number that a case has, or 0.
fn number(case: Case<'_>, key: &str) -> u64 {
    case.word(key).unwrap_or("0").parse().unwrap_or(0)
}

impl<'a> Given<'a> {
    /// What a case gives, whose input this is. Where it counts calls, a byte is taken at each.
    pub fn of(case: Case<'_>, input: &'a [u8]) -> Given<'a> {
        let counts_calls = case.word("calls").is_some();
        Given {
            input,
            read_fails: number(case, "read_fails"),
            write_fails: number(case, "write_fails"),
            write_takes_nothing: number(case, "write_takes_nothing"),
            most: if counts_calls { 1 } else { usize::MAX },
        }
    }

    /// What a command reads from.
    pub fn reader(self) -> Counted<Script<'a>> {
        Counted::new(Script {
            bytes: self.input,
            calls: 0,
            fails_at: self.read_fails,
        })
    }

    /// What a command writes to.
    pub fn writer(self, alloc: Global) -> Counted<Tape> {
        Counted::new(Tape {
            bytes: Vec::new(alloc),
            most: self.most,
            calls: 0,
            fails_at: self.write_fails,
            takes_nothing_at: self.write_takes_nothing,
        })
    }
}

/// How many reads and writes there were, and how many of each failed.
#[derive(Clone, Copy)]
pub struct Calls {
    reads: u64,
    writes: u64,
    failed_reads: u64,
    failed_writes: u64,
}

impl Calls {
    /// None.
    pub fn none() -> Calls {
        Calls {
            reads: 0,
            writes: 0,
            failed_reads: 0,
            failed_writes: 0,
        }
    }

    /// Those of a reader and a writer.
    pub fn of(reader: &Counted<Script<'_>>, writer: &Counted<Tape>) -> Calls {
        Calls {
            reads: reader.get_ref().calls,
            writes: writer.get_ref().calls,
            failed_reads: reader.faults(),
            failed_writes: writer.faults(),
        }
    }
}

impl fmt::Display for Calls {
    fn fmt<W: fmt::Write>(&self, f: &mut fmt::Formatter<W>) -> fmt::Result {
        let Calls {
            reads,
            writes,
            failed_reads,
            failed_writes,
        } = *self;
        write!(f, "{reads} {writes} {failed_reads} {failed_writes}")
    }
}
