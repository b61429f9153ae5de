// A reader and a writer that stumble.

use crate::texts::parted;
use std::io;
use std::io::{Error, ErrorKind, Read, Write};

/// Gives one byte at a call, for `?` the byte 255, and the end after the last one; fails at the call of that number, and where it is asked for anything but one
/// byte.
#[derive(Drop)]
pub struct Script {
    bytes: &'static [u8],
    pub calls: u16,
    fails_at: u16,
}

impl Script {
    /// Gives a text, and fails at the read of this number.
    pub fn new(fails_at: u16, text: &'static str) -> Script {
        Script {
            bytes: text.as_bytes(),
            calls: 0,
            fails_at,
        }
    }
}

/// The byte that a byte of a text says: 255 for `?`.
fn said(byte: u8) -> u8 {
    if byte == b'?' { 0xff } else { byte }
}

impl Read for Script {
    fn read(&mut self, buffer: &mut [u8]) -> io::Result<usize> {
        self.calls = self.calls.saturating_add(1);
        if self.calls == self.fails_at || buffer.len() != 1 {
            return Err(Error::from(ErrorKind::Other));
        }
        if self.bytes.is_empty() {
            return Ok(0);
        }
        buffer[0] = said(self.bytes[0]);
        self.bytes = &self.bytes[1..];
        Ok(1)
    }
}

/// Takes at most `most` bytes at a call, and compares them with a text. At one call, given by its number, it takes nothing or fails.
/// What takes no byte at any call can't be flushed behind one.
#[derive(Drop)]
pub struct Tape {
    wanted: &'static [u8],
    pub is_right: bool,
    pub taken: usize,
    most: usize,
    pub calls: u16,
    stumbles_at: u16,
    takes_nothing: bool,
}

impl Tape {
    /// Takes a text, as much of it at a call as is given.
    pub fn new(text: &'static str) -> Tape {
        Tape {
            wanted: text.as_bytes(),
            is_right: true,
            taken: 0,
            most: usize::MAX,
            calls: 0,
            stumbles_at: 0,
            takes_nothing: false,
        }
    }

    /// The same with the most bytes at a call, the call that stumbles, and how it does, which stand before the text.
    pub fn stumbling(text: &'static str) -> Tape {
        let (most, rest) = parted(text);
        let (stumbles_at, rest) = parted(rest);
        let (stumble, text) = parted(rest);
        Tape {
            most: most.parse().unwrap_or(0),
            stumbles_at: stumbles_at.parse().unwrap_or(0),
            takes_nothing: stumble == "nothing",
            ..Tape::new(text)
        }
    }

    /// Whether the text and nothing else was taken.
    pub fn is_whole(&self) -> bool {
        self.is_right && self.taken == self.wanted.len()
    }

    /// Takes a byte, and compares it with the text's next one.
    fn take(&mut self, byte: u8) {
        if let Some(wanted) = self.wanted.get(self.taken) {
            self.is_right = self.is_right && said(*wanted) == byte;
        }
        self.taken = self.taken.saturating_add(1);
    }
}

impl Write for Tape {
    fn write(&mut self, bytes: &[u8]) -> io::Result<usize> {
        self.calls = self.calls.saturating_add(1);
        if self.calls == self.stumbles_at {
            return if self.takes_nothing {
                Ok(0)
            } else {
                Err(Error::from(ErrorKind::Other))
            };
        }
        let taken = bytes.len().min(self.most);
        for byte in &bytes[..taken] {
            self.take(*byte);
        }
        Ok(taken)
    }

    fn flush(&mut self) -> io::Result<()> {
        if self.most == 0 && self.calls > 0 {
            Err(Error::from(ErrorKind::Other))
        } else {
            Ok(())
        }
    }
}
