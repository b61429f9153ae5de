// A text of JSON, written piece by piece.

use std::alloc::{AllocError, Global};
use std::str;

/// The digits of a number of base 16.
const DIGITS: &[u8; 16] = b"0123456789abcdef";

/// A text of JSON as it is written so far. All that add to it fail only where no host memory is left.
pub struct JsonText {
    alloc: Global,
    out: Vec<u8>,
    /// Whether an item stands before the next one.
    has_item: bool,
}

// Written out, so that a caller's proof sees one call and not the drop of each field.
impl Drop for JsonText {
    fn drop(self) {
        let JsonText {
            alloc: _,
            out: _out,
            has_item: _,
        } = self;
    }
}

/// The digit of the lowest four bits.
fn digit(number: u8) -> u8 {
    DIGITS[usize::from(number % 16)]
}

impl JsonText {
    /// An empty text.
    pub fn new(alloc: Global) -> JsonText {
        JsonText {
            alloc,
            out: Vec::new(alloc),
            has_item: false,
        }
    }

    /// All that was written.
    pub fn into_bytes(self) -> Vec<u8> {
        let JsonText {
            alloc: _,
            out,
            has_item: _,
        } = self;
        out
    }

    /// Adds text as it is.
    pub fn raw(&mut self, text: &str) -> Result<(), AllocError> {
        self.out.extend_from_slice(text.as_bytes())
    }

    /// Adds a value that is written already.
    pub fn value(&mut self, value: &[u8]) -> Result<(), AllocError> {
        self.out.extend_from_slice(value)
    }

    /// Begins a list of items.
    pub fn begin(&mut self) -> Result<(), AllocError> {
        self.has_item = false;
        self.raw("[")
    }

    /// Begins an item, behind a comma where it isn't the first one.
    pub fn item(&mut self) -> Result<(), AllocError> {
        let comma = if self.has_item { "," } else { "" };
        self.has_item = true;
        self.raw(comma)
    }

    /// Ends a list, which is an item of the list around it.
    pub fn end(&mut self) -> Result<(), AllocError> {
        self.has_item = true;
        self.raw("]")
    }

    /// Adds a number.
    pub fn number(&mut self, number: i64) -> Result<(), AllocError> {
        let digits = format!(in self.alloc; "{number}")?;
        self.raw(digits.as_str())
    }

    /// Adds a byte by its number, as it stands in a string.
    fn escaped(&mut self, byte: u8) -> Result<(), AllocError> {
        let four = [b'\\', b'u', b'0', b'0', digit(byte / 16), digit(byte)];
        self.out.extend_from_slice(&four)
    }

    /// Adds a byte of a string.
    fn byte(&mut self, byte: u8, is_utf8: bool) -> Result<(), AllocError> {
        match byte {
            b'"' => self.raw("\\\""),
            b'\\' => self.raw("\\\\"),
            b'\n' => self.raw("\\n"),
            0..=0x1f | 0x7f => self.escaped(byte),
            0x80..=0xff if !is_utf8 => self.raw("?"),
            _ => Ok(self.out.push(byte)?),
        }
    }

    /// Adds the inside of a string, without its quotes. Of bytes that are no UTF-8 each above 127 becomes a question mark.
    pub fn inside(&mut self, bytes: &[u8]) -> Result<(), AllocError> {
        let is_utf8 = str::from_utf8(bytes).is_ok();
        for byte in bytes {
            self.byte(*byte, is_utf8)?;
        }
        Ok(())
    }

    /// Adds a string.
    pub fn string(&mut self, bytes: &[u8]) -> Result<(), AllocError> {
        self.raw("\"")?;
        self.inside(bytes)?;
        self.raw("\"")
    }
}
