// Bytes that were read, and the frames in them.

use editor_protocol::{Code, Frame, frame_at};
use std::alloc::{AllocError, Global};

/// Bytes that were read and have not been taken yet.
pub struct Received {
    alloc: Global,
    bytes: Vec<u8>,
    /// How many of the bytes that come are passed over, since they are of a body that is too long.
    skipped: usize,
}

// Written out, so that a caller's proof sees one call and not the drop of each field.
impl Drop for Received {
    fn drop(self) {
        let Received {
            alloc: _,
            bytes: _bytes,
            skipped: _,
        } = self;
    }
}

/// What was received: the body of a message, or what is none.
#[derive(Drop)]
pub enum Arrived {
    Body(Vec<u8>),
    Fault(Code),
}

impl Received {
    /// Nothing so far.
    pub fn new(alloc: Global) -> Received {
        Received {
            alloc,
            bytes: Vec::new(alloc),
            skipped: 0,
        }
    }

    /// Leaves out the first bytes.
    fn cut(&mut self, count: usize) -> Result<(), AllocError> {
        let rest = self.bytes.get(count..).unwrap_or(&[]);
        self.bytes = Vec::from_slice(self.alloc, rest)?;
        Ok(())
    }

    /// Adds bytes that were read. Fails only where no host memory is left, as all of these.
    pub fn add(&mut self, bytes: &[u8]) -> Result<(), AllocError> {
        let passed = self.skipped.min(bytes.len());
        self.skipped -= passed;
        self.bytes.extend_from_slice(&bytes[passed..])
    }

    /// Takes a body.
    fn body(&mut self, begin: usize, end: usize) -> Result<Arrived, AllocError> {
        let bytes = self.bytes.get(begin..end).unwrap_or(&[]);
        let body = Vec::from_slice(self.alloc, bytes)?;
        self.cut(end)?;
        Ok(Arrived::Body(body))
    }

    /// Passes over a body that is too long: what of it was read, and what comes.
    fn pass_over(&mut self, begin: usize, length: usize) -> Result<Arrived, AllocError> {
        let end = begin.saturating_add(length);
        self.skipped = end.saturating_sub(self.bytes.len());
        self.cut(end)?;
        Ok(Arrived::Fault(Code::InvalidRequest))
    }

    /// Takes what stands first, where it is whole.
    pub fn take(&mut self) -> Result<Option<Arrived>, AllocError> {
        match frame_at(self.bytes.as_slice()) {
            Frame::Partial => Ok(None),
            Frame::Whole { begin, end } => Ok(Some(self.body(begin, end)?)),
            Frame::TooLong { begin, length } => Ok(Some(self.pass_over(begin, length)?)),
            Frame::Broken { end } => {
                self.cut(end)?;
                Ok(Some(Arrived::Fault(Code::ParseError)))
            }
        }
    }

    /// How many bytes there are.
    pub fn len(&self) -> usize {
        self.bytes.len()
    }
}
