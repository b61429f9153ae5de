// What goes to the writer and comes from the reader.

ghost use Rattle.std.specs.Prelude.{◌≡◌, ◌<◌, ◌∷◌, ◌++◌, [], false, IfOk, OnOk, OnErr};
ghost use Rattle.std.specs.Io.KnownBytes.{Appends, Keeps};
ghost use Rattle.cyc_host.specs.Failures.{failed_once};
ghost use Rattle.cyc_host.specs.Transfers.{Answers, WritesBut, WritesSome};

use arrayvec::ArrayVec;
use cyc_words::{Input, Output};
use std::marker::Model;
use thiserror::Error;

/// How many bytes of output are gathered before they are written.
pub const GATHERED_BYTES: usize = 4096;

/// A write that failed, or took no byte.
#[derive(Clone, Copy, Debug, Error)]
#[error("the writer failed or took no byte")]
pub struct WriteFailed;

/// A read that failed.
#[derive(Clone, Copy, Debug, Error)]
#[error("the reader failed")]
pub struct ReadFailed;

/// Writes all of the bytes, as many at a time as the writer takes.
fn write_all<W: Output>(writer: &mut W, bytes: &[u8]) -> Result<(), WriteFailed>
    ensures all { OnOk result (Appends (W.contents writer.old) (W.contents writer.new) bytes.now) }
    ensures some { OnErr result (WritesSome (W.contents writer.old) (W.contents writer.new) bytes.now) }
    ensures counted { W.fault_count writer.new ≡ failed_once result (W.fault_count writer.old) }
{
    let mut rest = bytes;
    'parts: while !rest.is_empty() {
        match writer.send(rest) {
            Ok(0) => return Err(WriteFailed),
            Ok(taken) => rest = &rest[taken..],
            Err(_) => return Err(WriteFailed),
        }
    }
    Ok(())
}

/// Writes these bytes and lets them go, also where the write failed.
fn write_out<W: Output>(
    bytes: &mut ArrayVec<u8, GATHERED_BYTES>,
    writer: &mut W,
) -> Result<(), WriteFailed>
    ensures empty { bytes.new.items ≡ [] }
    ensures all { OnOk result (Appends (W.contents writer.old) (W.contents writer.new) bytes.old.items) }
    ensures some { OnErr result (WritesSome (W.contents writer.old) (W.contents writer.new) bytes.old.items) }
    ensures counted { W.fault_count writer.new ≡ failed_once result (W.fault_count writer.old) }
{
    let result = write_all(writer, bytes.as_slice());
    bytes.clear();
    result
}

/// Output that was gathered and isn't written yet, in order: fewer than 4,096 bytes.
#[derive(Drop)]
pub struct Gathered {
    bytes: ArrayVec<u8, GATHERED_BYTES>,
}

impl Model for Gathered {
    ghost use Rattle.std.specs.Prelude.{ℕ, ◌<◌, List};
    ghost use Rattle.arrayvec.specs.ArrayVec.{array_vec_len};

    ghost Value = { List ℕ };

    ghost view = { λ gathered. gathered.bytes.items };

    ghost invariant = { λ gathered. array_vec_len gathered.bytes < 4096 };
}

impl Gathered {
    /// Nothing is gathered yet.
    pub fn new() -> Gathered
        ensures { result ≡ [] }
    {
        Gathered {
            bytes: ArrayVec::new(),
        }
    }

    /// Writes what is gathered. Nothing is gathered then, also where the write failed.
    pub fn flush<W: Output>(&mut self, writer: &mut W) -> Result<(), WriteFailed>
        ensures empty { self.new ≡ [] }
        ensures all { OnOk result (Appends (W.contents writer.old) (W.contents writer.new) self.old) }
        ensures some { OnErr result (WritesSome (W.contents writer.old) (W.contents writer.new) self.old) }
        ensures counted { W.fault_count writer.new ≡ failed_once result (W.fault_count writer.old) }
    {
        write_out(&mut self.bytes, writer)
    }

    /// Gathers a byte, and writes what is gathered when that is 4,096 bytes. Nothing is gathered where the write failed.
    pub fn put<W: Output>(&mut self, writer: &mut W, byte: u8) -> Result<(), WriteFailed>
        ensures empty { OnErr result (self.new ≡ []) }
        ensures all { OnOk result (WritesBut (W.contents writer.old) (W.contents writer.new)
            (self.old ++ byte ∷ []) self.new) }
        ensures some { OnErr result (WritesSome (W.contents writer.old) (W.contents writer.new)
            (self.old ++ byte ∷ [])) }
        ensures counted { W.fault_count writer.new ≡ failed_once result (W.fault_count writer.old) }
    {
        self.bytes.push(byte);
        if self.bytes.is_full() {
            write_out(&mut self.bytes, writer)
        } else {
            Ok(())
        }
    }
}

/// Reads a byte, or the end of the input. After the end nothing more is read.
pub fn read<R: Input>(reader: &mut R, is_over: &mut bool) -> Result<Option<u8>, ReadFailed>
    ensures answer { IfOk result (λ answer. Answers (R.remaining reader.old) (R.remaining reader.new)
        is_over.old is_over.new answer) }
    ensures kept { OnErr result (Keeps (R.remaining reader.old) (R.remaining reader.new)) }
    ensures asked { OnErr result (is_over.old ≡ false) }
    ensures counted { R.fault_count reader.new ≡ failed_once result (R.fault_count reader.old) }
{
    if *is_over {
        return Ok(None);
    }
    let mut byte = [0u8; 1];
    match reader.receive(&mut byte) {
        Ok(0) => {
            *is_over = true;
            Ok(None)
        }
        Ok(_) => Ok(Some(byte[0])),
        Err(_) => Err(ReadFailed),
    }
}
