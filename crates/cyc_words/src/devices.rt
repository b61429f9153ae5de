// Readers and writers that count their failed calls.

ghost use Rattle.std.specs.Prelude.{◌≡◌, ℕ};
ghost use Rattle.std.specs.Io.{ReadsAtMost, WritesAtMost};
ghost use Rattle.std.specs.Io.KnownBytes.{ReadConsumes, WriteAppends, Keeps};
ghost use Rattle.cyc_words.specs.Devices.{after_read, after_write, one_more};
ghost use Rattle.cyc_words.specs.Counting.{count_of, inner_of};

use std::io;
use std::io::{Read, Write};

/// A reader that counts its failed calls.
pub trait Input: Read {
    // how many calls have failed
    ghost fault_count: { Self → ℕ };

    /// How many calls of `receive` have failed so far, up to the greatest u64, where it stays.
    fn faults(&self) -> u64
        ensures { result ≡ fault_count self.now };

    /// Reads as `read` does, and counts a failed call.
    fn receive(&mut self, buffer: &mut [u8]) -> io::Result<usize>
        ensures bound { ReadsAtMost result buffer.new }
        ensures bytes { ReadConsumes (Self.remaining self.old) (Self.remaining self.new) result
            buffer.new }
        ensures counted { fault_count self.new ≡ after_read (fault_count self.old) result };
}

/// A writer that counts its failed calls.
pub trait Output: Write {
    // how many calls have failed
    ghost fault_count: { Self → ℕ };

    /// How many calls of `send` have failed so far, up to the greatest u64, where it stays. A call
    /// that takes 0 bytes of some has failed too.
    fn faults(&self) -> u64
        ensures { result ≡ fault_count self.now };

    /// Writes as `write` does, and counts a failed call.
    fn send(&mut self, bytes: &[u8]) -> io::Result<usize>
        ensures bound { WritesAtMost result bytes.now }
        ensures bytes { WriteAppends (Self.contents self.old) (Self.contents self.new) result
            bytes.now }
        ensures counted { fault_count self.new ≡
            after_write (fault_count self.old) result bytes.now };
}

/// A reader or a writer with a count of its failed calls, up to the greatest u64, where it stays.
///
/// A failed call counts whether it came by `read` or `write`, or by `receive` or `send`. `flush`
/// never counts.
#[derive(Drop)]
pub struct Counted<T> {
    inner: T,
    faults: u64,
}

impl<T> Counted<T> {
    /// This reader or writer, with a count of 0.
    pub fn new(inner: T) -> Counted<T>
        ensures inner { inner_of result ≡ inner }
        ensures count { count_of result ≡ 0 }
    {
        Counted { inner, faults: 0 }
    }

    /// The reader or the writer inside.
    pub fn get_ref(&self) -> &T
        ensures { result.now ≡ inner_of self.now }
    {
        &self.inner
    }

    /// The reader or the writer inside, without its count.
    pub fn into_inner(self) -> T
        ensures { result ≡ inner_of self }
    {
        self.inner
    }

    /// One more failed call.
    fn count_failure(&mut self)
        ensures inner { inner_of self.new ≡ inner_of self.old }
        ensures count { count_of self.new ≡ one_more (count_of self.old) }
    {
        self.faults = self.faults.saturating_add(1);
    }
}

impl<T: Read> Read for Counted<T> {
    ghost remaining = { λ c. T.remaining (inner_of c) };

    /// Reads as the reader inside does, and counts a failed call.
    fn read(&mut self, buffer: &mut [u8]) -> io::Result<usize>
        ensures bound { ReadsAtMost result buffer.new }
        ensures bytes { ReadConsumes (T.remaining (inner_of self.old))
            (T.remaining (inner_of self.new)) result buffer.new }
        ensures counted { count_of self.new ≡ after_read (count_of self.old) result }
    {
        let outcome = self.inner.read(buffer);
        if outcome.is_err() {
            self.count_failure();
        }
        outcome
    }
}

impl<T: Read> Input for Counted<T> {
    ghost fault_count = { λ c. count_of c };

    fn faults(&self) -> u64 {
        self.faults
    }

    fn receive(&mut self, buffer: &mut [u8]) -> io::Result<usize> {
        self.read(buffer)
    }
}

impl<T: Write> Write for Counted<T> {
    ghost contents = { λ c. T.contents (inner_of c) };

    /// Writes as the writer inside does, and counts a failed call. One that takes 0 bytes of some
    /// has failed too.
    fn write(&mut self, bytes: &[u8]) -> io::Result<usize>
        ensures bound { WritesAtMost result bytes.now }
        ensures bytes { WriteAppends (T.contents (inner_of self.old))
            (T.contents (inner_of self.new)) result bytes.now }
        ensures counted { count_of self.new ≡ after_write (count_of self.old) result bytes.now }
    {
        let outcome = self.inner.write(bytes);
        let failed = match &outcome {
            Ok(taken) => *taken == 0 && !bytes.is_empty(),
            Err(_) => true,
        };
        if failed {
            self.count_failure();
        }
        outcome
    }

    /// Flushes the writer inside. The count stays, also where that fails.
    fn flush(&mut self) -> io::Result<()>
        ensures bytes { Keeps (T.contents (inner_of self.old)) (T.contents (inner_of self.new)) }
        ensures count { count_of self.new ≡ count_of self.old }
    {
        self.inner.flush()
    }
}

impl<T: Write> Output for Counted<T> {
    ghost fault_count = { λ c. count_of c };

    fn faults(&self) -> u64 {
        self.faults
    }

    fn send(&mut self, bytes: &[u8]) -> io::Result<usize> {
        self.write(bytes)
    }
}
