//! Readers that count their failures, and a read to the end.
ghost use Rattle.std.specs.Prelude.{◌≡◌, ℕ, List, Option};
ghost use Rattle.std.specs.Io.{ReadsAtMost};
ghost use Rattle.std.specs.Io.KnownBytes.{ReadConsumes};
ghost use Rattle.check_attr.specs.Failures.{CountsFailure};
ghost use Rattle.check_attr.specs.inner.Whole.{ReadsWhole};

use crate::failure_count::counted;
use crate::fault::Fault;
use std::alloc::Global;
use std::io;
use std::io::Read;

/// A source of bytes: std's `Read`, with a count of the reads that failed.
pub trait Pull {
    // The bytes that reads will return from here on, if they are known.
    ghost remaining: { Self → Option (List ℕ) };

    // How many reads failed so far.
    ghost failed: { Self → ℕ };

    /// Reads some bytes into the front of `buf`, and returns how many: none only at the end, or if
    /// `buf` has no room.
    ///
    /// # Errors
    ///
    /// Whatever the reader returns. The failure is counted.
    fn read(&mut self, buf: &mut [u8]) -> io::Result<usize>
        ensures bound { ReadsAtMost result buf.new }
        ensures bytes { ReadConsumes (remaining self.old) (remaining self.new) result buf.new }
        ensures counted { CountsFailure result (failed self.old) (failed self.new) };

    /// The number of reads that failed so far, interrupted ones included. It stops at `u64::MAX`.
    fn failures(&self) -> u64
        ensures { result ≡ failed self.now };
}

/// A reader of std, with its failed reads counted.
#[derive(Drop)]
pub struct Reader<R> {
    inner: R,
    failures: u64,
}

impl<R: Read> Reader<R> {
    /// The reader, without a failure so far.
    pub fn new(inner: R) -> Reader<R>
        ensures remaining { ⟦<Reader<R> as Pull>⟧.remaining result ≡ R.remaining inner }
        ensures failed { ⟦<Reader<R> as Pull>⟧.failed result ≡ 0 }
    {
        Reader { inner, failures: 0 }
    }
}

impl<R: Read> Pull for Reader<R> {
    ghost remaining = { λ s. R.remaining s.inner };

    ghost failed = { λ s. s.failures };

    fn read(&mut self, buf: &mut [u8]) -> io::Result<usize> {
        counted(&mut self.failures, self.inner.read(buf))
    }

    fn failures(&self) -> u64 {
        self.failures
    }
}

const CHUNK: usize = 8192;

/// Reads all bytes that are left. A read that fails is not tried again, an interrupted one
/// included.
///
/// # Errors
///
/// `Read` if a read failed, and `OutOfMemory` if the buffer could not grow.
pub(crate) fn read_all<R: Pull>(alloc: Global, reader: &mut R) -> Result<Vec<u8>, Fault>
    ensures { ReadsWhole R.remaining R.failed reader.old reader.new result }
{
    let mut input = Vec::new(alloc);
    let mut chunk = [0u8; CHUNK];
    loop {
        let Ok(count) = reader.read(&mut chunk) else {
            return Err(Fault::Read);
        };
        if count == 0 {
            input.shrink_to_fit();
            return Ok(input);
        }
        input.extend_from_slice(&chunk[..count])?;
    }
}
