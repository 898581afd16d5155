//! Writers that count their failures, and a write of a whole text.
ghost use Rattle.std.specs.Prelude.{◌≡◌, ◌⊎◌, ◌↔◌, ℕ, IsTrue, List, Option, IfOk, OnOk, IsOk};
ghost use Rattle.std.specs.Io.{WritesAtMost};
ghost use Rattle.std.specs.Io.KnownBytes.{Keeps, WriteAppends};
ghost use Rattle.check_attr.specs.Failures.{CountsFailure, CountsStall};
ghost use Rattle.check_attr.specs.inner.Whole.{WritesFlushed, WritesWhole};

use crate::failure_count::counted;
use crate::fault::Fault;
use std::io;
use std::io::Write;

/// A destination of bytes: std's `Write`, with a count of the calls that failed.
pub trait Push {
    // The bytes that the writer has taken, if they are known.
    ghost contents: { Self → Option (List ℕ) };

    // How many calls failed so far.
    ghost failed: { Self → ℕ };

    // How many writes that had bytes took none so far.
    ghost stalled: { Self → ℕ };

    // Whether a flush succeeded, and no write took a byte since.
    ghost Flushed: { Self → Type 0 };

    /// Writes the front of `bytes`, and returns how many bytes the writer took.
    ///
    /// # Errors
    ///
    /// Whatever the writer returns. The failure is counted.
    fn write(&mut self, bytes: &[u8]) -> io::Result<usize>
        ensures bound { WritesAtMost result bytes.now }
        ensures bytes { WriteAppends (contents self.old) (contents self.new) result bytes.now }
        ensures failed { CountsFailure result (failed self.old) (failed self.new) }
        ensures stalled { CountsStall result bytes.now (stalled self.old) (stalled self.new) }
        ensures flushed { Flushed self.new → Flushed self.old × IfOk result (λ n. n ≡ 0) };

    /// Flushes the bytes that the writer still buffers.
    ///
    /// # Errors
    ///
    /// Whatever the writer returns. The failure is counted.
    fn flush(&mut self) -> io::Result<()>
        ensures bytes { Keeps (contents self.old) (contents self.new) }
        ensures ok { OnOk result (Flushed self.new) }
        ensures flushed { Flushed self.new → Flushed self.old ⊎ IsOk result }
        ensures failed { CountsFailure result (failed self.old) (failed self.new) }
        ensures stalled { stalled self.new ≡ stalled self.old };

    /// The number of calls that failed so far, interrupted ones included. It stops at `u64::MAX`.
    fn failures(&self) -> u64
        ensures { result ≡ failed self.now };

    /// The number of writes so far that had bytes and took none. It stops at `u64::MAX`.
    fn stalls(&self) -> u64
        ensures { result ≡ stalled self.now };
}

/// A writer of std, with its failed calls and its stalled writes counted, and whether a flush succeeded.
#[derive(Drop)]
pub struct Writer<W> {
    inner: W,
    failures: u64,
    stalls: u64,
    is_flushed: bool,
}

impl<W: Write> Writer<W> {
    /// The writer, without a failure, a stall or a flush so far.
    pub fn new(inner: W) -> Writer<W>
        ensures contents { ⟦<Writer<W> as Push>⟧.contents result ≡ W.contents inner }
        ensures failed { ⟦<Writer<W> as Push>⟧.failed result ≡ 0 }
        ensures stalled { ⟦<Writer<W> as Push>⟧.stalled result ≡ 0 }
        ensures unflushed { ⟦<Writer<W> as Push>⟧.Flushed result → ⊥ }
    {
        Writer {
            inner,
            failures: 0,
            stalls: 0,
            is_flushed: false,
        }
    }

    /// Whether a flush succeeded, and nothing was written since.
    pub fn is_flushed(&self) -> bool
        ensures { IsTrue result ↔ ⟦<Writer<W> as Push>⟧.Flushed self.now }
    {
        self.is_flushed
    }
}

impl<W: Write> Push for Writer<W> {
    ghost contents = { λ s. W.contents s.inner };

    ghost failed = { λ s. s.failures };

    ghost stalled = { λ s. s.stalls };

    ghost Flushed = { λ s. IsTrue s.is_flushed };

    fn write(&mut self, bytes: &[u8]) -> io::Result<usize> {
        self.is_flushed = false;
        let written = counted(&mut self.failures, self.inner.write(bytes));
        if matches!(&written, Ok(0)) && !bytes.is_empty() {
            self.stalls = self.stalls.saturating_add(1);
        }
        written
    }

    fn flush(&mut self) -> io::Result<()> {
        let flushed = counted(&mut self.failures, self.inner.flush());
        self.is_flushed = flushed.is_ok();
        flushed
    }

    fn failures(&self) -> u64 {
        self.failures
    }

    fn stalls(&self) -> u64 {
        self.stalls
    }
}

/// Writes a whole text, and flushes once. A call that fails is not tried again, an interrupted one
/// included.
///
/// # Errors
///
/// `Write` if a call failed, or if a write took no byte.
pub(crate) fn write_all<W: Push>(writer: &mut W, text: &[u8]) -> Result<(), Fault>
    ensures { WritesFlushed W.contents W.failed W.stalled W.Flushed writer.old writer.new
        text.now result }
{
    write_bytes(writer, text)?;
    match writer.flush() {
        Ok(()) => Ok(()),
        Err(_) => Err(Fault::Write),
    }
}

/// Writes a whole text. A write that fails is not tried again, an interrupted one included.
///
/// # Errors
///
/// `Write` if a write failed or took no byte.
pub(crate) fn write_bytes<W: Push>(writer: &mut W, text: &[u8]) -> Result<(), Fault>
    ensures { WritesWhole W.contents W.failed W.stalled writer.old writer.new text.now result }
{
    let mut written = 0;
    while written < text.len() {
        match writer.write(&text[written..]) {
            Ok(0) | Err(_) => return Err(Fault::Write),
            Ok(count) => written += count,
        }
    }
    Ok(())
}
