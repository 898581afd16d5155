//! Readers and writers in memory, of which a chosen call fails. `Reader` and `Writer` of `check_attr` count what they do.

ghost use Rattle.std.specs.Prelude.{◌≡◌, false};

use std::io;
use std::io::{ErrorKind, Read, Write};

/// A reader of bytes.
#[derive(Drop)]
pub struct Source<'a> {
    /// The bytes that are left.
    pub rest: &'a [u8],
    /// How many bytes a call returns at most.
    pub most: usize,
    /// Which read from now on fails, once, as an interrupted one; 0 means that none does.
    pub failing: u64,
}

impl Read for Source<'_> {
    fn read(&mut self, buf: &mut [u8]) -> io::Result<usize> {
        count_down(&mut self.failing)?;
        let count = self.rest.len().min(self.most).min(buf.len());
        let (given, rest) = self.rest.split_at(count);
        buf[..count].copy_from_slice(given);
        self.rest = rest;
        Ok(count)
    }
}

/// A writer that stores its bytes.
#[derive(Drop)]
pub struct Sink {
    /// The bytes that were written so far.
    pub bytes: Vec<u8>,
    /// How many bytes a call takes at most. At 0 it is stuck, and no call fails.
    pub most: usize,
    /// Which write from now on fails, once, as an interrupted one; 0 means that none does.
    pub failing: u64,
    /// Whether each flush fails.
    pub fails_flush: bool,
    /// The number of flushes, failed ones included. It stops at `u64::MAX`.
    pub flushes: u64,
}

impl Sink {
    /// A writer into this buffer, of which no call fails. It takes no memory as long as the buffer has room.
    pub fn new(bytes: Vec<u8>, most: usize) -> Sink
        ensures written { result.bytes ≡ bytes }
        ensures most { result.most ≡ most }
        ensures whole { (result.failing ≡ 0) × (result.fails_flush ≡ false) }
        ensures unflushed { result.flushes ≡ 0 }
    {
        Sink {
            bytes,
            most,
            failing: 0,
            fails_flush: false,
            flushes: 0,
        }
    }
}

impl Write for Sink {
    fn write(&mut self, bytes: &[u8]) -> io::Result<usize> {
        count_down(&mut self.failing)?;
        let count = bytes.len().min(self.most);
        self.bytes.extend_from_slice(&bytes[..count])?;
        Ok(count)
    }

    fn flush(&mut self) -> io::Result<()> {
        self.flushes = self.flushes.saturating_add(1);
        if self.fails_flush {
            return Err(io::Error::from(ErrorKind::Other));
        }
        Ok(())
    }
}

// Counts a call, which fails if it is the one that has to.
fn count_down(failing: &mut u64) -> io::Result<()> {
    let is_failing = *failing == 1;
    *failing = failing.saturating_sub(1);
    if is_failing {
        return Err(io::Error::from(ErrorKind::Interrupted));
    }
    Ok(())
}
