//! Text that is held in memory before it is written, in pieces. If the buffer can't grow, what it holds is not specified.

ghost use Rattle.std.specs.Prelude.{◌≡◌, ◌+◌, ◌≤◌, ◌++◌, OnOk, [], length, take};
ghost use Rattle.std.specs.Fmt.{decimal};
ghost use Rattle.check_attr.specs.inner.Pieces.{FillsNoPiece, Passes};

use crate::fault::Fault;
use crate::writing::{Push, write_bytes};
use itoa::Buffer;
use std::alloc::{AllocError, Global};
use std::marker::Model;

// So many bytes of room are made at once.
const ROOM: usize = 4096;

// The length of a piece in bytes: so many are held before they are written.
const PIECE: usize = 1 << 16;

/// Text that is held: the first bytes of a buffer. What follows them is room for more, so that most texts are appended by
/// a copy alone.
#[derive(Drop)]
pub struct Held {
    buffer: Vec<u8>,
    len: usize,
}

impl Model for Held {
    ghost use Rattle.std.specs.Prelude.{◌≤◌, ℕ, List, length, take};

    ghost Value = { List ℕ };

    ghost view = { λ held. take held.len held.buffer.items };

    ghost invariant = { λ held. held.len ≤ length held.buffer.items };
}

impl Held {
    /// Holds nothing so far.
    pub fn new(alloc: Global) -> Held
        ensures { result ≡ [] }
    {
        Held {
            buffer: Vec::new(alloc),
            len: 0,
        }
    }

    /// The text that is held.
    pub fn text(&self) -> &[u8]
        ensures { result.now ≡ self.now }
    {
        &self.buffer[..self.len]
    }

    /// Holds nothing. The buffer is kept.
    pub fn clear(&mut self)
        ensures { self.new ≡ [] }
    {
        self.len = 0;
    }

    /// Appends bytes.
    ///
    /// # Errors
    ///
    /// `AllocError` if the buffer could not grow.
    pub fn push(&mut self, bytes: &[u8]) -> Result<(), AllocError>
        ensures { OnOk result (self.new ≡ self.old ++ bytes.now) }
    {
        let start = self.len;
        if self.buffer.len() - start < bytes.len() {
            make_room(&mut self.buffer, start, bytes.len())?;
        }
        let end = start + bytes.len();
        self.buffer[start..end].copy_from_slice(bytes);
        self.len = end;
        Ok(())
    }

    /// Appends the decimal digits of a number.
    ///
    /// # Errors
    ///
    /// `AllocError` if the buffer could not grow.
    pub fn push_number(&mut self, number: usize) -> Result<(), AllocError>
        ensures { OnOk result (self.new ≡ self.old ++ decimal number) }
    {
        self.push(Buffer::new().format(number).as_bytes())
    }

    /// Writes what is held if it fills a piece, and then holds nothing.
    ///
    /// # Errors
    ///
    /// `Write` if a write failed or took no byte.
    pub fn write_full<W: Push>(&mut self, writer: &mut W) -> Result<(), Fault>
        ensures passed { Passes W.contents W.failed W.stalled writer.old writer.new
            self.new self.old result }
        ensures unfilled { OnOk result (FillsNoPiece self.new) }
    {
        if self.text().len() < PIECE {
            return Ok(());
        }
        write_bytes(writer, self.text())?;
        self.clear();
        Ok(())
    }
}

// Makes room for so many more bytes after the first ones of a buffer, which stay.
#[cold]
#[inline(never)]
fn make_room(buffer: &mut Vec<u8>, len: usize, more: usize) -> Result<(), AllocError>
    requires { len ≤ length buffer.old.items }
    ensures kept { take len buffer.new.items ≡ take len buffer.old.items }
    ensures bound { len ≤ length buffer.new.items }
    ensures room { OnOk result (len + more ≤ length buffer.new.items) }
{
    let Some(wanted) = len.checked_add(more) else {
        return Err(AllocError);
    };
    buffer.resize(wanted.saturating_add(ROOM), 0)
}
