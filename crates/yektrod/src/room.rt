//! A writer that holds what fits into the room of a caller, and counts the rest.

ghost use Rattle.std.specs.Prelude.{◌≡◌, ◌≤◌, ◌++◌, ℕ, List, IfOk, IsTrue, OnErr, Some, [], length, take};
ghost use Rattle.yektrod.specs.Played.{counted_length, laid_in};

mod taken;

use check_attr::Push;
use std::alloc::{AllocError, Global};
use std::io;
use taken::Taken;

/// A beginning of the text that was written, and the length of the whole. If memory runs out, what is written
/// from then on is counted alone.
#[derive(Drop)]
pub struct Room {
    // The length in bytes of the caller's room. No more is held.
    size: usize,
    held: Vec<u8>,
    // The length of the text, which stops at `usize::MAX`.
    needed: usize,
    is_flushed: bool,
    pub(crate) taken: Taken,
    ghost bound: { length held.items ≤ size },
    ghost front: { held.items ≡ take (length held.items) taken.text },
    ghost counted: { needed ≡ counted_length taken.text },
}

impl Room {
    /// A writer for a room of this length, to which nothing was written so far. It takes no memory.
    pub fn new(alloc: Global, size: usize) -> Room
        ensures size { result.size ≡ size }
        ensures nothing { result.taken.text ≡ [] }
    {
        Room {
            size,
            held: Vec::new(alloc),
            needed: 0,
            is_flushed: false,
            taken: Taken::nothing(),
        }
    }

    /// Copies what fits of the text to the front of `to`, and returns the length of the text.
    ///
    /// # Errors
    ///
    /// If there was no memory to hold what fits. Nothing is copied then.
    pub fn copy_to(&self, to: &mut [u8]) -> Result<usize, AllocError>
        ensures copied { IfOk result (λ needed. (needed ≡ counted_length self.now.taken.text)
            × (to.new ≡ laid_in to.old self.now.taken.text)) }
        ensures refused { OnErr result (to.new ≡ to.old) }
    {
        let fits = self.needed.min(to.len());
        let Some(front) = self.held.get(..fits) else {
            return Err(AllocError);
        };
        to[..fits].copy_from_slice(front);
        Ok(self.needed)
    }
}

impl Push for Room {
    ghost contents = { λ room. Some room.taken.text };

    ghost failed = { λ _. 0 };

    ghost stalled = { λ _. 0 };

    ghost Flushed = { λ room. IsTrue room.is_flushed };

    fn write(&mut self, bytes: &[u8]) -> io::Result<usize> {
        hold(&mut self.held, self.needed, self.size, bytes);
        self.needed = self.needed.saturating_add(bytes.len());
        self.taken = self.taken.and(bytes);
        self.is_flushed = false;
        Ok(bytes.len())
    }

    fn flush(&mut self) -> io::Result<()> {
        self.is_flushed = true;
        Ok(())
    }

    fn failures(&self) -> u64 {
        0
    }

    fn stalls(&self) -> u64 {
        0
    }
}

// Holds what fits of these bytes beside what is held of the text before them, unless some of that was left out.
fn hold(held: &mut Vec<u8>, needed: usize, size: usize, bytes: &[u8])
    requires { length held.old.items ≤ size }
    ensures bound { length held.new.items ≤ size }
    ensures front { (text : List ℕ) → held.old.items ≡ take (length held.old.items) text →
        needed ≡ counted_length text →
        held.new.items ≡ take (length held.new.items) (text ++ bytes.now) }
{
    if held.len() < needed {
        return;
    }
    let fits = bytes.len().min(size.saturating_sub(held.len()));
    let _ = held.extend_from_slice(&bytes[..fits]);
}
