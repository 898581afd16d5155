//! What was read of late: in each bucket of texts the one that was read there last.

ghost use Rattle.std.specs.Prelude.{◌≡◌, ◌<◌, []};

use std::alloc::{AllocError, Global};

const BUCKETS: usize = 64;

/// For each bucket of texts, the index of the text that was read there last, among texts that the caller keeps.
#[derive(Debug, Drop)]
pub(crate) struct LastIndexes {
    indexes: [usize; BUCKETS],
}

impl LastIndexes {
    /// No text was read.
    pub(crate) fn new() -> LastIndexes {
        LastIndexes {
            indexes: [usize::MAX; BUCKETS],
        }
    }

    /// The index in the text's bucket, or `usize::MAX` if no text was read there. The caller has to compare the two texts, since
    /// others share the bucket.
    pub(crate) fn get(&self, text: &[u8]) -> usize {
        self.indexes[bucket(text)]
    }

    /// Notes the index of a text.
    pub(crate) fn set(&mut self, text: &[u8], index: usize) {
        self.indexes[bucket(text)] = index;
    }
}

/// For each bucket of texts, what was read there last. It takes room for what was read, so that small files cost little.
#[derive(Debug, Drop)]
pub(crate) struct LastRead<T> {
    last: LastIndexes,
    items: Vec<T>,
}

impl<T: Drop> LastRead<T> {
    /// Nothing was read. It takes no memory.
    pub(crate) fn new(alloc: Global) -> LastRead<T>
        ensures { result.items.items ≡ [] }
    {
        LastRead {
            last: LastIndexes::new(),
            items: Vec::new(alloc),
        }
    }

    /// What was read last in the text's bucket, if anything was. The caller has to compare it.
    pub(crate) fn get(&self, text: &[u8]) -> Option<&T> {
        self.items.get(self.last.get(text))
    }

    /// Keeps an item in the bucket of its text.
    ///
    /// # Errors
    ///
    /// If memory runs out.
    pub(crate) fn keep(&mut self, text: &[u8], item: T) -> Result<(), AllocError> {
        let index = self.last.get(text);
        if index < self.items.len() {
            self.items[index] = item;
        } else {
            self.last.set(text, self.items.len());
            self.items.push(item)?;
        }
        Ok(())
    }
}

// The bucket of a text, by its length, its first and its last byte. Of the names that most files use, no two share one.
fn bucket(text: &[u8]) -> usize
    ensures { result < 64 }
{
    match (text.first(), text.last()) {
        (Some(first), Some(last)) => {
            let ends = usize::from(*first) + usize::from(*last);
            (text.len() % BUCKETS + 2 * ends) % BUCKETS
        }
        _ => 0,
    }
}
