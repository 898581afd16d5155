//! The index of lines by their keys: it finds the lines that a path may match. Few lines have no tables: each one is tried.

ghost use Rattle.std.specs.Prelude.{◌≡◌, ◌++◌, [], ℕ, List, IfOk, IfSome, OnOk, map, false, true, slice_get};
ghost use Rattle.attr_keys.specs.inner.Kinds.{AreKindRows};
ghost use Rattle.attr_keys.specs.inner.Orders.{AreSorted};
ghost use Rattle.attr_keys.specs.shared.KeyContents.{KeyContent};
ghost use Rattle.attr_keys.specs.shared.KeyIndexes.{IsKeyIndex};
ghost use Rattle.attr_keys.specs.shared.Meeting.{content_met_at};
ghost use Rattle.attr_keys.specs.shared.Rows.{IsFalling, has_row};
ghost use Rattle.attr_keys.specs.shared.SortedLines.{SortsLines};

use crate::hashed::HashedRows;
use crate::key::{Keyed, Keys, Texts, View};
use crate::kinds::{KindRows, Kinds};
use crate::order::fall;
use crate::prefixes::Prefixes;
use std::alloc::{AllocError, Global};

/// Where lines are found by their keys. It has the indexes of lines, and no texts: each look-up is given the lines.
#[derive(Debug, Drop)]
pub struct KeyIndex {
    // None of few lines.
    exact: Option<Box<KeyRows>>,
    // The rows by the keys in lower case, if any has a capital letter.
    folded: Option<Box<KeyRows>>,
}

// The rows of lines by their keys: of most whole keys and extensions by their hashes, and the others in the order of their keys.
#[derive(Debug, Drop)]
struct KeyRows {
    hashed: HashedRows,
    names: Prefixes,
    ends: Prefixes,
    paths: Prefixes,
    // The lines that any path may match, the last first.
    others: Vec<usize>,
}

impl KeyIndex {
    /// The index of these lines, which were pushed to `kinds`, as they are.
    ///
    /// # Errors
    ///
    /// If memory runs out.
    pub fn of<K: Keyed>(alloc: Global, lines: &[K], kinds: Kinds) -> Result<KeyIndex, AllocError>
        requires { SortsLines (map K.content lines.now) kinds }
        ensures { IfOk result (IsKeyIndex (map K.content lines.now)) }
    {
        let Some(rows) = kinds.rows else {
            return Ok(KeyIndex {
                exact: None,
                folded: None,
            });
        };
        let folded = if rows.has_capitals {
            let rows = folded_rows(alloc, lines)?;
            Some(Box::new(alloc, KeyRows::of(alloc, lines, rows)?)?)
        } else {
            None
        };
        let exact = KeyRows::of(alloc, lines, Box::into_inner(rows))?;
        Ok(KeyIndex {
            exact: Some(Box::new(alloc, exact)?),
            folded,
        })
    }

    /// Finds the indexes of the lines whose keys the texts have, the greatest first. They replace the contents of `found`.
    /// `lines` are those of which the index was made. `buffer` is one for what is hashed of a text, in lower case.
    ///
    /// # Errors
    ///
    /// If memory runs out. The contents of `found` are not specified then.
    pub fn find<K: Keyed>(
        &self,
        lines: &[K],
        texts: Texts<'_>,
        buffer: &mut Vec<u8>,
        found: &mut Vec<usize>,
    ) -> Result<(), AllocError>
        requires { IsKeyIndex (map K.content lines.now) self.now }
        ensures found { OnOk result ((row : ℕ) → has_row found.new.items row
            ≡ content_met_at texts.entry.fold texts.entry.name.now texts.entry.path.now
            (slice_get (map K.content lines.now) row)) }
        ensures falling { OnOk result (IsFalling found.new.items) }
    {
        found.clear();
        match self.rows(texts.fold) {
            Some(rows) => rows.append(lines, texts, buffer, found)?,
            None => append_each(lines, texts, found)?,
        }
        fall(found);
        Ok(())
    }

    // The rows for a case. Those of the keys as they are serve for both if none has a capital letter.
    fn rows(&self, fold: bool) -> Option<&KeyRows>
        ensures { IfSome result (λ rows. (keys : List KeyContent) → IsKeyIndex keys self.now
            → AreSorted fold keys rows.now) }
    {
        match &self.folded {
            Some(rows) if fold => Some(rows),
            _ => match &self.exact {
                Some(rows) => Some(rows),
                None => None,
            },
        }
    }
}

// The rows of lines by the kinds of their keys, in lower case.
fn folded_rows<K: Keyed>(alloc: Global, lines: &[K]) -> Result<KindRows, AllocError>
    ensures kinds { IfOk result (AreKindRows (map K.content lines.now)) }
    ensures fold { IfOk result (λ rows. rows.fold ≡ true) }
{
    let mut rows = KindRows::new(alloc, lines.len(), true)?;
    for line in lines {
        rows.push(line)?;
    }
    Ok(rows)
}

impl KeyRows {
    fn of<K: Keyed>(alloc: Global, lines: &[K], kinds: KindRows) -> Result<KeyRows, AllocError>
        requires { AreKindRows (map K.content lines.now) kinds }
        ensures { IfOk result (AreSorted kinds.fold (map K.content lines.now)) }
    {
        let keys = keys_of(lines, kinds.fold, false);
        let ends = keys_of(lines, kinds.fold, true);
        let mut others = kinds.others;
        others.reverse();
        Ok(KeyRows {
            hashed: kinds.hashed,
            names: Prefixes::of(alloc, keys, kinds.names)?,
            ends: Prefixes::of(alloc, ends, kinds.ends)?,
            paths: Prefixes::of(alloc, keys, kinds.paths)?,
            others,
        })
    }

    // Appends the rows of the keys that the texts have.
    fn append<K: Keyed>(
        &self,
        lines: &[K],
        texts: Texts<'_>,
        buffer: &mut Vec<u8>,
        found: &mut Vec<usize>,
    ) -> Result<(), AllocError>
        requires sorted { AreSorted texts.fold (map K.content lines.now) self.now }
        requires empty { found.old.items ≡ [] }
        ensures { OnOk result ((row : ℕ) → has_row found.new.items row
            ≡ content_met_at texts.entry.fold texts.entry.name.now texts.entry.path.now
            (slice_get (map K.content lines.now) row)) }
    {
        let keys = keys_of(lines, texts.fold, false);
        let ends = keys_of(lines, texts.fold, true);
        self.hashed.append(lines, texts, buffer, found)?;
        self.names.append(keys, texts.name, found)?;
        self.ends.append(ends, texts.name, found)?;
        self.paths.append(keys, texts.path, found)?;
        append(&self.others, found)
    }
}

// Appends the rows of the keys that the texts have. Each line is tried, the last first.
#[inline(never)]
fn append_each<K: Keyed>(
    lines: &[K],
    texts: Texts<'_>,
    found: &mut Vec<usize>,
) -> Result<(), AllocError>
    requires { found.old.items ≡ [] }
    ensures { OnOk result ((row : ℕ) → has_row found.new.items row
        ≡ content_met_at texts.entry.fold texts.entry.name.now texts.entry.path.now
        (slice_get (map K.content lines.now) row)) }
{
    for row in (0..lines.len()).rev() {
        if texts.have(lines[row].key()) {
            found.push(row)?;
        }
    }
    Ok(())
}

// Lines, and how their keys are read.
fn keys_of<K>(lines: &[K], fold: bool, from_end: bool) -> Keys<'_, K>
    ensures lines { result.lines.now ≡ lines.now }
    ensures fold { result.view.fold ≡ fold }
    ensures from_end { result.view.from_end ≡ from_end }
{
    Keys {
        lines,
        view: View { fold, from_end },
    }
}

// Appends numbers to others.
fn append(rows: &[usize], found: &mut Vec<usize>) -> Result<(), AllocError>
    ensures { OnOk result (found.new.items ≡ found.old.items ++ rows.now) }
{
    if rows.is_empty() {
        return Ok(());
    }
    found.extend_from_slice(rows)
}
