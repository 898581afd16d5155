//! Lines by the kinds of their keys.

ghost use Rattle.std.specs.Prelude.{◌≡◌, ◌↔◌, ◌<◌, [], ◌∷◌, ◌++◌, IfOk, List, OnOk, is_some, length, true};
ghost use Rattle.std.specs.Bool.{OnFalse};
ghost use Rattle.attr_keys.specs.declared.key.Subject.{Subject};
ghost use Rattle.attr_keys.specs.inner.Cases.{in_case};
ghost use Rattle.attr_keys.specs.inner.Kinds.{AreKindRows, kind_rows, rows_with};
ghost use Rattle.attr_keys.specs.shared.KeyContents.{KeyContent};
ghost use Rattle.attr_keys.specs.shared.SortedLines.{SortsLines};

use crate::hashed::HashedRows;
use crate::key::{Keyed, Subject};
use std::alloc::{AllocError, Global};

// So few lines are tried one by one: to make tables of them costs more than some hundred look-ups save.
const FEW: usize = 8;

/// The rows of lines, which are their indexes, by the kinds of their keys. The lines are pushed one by one.
#[derive(Drop)]
pub struct Kinds {
    /// None of few lines: these are tried one by one.
    pub rows: Option<Box<KindRows>>,
}

/// The rows of many lines.
#[derive(Drop)]
pub struct KindRows {
    /// Whether the keys are taken in lower case.
    pub fold: bool,
    /// Whether a key has a capital letter.
    pub has_capitals: bool,
    /// Those that are found by the hashes of their keys.
    pub hashed: HashedRows,
    /// Others that base names begin with.
    pub names: Vec<usize>,
    /// Others that base names end with.
    pub ends: Vec<usize>,
    /// Others that paths begin with.
    pub paths: Vec<usize>,
    /// Those that any path may match.
    pub others: Vec<usize>,
    // For keys in lower case.
    buffer: Vec<u8>,
}

impl Kinds {
    /// No lines yet, of so many.
    ///
    /// # Errors
    ///
    /// If memory runs out. Few lines take none.
    pub fn new(alloc: Global, count: usize) -> Result<Kinds, AllocError>
        ensures sorted { IfOk result (SortsLines []) }
        ensures many { IfOk result (λ kinds. is_some kinds.rows ≡ true ↔ 8 < count) }
    {
        if count <= FEW {
            return Ok(Kinds { rows: None });
        }
        let rows = Box::new(alloc, KindRows::new(alloc, count, false)?)?;
        Ok(Kinds { rows: Some(rows) })
    }

    /// Adds the line after the last one.
    ///
    /// # Errors
    ///
    /// If memory runs out.
    pub fn push<K: Keyed>(&mut self, line: &K) -> Result<(), AllocError>
        ensures sorted { OnOk result ((keys : List KeyContent) →
            SortsLines keys self.old → SortsLines (keys ++ K.content line.now ∷ []) self.new) }
        ensures many { OnOk result (is_some self.new.rows ≡ is_some self.old.rows) }
    {
        match &mut self.rows {
            Some(rows) => rows.push(line),
            None => Ok(()),
        }
    }
}

impl KindRows {
    /// No lines yet, of so many. Their keys are taken in lower case if `fold` is set.
    ///
    /// # Errors
    ///
    /// If memory runs out.
    pub fn new(alloc: Global, count: usize, fold: bool) -> Result<KindRows, AllocError>
        ensures kinds { IfOk result (AreKindRows []) }
        ensures fold { IfOk result (λ rows. rows.fold ≡ fold) }
        ensures buckets { IfOk result (λ rows. length rows.hashed.heads.items ≡ count) }
    {
        Ok(KindRows {
            fold,
            has_capitals: false,
            hashed: HashedRows::new(alloc, count)?,
            names: Vec::new(alloc),
            ends: Vec::new(alloc),
            paths: Vec::new(alloc),
            others: Vec::new(alloc),
            buffer: Vec::new(alloc),
        })
    }

    /// Adds the line after the last one.
    ///
    /// # Errors
    ///
    /// If memory runs out.
    pub fn push<K: Keyed>(&mut self, line: &K) -> Result<(), AllocError>
        ensures kinds { OnOk result ((keys : List KeyContent) →
            AreKindRows keys self.old → AreKindRows (keys ++ K.content line.now ∷ []) self.new) }
        ensures fold { OnOk result (self.new.fold ≡ self.old.fold) }
    {
        let row = self.hashed.links.len();
        let key = line.key();
        self.has_capitals = self.has_capitals || has_capital(key.text);
        if !self.hashed.push(key, self.fold, &mut self.buffer)? {
            self.add(key.subject, row)?;
        }
        Ok(())
    }

    // Appends a row whose key is of this subject to those that are not found by their hashes.
    fn add(&mut self, subject: Subject, row: usize) -> Result<(), AllocError>
        ensures rows { OnOk result ((s : Subject) →
            kind_rows s self.new ≡ rows_with subject row s (kind_rows s self.old)) }
        ensures fold { OnOk result (self.new.fold ≡ self.old.fold) }
        ensures capitals { OnOk result (self.new.has_capitals ≡ self.old.has_capitals) }
        ensures hashed { OnOk result (self.new.hashed ≡ self.old.hashed) }
    {
        match subject {
            Subject::Name => self.names.push(row)?,
            Subject::End => self.ends.push(row)?,
            Subject::Path => self.paths.push(row)?,
            Subject::Anything => self.others.push(row)?,
            Subject::Nothing => {}
        }
        Ok(())
    }
}

fn has_capital(text: &[u8]) -> bool
    ensures { OnFalse result (in_case true text.now ≡ text.now) }
{
    for byte in text {
        if byte.is_ascii_uppercase() {
            return true;
        }
    }
    false
}
