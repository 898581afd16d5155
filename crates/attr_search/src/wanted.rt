//! Flags of numbers: which ones a search looks for, and which ones it needs.

ghost use Rattle.std.specs.Prelude.{◌≡◌, ◌<◌, ◌≤◌, ℕ, true, [], IfOk, OnErr, OnOk, length, replicate, set, slice_index_or, false, if◌then◌else◌};
ghost use Rattle.std.specs.BTreeSet.{contains};
ghost use Rattle.std.specs.Ordering.{nat_cmp};
ghost use Rattle.std.specs.Vec.{vec_capacity};
ghost use Rattle.attr_search.specs.shared.SlotContents.{count_wanted};

use std::alloc::{AllocError, Global};
use std::collections::BTreeSet;
use std::marker::Model;

/// For each number below a count whether it is wanted, and how many are. What it costs grows with those that were set one by one.
#[derive(Drop)]
pub struct WantedFlags {
    len: usize,
    // Whether all flags are set. If not, those of these numbers are.
    all: bool,
    numbers: BTreeSet<usize>,
    // How many flags are set.
    count: usize,
}

impl Model for WantedFlags {
    ghost use Rattle.std.specs.Prelude.{List, Bool};

    ghost Value = { List Bool };

    ghost use Rattle.attr_search.specs.inner.WantedView.{AreSoundFlags, wanted_flags_view};

    ghost view = { wanted_flags_view };

    ghost invariant = { AreSoundFlags };
}

impl WantedFlags {
    /// No flags. It takes no memory.
    pub fn new(alloc: Global) -> WantedFlags
        ensures { result ≡ [] }
    {
        WantedFlags::all_or_none(alloc, 0, false)
    }

    /// Flags for the numbers below a count, all of them set or none. It takes no memory.
    pub fn all_or_none(alloc: Global, len: usize, all: bool) -> WantedFlags
        ensures { result ≡ replicate len all }
    {
        WantedFlags {
            len,
            all,
            numbers: BTreeSet::new(alloc),
            count: if all { len } else { 0 },
        }
    }

    /// A copy.
    ///
    /// # Errors
    ///
    /// If memory runs out.
    pub fn clone(&self) -> Result<WantedFlags, AllocError>
        ensures { IfOk result (λ copy. copy ≡ self.now) }
    {
        Ok(WantedFlags {
            len: self.len,
            all: self.all,
            numbers: self.numbers.clone()?,
            count: self.count,
        })
    }

    /// How many flags there are.
    pub fn len(&self) -> usize
        ensures { result ≡ length self.now }
    {
        self.len
    }

    /// How many flags are set.
    pub fn count(&self) -> usize
        ensures { result ≡ count_wanted self.now }
    {
        self.count
    }

    /// Whether the flag of a number is set.
    pub fn has(&self, number: usize) -> bool
        requires { number < length self.now }
        ensures { result ≡ slice_index_or self.now number false }
    {
        self.all || self.numbers.contains(&number)
    }

    /// Sets the flag of a number.
    ///
    /// # Errors
    ///
    /// If memory runs out. Nothing changes then.
    pub fn set(&mut self, number: usize) -> Result<(), AllocError>
        requires { number < length self.old }
        ensures ok { OnOk result (self.new ≡ set self.old number true) }
        ensures refused { OnErr result (self.new ≡ self.old) }
    {
        if self.has(number) {
            return Ok(());
        }
        self.numbers.insert(number)?;
        self.count += 1;
        Ok(())
    }

    /// The flags, one for each number.
    ///
    /// # Errors
    ///
    /// If memory runs out.
    pub fn to_vec(&self, alloc: Global) -> Result<Vec<bool>, AllocError>
        ensures { IfOk result (λ flags. flags.items ≡ self.now) }
    {
        let mut flags = Vec::with_capacity(alloc, self.len())?;
        self.write(&mut flags, &WantedFlags::new(alloc));
        Ok(flags)
    }

    /// Writes the flags in place of those before, of which there may be fewer or more. It costs what is set in either, if not all
    /// are in one of them alone, and the numbers that are new.
    pub fn write(&self, flags: &mut Vec<bool>, before: &WantedFlags)
        requires before { flags.old.items ≡ before.now }
        requires room { length self.now ≤ vec_capacity flags.old }
        ensures { flags.new.items ≡ self.now }
    {
        // There is room.
        flags.resize(self.len, false).unwrap();
        let start = if self.all == before.all {
            before.len
        } else {
            0
        };
        for number in start..flags.len() {
            flags[number] = self.all;
        }
        if !self.all {
            set_each(flags, &before.numbers, false);
        }
        set_each(flags, &self.numbers, true);
    }
}

// Sets the flags of some numbers, of those that have one, to a value.
fn set_each(flags: &mut Vec<bool>, numbers: &BTreeSet<usize>, value: bool)
    ensures len { length flags.new.items ≡ length flags.old.items }
    ensures flags { (number : ℕ) → number < length flags.old.items →
        slice_index_or flags.new.items number false ≡ (if contains nat_cmp numbers.now number
        then value else slice_index_or flags.old.items number false) }
{
    for number in numbers.iter() {
        if *number < flags.len() {
            flags[*number] = value;
        }
    }
}
