//! Names by number, and their numbers by name.

ghost use Rattle.std.specs.Prelude.{◌≡◌, [], ◌∷◌, ◌-◌, ◌<◌, length, take, slice_get, bytes_eq, None, Some, option_copied, IfOk, IfSome, IsTrue};
ghost use Rattle.std.specs.List.{IsDistinct};
ghost use Rattle.std.specs.Rc.{rc_str_bytes};
ghost use Rattle.attr_text.specs.Names.{is_valid_name};
ghost use Rattle.attr_lists.specs.Numbers.{number_of};
ghost use Rattle.attr_lists.specs.inner.EntryViews.{AreValid};
ghost use Rattle.attr_text.specs.TextViews.{state_view};
ghost use Rattle.attr_lists.specs.inner.NameSteps.{AppendsName, InsertsNames, NumbersItem};

use crate::known_values::KnownValues;
use crate::last_read::LastIndexes;
use crate::parse::{AttrError, check_attr, is_reserved};
use attr_text::{Name, State, StateRef};
use std::alloc::{AllocError, Global};
use std::collections::BTreeMap;
use std::fmt;
use std::marker::Model;
use std::rc::RcStr;

/// Names in the order of their numbers. They come from files that anyone may have written, so a name is found by the order of the
/// texts, in a time that grows with the logarithm of their count, whatever names there are. Most are found among those that were read
/// lately.
#[derive(Drop)]
pub(crate) struct NameSet {
    // The text of each name, by its number.
    texts: Vec<RcStr>,
    // The number of each name, by its text.
    numbers: BTreeMap<RcStr, usize>,
    // The numbers of names that were read lately. A name may be gone since.
    recent: LastIndexes,
    // The values that were read lately.
    values: KnownValues,
}

impl Model for NameSet {
    ghost use Rattle.std.specs.Prelude.{ℕ, List};

    ghost Value = { List (List ℕ) };

    ghost use Rattle.attr_lists.specs.inner.NameSets.{texts_of, IsNameSet};

    ghost view = { texts_of };

    ghost invariant = { IsNameSet };
}

impl NameSet {
    /// A set without names. It takes no memory.
    pub(crate) fn new(alloc: Global) -> NameSet
        ensures { result ≡ [] }
    {
        NameSet {
            texts: Vec::new(alloc),
            numbers: BTreeMap::new(alloc),
            recent: LastIndexes::new(),
            values: KnownValues::new(alloc),
        }
    }

    /// The count of names.
    pub(crate) fn len(&self) -> usize
        ensures count { result ≡ length self.now }
        ensures valid { AreValid self.now }
        ensures distinct { IsDistinct bytes_eq self.now }
    {
        self.texts.len()
    }

    /// The number of a name, which is its index.
    pub(super) fn number_of(&self, name: &str) -> Option<usize>
        ensures { result ≡ number_of self.now name.now }
    {
        self.numbers.get(name).copied()
    }

    /// The name with this number, if there is one.
    pub(super) fn name(&self, number: usize) -> Option<&str>
        ensures name { option_copied result ≡ slice_get self.now number }
        ensures distinct { IsDistinct bytes_eq self.now }
    {
        Some(self.texts.get(number)?.as_str())
    }

    /// The name with this number, which shares its text with the set.
    ///
    /// # Errors
    ///
    /// If there are `usize::MAX` copies of it.
    pub(crate) fn share(&self, number: usize) -> Result<Name, AllocError>
        requires { number < length self.now }
        ensures { IfOk result (λ name. slice_get self.now number ≡ Some name) }
    {
        Ok(Name::of(self.texts[number].clone()?))
    }

    // The number of a name that was read lately.
    fn recent(&self, name: &[u8]) -> Option<usize>
        ensures number { IfSome result (λ number. number_of self.now name.now ≡ Some number) }
        ensures valid { IfSome result (λ _. IsTrue (is_valid_name name.now)) }
    {
        let number = self.recent.get(name);
        let known = self.name(number)?;
        if known.as_bytes() == name {
            Some(number)
        } else {
            None
        }
    }

    /// The number of an item's name, which is inserted if it is new, or why no item has such a name.
    ///
    /// # Errors
    ///
    /// If memory runs out. The names are then as they were.
    pub(crate) fn number_item<'a>(
        &mut self,
        alloc: Global,
        name: &'a [u8],
    ) -> Result<Result<usize, AttrError<'a>>, AllocError>
        ensures { NumbersItem result name.now self.old self.new }
    {
        if let Some(number) = self.recent(name)
            && !is_reserved(name)
        {
            return Ok(Ok(number));
        }
        match check_attr(name) {
            Ok(name) => Ok(Ok(self.number(alloc, name.as_str())?)),
            Err(error) => Ok(Err(error)),
        }
    }

    /// The number of a name, which is inserted if it is new.
    ///
    /// # Errors
    ///
    /// If memory runs out. The names are then as they were.
    pub(crate) fn number(&mut self, alloc: Global, name: &str) -> Result<usize, AllocError>
        requires { IsTrue (is_valid_name name.now) }
        ensures inserted { InsertsNames result (name.now ∷ []) self.old self.new }
        ensures number { IfOk result (λ number. number_of self.new name.now ≡ Some number) }
    {
        if let Some(number) = self.recent(name.as_bytes()) {
            return Ok(number);
        }
        let number = match self.number_of(name) {
            Some(number) => number,
            None => self.push_new(alloc, name)?,
        };
        self.recent.set(name.as_bytes(), number);
        Ok(number)
    }

    /// The state of an item, whose value shares its bytes with one that was read lately if that is the same.
    ///
    /// # Errors
    ///
    /// If memory runs out, or if there are `usize::MAX` copies of the known value.
    pub(crate) fn state(&mut self, alloc: Global, state: StateRef<'_>) -> Result<State, AllocError>
        ensures state { IfOk result (λ own. own ≡ state_view state.entry) }
        ensures same { self.new ≡ self.old }
    {
        self.values.state(alloc, state)
    }

    // Appends a new name, and returns its number.
    fn push_new(&mut self, alloc: Global, name: &str) -> Result<usize, AllocError>
        requires new { number_of self.old name.now ≡ None }
        requires valid { IsTrue (is_valid_name name.now) }
        ensures appended { AppendsName result name.now self.old self.new }
        ensures number { IfOk result (λ number. number ≡ length self.old) }
    {
        let number = self.len();
        self.push(RcStr::from_str(alloc, name)?)?;
        Ok(number)
    }

    // Appends a new name, which gets the next number. If memory runs out, the names are as they were.
    fn push(&mut self, text: RcStr) -> Result<(), AllocError>
        requires new { number_of self.old (rc_str_bytes text) ≡ None }
        requires valid { IsTrue (is_valid_name (rc_str_bytes text)) }
        ensures { AppendsName result (rc_str_bytes text) self.old self.new }
    {
        let number = self.texts.len();
        self.texts.reserve(1)?;
        let own = text.clone()?;
        self.numbers.insert(text, number)?;
        self.texts.push_reserved(own);
        Ok(())
    }

    /// Removes the names whose numbers are `count` or greater. It takes no memory.
    pub(crate) fn truncate(&mut self, count: usize)
        ensures { self.new ≡ take count self.old }
    {
        while self.len() > count {
            self.pop();
        }
    }

    // Removes the last name.
    fn pop(&mut self)
        ensures { self.new ≡ take (length self.old - 1) self.old }
    {
        if let Some(text) = self.texts.pop() {
            self.numbers.remove(text.as_str());
        }
    }

    /// A copy of the names. What was read lately is not known in it.
    ///
    /// # Errors
    ///
    /// If memory runs out.
    pub(super) fn clone(&self, alloc: Global) -> Result<NameSet, AllocError>
        ensures { IfOk result (λ copy. copy ≡ self.now) }
    {
        Ok(NameSet {
            texts: self.texts.clone()?,
            numbers: self.numbers.clone()?,
            recent: LastIndexes::new(),
            values: KnownValues::new(alloc),
        })
    }
}

// What was read lately is no content.
impl fmt::Debug for NameSet {
    fn fmt<W: fmt::Write>(&self, f: &mut fmt::Formatter<W>) -> fmt::Result {
        f.debug_struct("NameSet")
            .field("texts", &self.texts)
            .field("numbers", &self.numbers)
            .finish()
    }
}
