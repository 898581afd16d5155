//! The collection of attributes: their names by number, and the definitions of macros of the registered lists.

ghost use Rattle.std.specs.Prelude.{◌≡◌, ◌↔◌, ◌<◌, ℕ, [], length, true, All, IfOk, OnOk, OnErr, IsTrue, slice_get, option_copied};
ghost use Rattle.attr_lists.specs.Collections.{empty_collection};
ghost use Rattle.attr_lists.specs.Numbers.{AppendsNames, number_of, numbered_lines};
ghost use Rattle.attr_lists.specs.Definitions.{IsSoundCollection, RegistersAs, macro_body, without_list};
ghost use Rattle.attr_lists.specs.KeptLists.{macros_valid};
ghost use Rattle.attr_lists.specs.shared.Reading.{AddsNames, IsReadWith, with_first};
ghost use Rattle.attr_lists.specs.ListViews.{entries_view};
ghost use Rattle.attr_lists.specs.NameViews.{names_from, names_left};
ghost use Rattle.gix_attributes.specs.SearchViews.{Holds};
ghost use Rattle.attr_search.specs.shared.ReadLines.{AreRead};
ghost use Rattle.attr_search.specs.shared.Slotted.{defined_items};
ghost use Rattle.attr_search.specs.ListView.{list_view};
ghost use Rattle.attr_search.specs.Settings.{LinesAreNamed};
ghost use Rattle.gix_attributes.specs.Keeping.{KeepsSearches, RegistersLast};
ghost use Rattle.gix_attributes.specs.Registers.{RegistersExactly};
ghost use Rattle.gix_attributes.specs.inner.HeldLists.{AreHeldLists};
ghost use Rattle.attr_lists.specs.shared.Keeping.{IsNumbered, OthersStayRegistered};
ghost use Rattle.attr_lists.specs.shared.MacroNumbers.{ListsMacros};
ghost use Rattle.gix_attributes.specs.inner.Registering.{Registers};

use crate::Search;
use attr_glob::search::pattern::{List, Mapping};
use attr_lists::name_table::{NameTable, Names};
use attr_lists::parser::macros_valid;
use attr_lists::types::{Assignments, AttributeId, Attributes, Dropped, Metadata, Value};
use attr_search::indexed_list::IndexedList;
use attr_search::indexed_lists::IndexedLists;
use std::alloc::{AllocError, Global};
use std::collections::BTreeSet;
use std::marker::Model;
use std::mem;
use std::rc::Rc;

/// The attributes of the lists of searches: each name with its number, and the definitions of macros.
///
/// A name gets the next number when it is first seen, and keeps it for good. The definitions of a list are active as
/// long as the list is registered, and the body of a macro is that of its last active definition (gitattributes page: a
/// later definition replaces an earlier one). Each list is registered under a list id of its own. Lists that a search reads
/// share their names with the collection, and their values with those that were read of late, of which it has up to 64.
#[derive(Debug, Drop)]
pub struct MetadataCollection {
    numbering: NameTable,
}

impl Model for MetadataCollection {
    ghost use Rattle.attr_lists.specs.Collections.{Collection};

    ghost Value = { Collection };

    ghost view = { λ c. c.numbering };

    ghost use Rattle.attr_lists.specs.Definitions.{IsSoundCollection};

    ghost invariant = { λ c. IsSoundCollection c.numbering };
}

impl MetadataCollection {
    /// A collection without attributes. It takes no memory.
    pub fn new(alloc: Global) -> MetadataCollection
        ensures empty { result ≡ empty_collection }
        ensures registered { RegistersExactly result [] }
        ensures sound { IsSoundCollection result }
    {
        MetadataCollection {
            numbering: NameTable::new(alloc),
        }
    }

    /// How many names there are. Their numbers are those below.
    pub fn len(&self) -> usize
        ensures count { result ≡ length self.now.names }
        ensures sound { IsSoundCollection self.now }
    {
        self.numbering.len()
    }

    // The number of a name, if the collection has it.
    pub(crate) fn number_of(&self, name: &str) -> Option<usize>
        ensures { result ≡ number_of self.now.names name.now }
    {
        self.numbering.number_of(name)
    }

    // The body of the name with this number: empty if it is no macro.
    pub(crate) fn body(&self, number: usize) -> &Assignments
        requires { number < length self.now.names }
        ensures { result.now.items ≡ macro_body self.now number }
    {
        match self.numbering.metadata(number) {
            Some(metadata) => &metadata.macro_attributes,
            None => unreachable!(),
        }
    }

    // The last definition of the name with this number, shared once more. None if there is none.
    pub(crate) fn share_definition(&self, number: usize) -> Result<Option<Rc<Metadata>>, AllocError>
        ensures { IfOk result (λ known. defined_items known ≡ macro_body self.now number) }
    {
        match self.numbering.definition(number) {
            Some(known) => Ok(Some(known.clone()?)),
            None => Ok(None),
        }
    }

    // The numbers of the names that have definitions. The other names are no macros.
    pub(crate) fn macros(&self) -> &BTreeSet<usize>
        ensures { ListsMacros result.now self.now }
    {
        self.numbering.macros()
    }

    /// Registers a list that no search has, under a list id that no registered list has: its names and items are
    /// numbered, and its definitions of macros stay active for good. Each macro of the list has to have a valid name,
    /// as [`MetadataCollection::macros_valid`] tests it.
    ///
    /// # Errors
    ///
    /// If memory runs out. The collection and the list's numbers are unchanged then.
    pub fn update_from_list(
        &mut self,
        alloc: Global,
        list: &mut List<Attributes>,
    ) -> Result<(), AllocError>
        requires { macros_valid (entries_view list.old.patterns.items) ≡ true }
        ensures numbered { OnOk result (entries_view list.new.patterns.items
            ≡ numbered_lines self.new.names (entries_view list.old.patterns.items)) }
        ensures registered { OnOk result ((list_id : ℕ)
            × RegistersAs list_id (entries_view list.old.patterns.items) self.old self.new
            × RegistersLast self.old (record { list_id = list_id; list = list_view list.new })
            self.new) }
        ensures held { OnOk result (KeepsSearches self.old self.new) }
        ensures named { OnOk result
            (LinesAreNamed self.new.names (entries_view list.new.patterns.items)) }
        ensures names { OnOk result (AppendsNames self.old.names self.new.names) }
        ensures sound { IsSoundCollection self.new }
        ensures refused { OnErr result (self.new ≡ self.old) }
        ensures unchanged { OnErr result
            (entries_view list.new.patterns.items ≡ entries_view list.old.patterns.items) }
        ensures source { list.new.source ≡ list.old.source }
        ensures base { list.new.base ≡ list.old.base }
    {
        let count = self.len();
        let mut numbered = list.clone(alloc)?;
        self.numbering.number(alloc, &mut numbered.patterns)?;
        if let Err(error) = self.numbering.register(alloc, &numbered.patterns) {
            self.numbering.take_back(count);
            return Err(error);
        }
        mem::swap(&mut list.patterns, &mut numbered.patterns);
        Ok(())
    }

    /// The names by number, each with its [`Metadata`](crate::search::Metadata).
    pub fn iter(&self) -> Names<'_>
        ensures names { names_left result ≡ names_from self.now 0 }
        ensures sound { IsSoundCollection self.now }
    {
        self.numbering.iter()
    }

    // Reads a buffer as the lines of a list, with the numbers of their names, and returns them with the dropped lines. Lines that
    // define a macro are left out unless macros are allowed.
    pub(crate) fn read_lines(
        &mut self,
        alloc: Global,
        bytes: &[u8],
        allow_macros: bool,
    ) -> Result<(Vec<Mapping<Value>>, Vec<Dropped>), AllocError>
        ensures read { IfOk result (λ r. IsReadWith
            allow_macros bytes.now self.old.names self.new.names r.0.items r.1.items) }
        ensures names { AddsNames result self.old self.new }
        ensures sound { IsSoundCollection self.old }
    {
        self.numbering.read(alloc, bytes, allow_macros)
    }

    // Registers a list whose lines have the numbers of their names, under a list id that no registered list has, until it is
    // removed. If memory runs out, the names whose numbers are `count` or greater are removed.
    pub(crate) fn register(
        &mut self,
        alloc: Global,
        list: List<Attributes>,
        count: usize,
    ) -> Result<IndexedList, AllocError>
        requires numbered { All (IsNumbered self.old.names) (entries_view list.patterns.items) }
        requires read { AreRead (entries_view list.patterns.items) }
        requires first { IsSoundCollection (with_first count self.old) }
        ensures registered { IfOk result (Registers self.old self.new list) }
        ensures refused { OnErr result (self.new ≡ with_first count self.old) }
    {
        match IndexedList::register(alloc, list, &mut self.numbering) {
            Ok(indexed) => Ok(indexed),
            Err(error) => {
                self.numbering.take_back(count);
                Err(error)
            }
        }
    }

    // Removes the list that is registered under the list id, if there is one, with its definitions.
    pub(crate) fn remove(&mut self, list_id: usize)
        ensures removed { self.new ≡ without_list list_id self.old }
        ensures others { OthersStayRegistered list_id self.old self.new }
        ensures sound { IsSoundCollection self.new }
    {
        self.numbering.remove(list_id);
    }

    /// The name with this number, such as that of the macro that [`MatchKind`](crate::search::MatchKind) reports, or none if
    /// no name has the number.
    pub fn name_of(&self, id: AttributeId) -> Option<&str>
        ensures name { option_copied result ≡ slice_get self.now.names id.0 }
        ensures sound { IsSoundCollection self.now }
    {
        self.numbering.name(id.0)
    }

    /// Whether each macro of the list has a valid name, as [`MetadataCollection::update_from_list`] requires.
    pub fn macros_valid(list: &List<Attributes>) -> bool
        ensures { result ≡ macros_valid (entries_view list.now.patterns.items) }
    {
        macros_valid(&list.patterns)
    }

    /// Whether the lists of the search are registered in this collection, under different list ids: for each name, the
    /// definitions under a list's id are those of its lines. [`Search::pop_pattern_list`] requires this. It takes no
    /// memory.
    pub fn holds(&self, search: &Search) -> bool
        ensures held { IsTrue result ↔ Holds self.now search.now }
        ensures sound { IsSoundCollection self.now }
    {
        are_held(&self.numbering, search.lists())
    }

    /// A copy, in which the same lists are registered. Later changes of one don't change the other.
    ///
    /// # Errors
    ///
    /// If memory runs out.
    pub fn clone(&self, alloc: Global) -> Result<MetadataCollection, AllocError>
        ensures content { IfOk result (λ copy. copy ≡ self.now) }
        ensures sound { IsSoundCollection self.now }
    {
        Ok(MetadataCollection {
            numbering: self.numbering.clone(alloc)?,
        })
    }
}

// Whether the lists are registered under different list ids, each with its definitions.
fn are_held(numbering: &NameTable, lists: &IndexedLists) -> bool
    ensures { IsTrue result ↔ AreHeldLists numbering.now lists.now.lists.items }
{
    lists.are_ids_distinct()
        && lists
            .lists
            .iter()
            .all(|s| numbering.holds(s.list_id, &s.list.patterns))
}
