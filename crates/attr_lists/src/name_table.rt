//! Numbers of attribute names, and the definitions of macros in the lists that are registered.
//!
//! A name's number is its index among all names in the order in which they are first seen, from 0. It never changes.
//! Each list is registered under a list id that no other registered list has. A definition belongs to a list, and is
//! removed with it.
ghost use Rattle.std.specs.Prelude.{◌≡◌, true, false, ◌<◌, ◌↔◌, length, All, Some, None, nat_lt, if◌then◌else◌, option_map, IfOk, OnOk, OnErr, IfSome, IsSome, IsTrue, slice_get, option_copied, take};
ghost use Rattle.attr_lists.specs.Definitions.{definitions_of, last_defined, macro_body, without_list, HoldsList, IsSoundCollection, RegistersAs};
ghost use Rattle.attr_lists.specs.shared.Reading.{AddsNames, IsReadWith, NumbersLines, with_first};
ghost use Rattle.attr_lists.specs.shared.Keeping.{StayRegistered, OthersStayRegistered, IsNumbered};
ghost use Rattle.attr_lists.specs.shared.MacroNumbers.{ListsMacros};
ghost use Rattle.std.specs.Iterator.{YieldsFirstBy, item_count};
ghost use Rattle.attr_lists.specs.NameViews.{named_body, names_from, named_view, names_left};
ghost use Rattle.attr_lists.specs.KeptLists.{macros_valid};
ghost use Rattle.attr_lists.specs.ListViews.{entries_view};
ghost use Rattle.attr_lists.specs.Collections.{empty_collection};
ghost use Rattle.attr_lists.specs.Numbers.{number_of};

mod entry;
mod macros;
pub(crate) mod name_set;
mod numbers;
mod registered;

use crate::name_table::entry::NameEntry;
use crate::name_table::name_set::NameSet;
use crate::name_table::registered::{ListMacros, has_lines, index_of};
use crate::parser::read_buffer;
use crate::types::{Dropped, Metadata, Value};
use attr_glob::search::pattern::Mapping;
use std::alloc::{AllocError, Global};
use std::collections::BTreeSet;
use std::marker::Model;
use std::rc::Rc;

/// Attribute names by number, and the definitions of macros, each under the list id of its list.
#[derive(Debug)]
pub struct NameTable {
    // The index of a name is its number.
    names: NameSet,
    // What the lists define, name by name. The index of a name's entry is its number.
    entries: Vec<NameEntry>,
    // The lists, in the order of their addition. Their list ids ascend.
    lists: Vec<ListMacros>,
    // The numbers of the names that have definitions.
    macros: BTreeSet<usize>,
}

// By hand, so that a proof drops it by one call.
impl Drop for NameTable {
    fn drop(self) {
        let NameTable {
            names: _,
            entries: _,
            lists: _,
            macros: _,
        } = self;
    }
}

impl Model for NameTable {
    ghost use Rattle.attr_lists.specs.Collections.{Collection};

    ghost Value = { Collection };

    ghost use Rattle.attr_lists.specs.inner.NameTableView.{name_table_view, IsNameTable};

    ghost view = { name_table_view };

    ghost invariant = { IsNameTable };
}

impl NameTable {
    /// A table without names and lists. It takes no memory.
    #[tactic(auto, using(crate::proofs::NameTableLaws::definitions_in))]
    pub fn new(alloc: Global) -> NameTable
        ensures empty { result ≡ empty_collection }
        ensures sound { IsSoundCollection result }
    {
        NameTable {
            names: NameSet::new(alloc),
            entries: Vec::new(alloc),
            lists: Vec::new(alloc),
            macros: BTreeSet::new(alloc),
        }
    }

    /// The count of names. The numbers of the names are those below it.
    pub fn len(&self) -> usize
        ensures count { result ≡ length self.now.names }
        ensures sound { IsSoundCollection self.now }
    {
        self.names.len()
    }

    /// The number of a name, if the table has it.
    pub fn number_of(&self, name: &str) -> Option<usize>
        ensures { result ≡ number_of self.now.names name.now }
    {
        self.names.number_of(name)
    }

    /// The name with this number, if there is one.
    pub fn name(&self, number: usize) -> Option<&str>
        ensures { option_copied result ≡ slice_get self.now.names number }
    {
        self.names.name(number)
    }

    /// The metadata of the name with this number: the number, and the body of its last definition, which is empty if
    /// it is no macro. None if there is no such name.
    pub fn metadata(&self, number: usize) -> Option<&Metadata>
        ensures variant { IsSome result ↔ (number < length self.now.names) }
        ensures id { IfSome result (λ metadata. metadata.now.id.0 ≡ number) }
        ensures body { IfSome result (λ m. m.now.macro_attributes.items
            ≡ macro_body self.now number) }
    {
        let entry = self.entries.get(number)?;
        Some(entry.metadata())
    }

    /// The last definition of the name with this number, which is shared with the list that has it. None if there is none.
    pub fn definition(&self, number: usize) -> Option<&Rc<Metadata>>
        ensures id { IfSome result (λ known. known.now.value.id.0 ≡ number) }
        ensures body { option_map (λ known. known.now.value.macro_attributes.items) result
            ≡ last_defined (definitions_of self.now number) }
    {
        let entry = self.entries.get(number)?;
        entry.definition()
    }

    /// The numbers of the names that have definitions. The other names are no macros.
    pub fn macros(&self) -> &BTreeSet<usize>
        ensures { ListsMacros result.now self.now }
    {
        &self.macros
    }

    /// The names with their metadata, by number.
    pub fn iter(&self) -> Names<'_>
        ensures { names_left result ≡ names_from self.now 0 }
    {
        Names {
            table: self,
            number: 0,
        }
    }

    fn named(&self, number: usize) -> Option<(&str, &Metadata)>
        ensures { option_map named_view result
            ≡ (if nat_lt number (length self.now.names)
            then Some (named_body self.now number) else None) }
    {
        let name = self.names.name(number)?;
        let entry = self.entries.get(number)?;
        Some((name, entry.metadata()))
    }

    /// Reads a buffer as the lines of a list, and returns them with the dropped lines. Lines that define a macro are left out unless
    /// macros are allowed. The lines have the numbers of their names, and new names get the next numbers. A line that is dropped or
    /// left out numbers none.
    ///
    /// # Errors
    ///
    /// If memory runs out. The table is then as it was.
    pub fn read(
        &mut self,
        alloc: Global,
        bytes: &[u8],
        allow_macros: bool,
    ) -> Result<(Vec<Mapping<Value>>, Vec<Dropped>), AllocError>
        ensures read { IfOk result (λ r. IsReadWith
            allow_macros bytes.now self.old.names self.new.names r.0.items r.1.items) }
        ensures names { AddsNames result self.old self.new }
    {
        let count = self.names.len();
        let read = read_buffer(alloc, &mut self.names, bytes, allow_macros);
        let extended = entry::extend(alloc, &mut self.entries, self.names.len());
        if read.is_err() || extended.is_err() {
            keep_first(&mut self.names, &mut self.entries, count);
            return Err(AllocError);
        }
        read
    }

    /// Numbers the lines of a list that defines no macro of a bad name: its items and macros get the numbers of their names, and new
    /// names get the next numbers.
    ///
    /// # Errors
    ///
    /// If memory runs out. The table is then as it was, and some lines may have been numbered.
    pub fn number(
        &mut self,
        alloc: Global,
        mappings: &mut [Mapping<Value>],
    ) -> Result<(), AllocError>
        requires { macros_valid (entries_view mappings.old) ≡ true }
        ensures numbered { OnOk result (NumbersLines (entries_view mappings.old)
            self.old.names self.new.names (entries_view mappings.new)) }
        ensures names { AddsNames result self.old self.new }
    {
        let count = self.names.len();
        let numbered = numbers::number_list(alloc, &mut self.names, mappings);
        let extended = entry::extend(alloc, &mut self.entries, self.names.len());
        if numbered.is_err() || extended.is_err() {
            keep_first(&mut self.names, &mut self.entries, count);
            return Err(AllocError);
        }
        numbered
    }

    /// Removes the names whose numbers are `count` or greater, which no registered list has. It takes no memory.
    pub fn take_back(&mut self, count: usize)
        requires { IsSoundCollection (with_first count self.old) }
        ensures { self.new ≡ with_first count self.old }
    {
        keep_first(&mut self.names, &mut self.entries, count);
    }

    /// Registers a list whose lines have the numbers of their names, and returns its list id, which no registered list has. Its
    /// definitions come after those of the other lists.
    ///
    /// # Errors
    ///
    /// If memory runs out. The table is then as it was.
    pub fn register(
        &mut self,
        alloc: Global,
        mappings: &[Mapping<Value>],
    ) -> Result<usize, AllocError>
        requires numbered { All (IsNumbered self.old.names) (entries_view mappings.now) }
        ensures registered { IfOk result (λ list_id.
            RegistersAs list_id (entries_view mappings.now) self.old self.new) }
        ensures holds { IfOk result
            (λ list_id. HoldsList self.new list_id (entries_view mappings.now)) }
        ensures others { OnOk result (StayRegistered self.old self.new) }
        ensures sound { IsSoundCollection self.new }
        ensures err { OnErr result (self.new ≡ self.old) }
    {
        let Some(list_id) = registered::next_id(&self.lists) else {
            return Err(AllocError);
        };
        let macros = numbers::macros_of(alloc, mappings)?;
        self.lists.reserve(1)?;
        macros::insert_macros(&mut self.macros, &macros)?;
        if entry::define_list(&mut self.entries, list_id, &macros).is_err() {
            entry::take_back(&mut self.entries, list_id);
            return Err(AllocError);
        }
        self.lists.push_reserved(ListMacros { list_id, macros });
        Ok(list_id)
    }

    /// Removes the list with this list id, if there is one, and its definitions. Each name then has the body of the last
    /// definition that is left, and keeps its number. It takes no memory. The list is found by halving, and so are its
    /// definitions of each macro, of which those of later lists are moved. Other names are not looked at.
    pub fn remove(&mut self, list_id: usize)
        ensures removed { self.new ≡ without_list list_id self.old }
        ensures others { OthersStayRegistered list_id self.old self.new }
        ensures sound { IsSoundCollection self.new }
    {
        if let Some(at) = index_of(&self.lists, list_id) {
            let list = self.lists.remove(at);
            entry::remove_list(&mut self.entries, list_id, &list.macros);
            macros::remove_macros(&self.entries, &mut self.macros, &list.macros);
        }
    }

    /// Whether the list is registered under the list id: for each name, the definitions under the list id are, in their order,
    /// those of the list. It takes no memory. It takes a step for each line. A list that isn't as registered takes more: for each
    /// line of it or of the registered list that defines a macro, a step for each line of both. Other names are not looked at.
    pub fn holds(&self, list_id: usize, mappings: &[Mapping<Value>]) -> bool
        ensures { IsTrue result ↔ HoldsList self.now list_id (entries_view mappings.now) }
    {
        match index_of(&self.lists, list_id) {
            Some(at) => has_lines(&self.names, &self.lists[at].macros, mappings),
            None => false,
        }
    }

    /// A copy, with the lists that are registered.
    ///
    /// # Errors
    ///
    /// If memory runs out.
    pub fn clone(&self, alloc: Global) -> Result<NameTable, AllocError>
        ensures content { IfOk result (λ copy. copy ≡ self.now) }
        ensures sound { IsSoundCollection self.now }
    {
        Ok(NameTable {
            names: self.names.clone(alloc)?,
            entries: entry::clone_entries(alloc, &self.entries)?,
            lists: self.lists.clone()?,
            macros: self.macros.clone()?,
        })
    }
}

// Removes the names whose numbers are `count` or greater, and their entries.
fn keep_first(names: &mut NameSet, entries: &mut Vec<NameEntry>, count: usize)
    ensures names { names.new ≡ take count names.old }
    ensures entries { entries.new.items ≡ take count entries.old.items }
{
    names.truncate(count);
    entries.truncate(count);
}

/// An iterator over names and their metadata, by number.
#[derive(Drop)]
pub struct Names<'a> {
    table: &'a NameTable,
    number: usize,
}

impl<'a> Iterator for Names<'a> {
    type Item = (&'a str, &'a Metadata);

    ghost next_gives = { YieldsFirstBy named_view names_left };

    ghost remaining = { item_count names_left };

    fn next(&mut self) -> Option<(&'a str, &'a Metadata)> {
        if self.number >= self.table.len() {
            return None;
        }
        let named = self.table.named(self.number)?;
        self.number += 1;
        Some(named)
    }
}
