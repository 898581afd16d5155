//! Steps of a table of names: lists are added and removed, and the numbers and bodies of names are reported.

use crate::fault::{Fault, expect_equal};
use crate::lines::{expect_copies, items_of};
use crate::row::Row;
use crate::scene::Stage;
use attr_glob::search::Pattern;
use attr_glob::search::pattern::Mapping;
use attr_lists::name_table::NameTable;
use attr_lists::types::{Attributes, TrackedAssignment, Value};
use std::alloc::{AllocError, Global};
use std::fmt::Write;
use std::mem;

/// A table, another one, and the lists that were added, each with its id.
#[derive(Drop)]
pub struct Numbering {
    table: Box<NameTable>,
    other: Box<NameTable>,
    added: Vec<(usize, Vec<Mapping<Value>>)>,
}

impl Numbering {
    /// A table without names.
    pub fn new(alloc: Global) -> Result<Box<Numbering>, AllocError> {
        let table = Box::new(alloc, NameTable::new(alloc))?;
        let other = Box::new(alloc, NameTable::new(alloc))?;
        let numbering = Numbering {
            table,
            other,
            added: Vec::new(alloc),
        };
        Ok(Box::new(alloc, numbering)?)
    }

    // The list is added to a copy, so that the table is as it was if memory runs out.
    fn add(&mut self, bytes: &[u8], out: &mut String) -> Result<(), Fault> {
        let alloc = *out.allocator();
        let (mut list, _) = Attributes.bytes_to_patterns(alloc, bytes, "")?;
        let mut table = Box::new(alloc, self.table.clone(alloc)?)?;
        table.number(alloc, &mut list)?;
        let list_id = table.register(alloc, &list)?;
        self.added.push((list_id, list))?;
        self.table = table;
        Ok(writeln!(out, "{list_id}")?)
    }

    fn remove(&mut self, index: usize, out: &mut String) -> Result<(), Fault> {
        let (list_id, list) = self.added.get(index).ok_or(Fault::NotARow)?;
        remove_if_held(&mut self.table, *list_id, list, out)
    }

    fn copy(&mut self, alloc: Global) -> Result<(), Fault> {
        self.other = Box::new(alloc, self.table.clone(alloc)?)?;
        mem::swap(&mut self.table, &mut self.other);
        Ok(())
    }

    // Whether the list of a file is held, with the numbers that the table has for its names.
    fn holds(&self, alloc: Global, list_id: usize, bytes: &[u8]) -> Result<bool, AllocError> {
        let mut copy = Box::new(alloc, self.table.clone(alloc)?)?;
        let (mut list, _) = Attributes.bytes_to_patterns(alloc, bytes, "")?;
        copy.number(alloc, &mut list)?;
        Ok(self.table.holds(list_id, &list))
    }

    fn last(&self) -> &[Mapping<Value>] {
        self.added.last().map_or(&[], |(_, list)| list.as_slice())
    }
}

impl Stage for Numbering {
    fn take(&mut self, step: &Row, out: &mut String) -> Result<(), Fault> {
        let alloc = *out.allocator();
        match step.text(0) {
            // `add | FILE` adds a list, and reports its id.
            "add" => self.add(step.bytes(1), out)?,
            // `remove | INDEX` removes the list that was added as this one, from 0, and reports whether it was there.
            "remove" => self.remove(step.number(1)?, out)?,
            // `remove_empty | ID` removes a list that defines nothing.
            "remove_empty" => remove_if_held(&mut self.table, step.number(1)?, &[], out)?,
            // Changes to a copy of the table, and back.
            "copy" => self.copy(alloc)?,
            "turn" => mem::swap(&mut self.table, &mut self.other),
            // `holds | ID | FILE`: whether the list of a file is held under an id.
            "holds" => {
                let is_held = self.holds(alloc, step.number(1)?, step.bytes(2))?;
                writeln!(out, "{is_held}")?;
            }
            // The numbers of the last list's items, line by line.
            "numbers" => push_list(self.last(), out)?,
            // The names, each with the numbers of its body.
            "names" => push_names(&self.table, out)?,
            // How many names there are.
            "len" => writeln!(out, "{}", self.table.len())?,
            // `name | NUMBER`
            "name" => writeln!(out, "{:?}", self.table.name(step.number(1)?))?,
            // `first | NAME`: the number of the first item in the body of a name.
            "first" => writeln!(out, "{:?}", first_number(&self.table, step.text(1)))?,
            "show" => writeln!(out, "{:?}", *self.table)?,
            // Copies of the last list's lines, with their numbers, and of the bodies have to be equal to them.
            "copies" => {
                expect_copies(alloc, self.last())?;
                expect_bodies_copied(alloc, &self.table)?;
                out.push_str("true\n")?;
            }
            _ => return Err(Fault::NotARow),
        }
        Ok(())
    }

    // The names with their bodies.
    fn push_state(&self, _step: &Row, out: &mut String) -> Result<(), AllocError> {
        push_names(&self.table, out)?;
        push_names(&self.other, out)
    }
}

fn remove_if_held(
    table: &mut NameTable,
    list_id: usize,
    list: &[Mapping<Value>],
    out: &mut String,
) -> Result<(), Fault> {
    let is_held = table.holds(list_id, list);
    if is_held {
        table.remove(list_id);
    }
    Ok(writeln!(out, "{is_held}")?)
}

fn expect_bodies_copied(alloc: Global, table: &NameTable) -> Result<(), Fault> {
    for (_, metadata) in table.iter() {
        expect_equal(&metadata.clone(alloc)?, metadata)?;
    }
    Ok(())
}

fn first_number(table: &NameTable, name: &str) -> Option<usize> {
    let metadata = table.metadata(table.number_of(name)?)?;
    let item = metadata.macro_attributes.first()?;
    Some(item.id.0)
}

fn push_names(table: &NameTable, out: &mut String) -> Result<(), AllocError> {
    for (name, metadata) in table.iter() {
        out.push_str(name)?;
        push_numbers(&metadata.macro_attributes, out)?;
    }
    out.push('\n')
}

fn push_list(list: &[Mapping<Value>], out: &mut String) -> Result<(), AllocError> {
    for mapping in list {
        push_numbers(items_of(&mapping.value), out)?;
    }
    out.push('\n')
}

fn push_numbers(items: &[TrackedAssignment], out: &mut String) -> Result<(), AllocError> {
    for item in items {
        write!(out, " {}", item.id.0)?;
    }
    out.push(';')
}
