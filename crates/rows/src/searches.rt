//! Steps of searches: lists are added and removed, outcomes are initialised and searched, and what they have is reported.

use crate::engines::addition;
use bstr::BStr;
use gix_attributes::Search;
use gix_attributes::engine::Addition;
use gix_attributes::files::Memory;
use gix_attributes::glob::search::pattern::List;
use gix_attributes::search::{
    AttributeId, Attributes, Dropped, MatchKind, MetadataCollection, Outcome,
};
use list_rows::fault::{Fault, expect_equal};
use list_rows::row::Row;
use list_rows::scene::Stage;
use std::alloc::{AllocError, Global};
use std::fmt::Write;
use std::mem;

/// Two collections, two searches and two outcomes, of which steps use one each, and may change to the other. They are in boxes: a
/// proof drops a box by one call, and what is in none field by field, wherever it may be dropped.
#[derive(Drop)]
pub(crate) struct Scene {
    collection: Box<MetadataCollection>,
    other_collection: Box<MetadataCollection>,
    search: Box<Search>,
    other_search: Box<Search>,
    outcome: Box<Outcome>,
    other_outcome: Box<Outcome>,
}

impl Stage for Scene {
    fn take(&mut self, step: &Row, out: &mut String) -> Result<(), Fault> {
        let alloc = *out.allocator();
        match step.text(0) {
            // `add | SOURCE | FILE` adds the lines of a file.
            "add" => drop(self.add(alloc, addition(step, Some(""), true))?),
            // `add_without_macros | SOURCE | FILE` adds lines among which macros are not allowed.
            "add_without_macros" => drop(self.add(alloc, addition(step, Some(""), false))?),
            // `dropped | FILE` adds lines without a base, and reports those that are dropped.
            "dropped" => self.push_dropped(step, true, out)?,
            "dropped_without_macros" => self.push_dropped(step, false, out)?,
            // Changes to a search of the global lists, without files.
            "globals" => self.read_globals(alloc)?,
            // Removes the last list, and reports whether there was one.
            "pop" => self.pop(out)?,
            // `again | COUNT | FILE` adds and removes the list of a file so often.
            "again" => self.add_and_remove(alloc, step)?,
            // Removes the last list, and reports the names of a new collection with that list alone.
            "move" => self.push_moved(out)?,
            // Changes to clones of the collection and of the search.
            "clone_lists" => self.clone_lists(alloc)?,
            // Changes to the other collection, or to the other search over the same collection.
            "turn_collections" => mem::swap(&mut self.collection, &mut self.other_collection),
            "turn" => mem::swap(&mut self.search, &mut self.other_search),
            // Changes to a new collection, with new searches. The outcomes stay.
            "renew" => self.renew(alloc)?,
            _ => return self.take_of_outcomes(step, out),
        }
        Ok(())
    }

    // The lists, the names with the bodies of macros, and the answers. But a search leaves an outcome that is reset, and a
    // copy for names may have initialised the other outcome.
    fn push_state(&self, step: &Row, out: &mut String) -> Result<(), AllocError> {
        writeln!(out, "{:?}\n{:?}", *self.search, *self.other_search)?;
        push_known(&self.collection, out)?;
        if step.text(0) != "find" {
            push_answers(&self.outcome, out)?;
        }
        if step.text(0) != "copy_for" {
            push_answers(&self.other_outcome, out)?;
        }
        Ok(())
    }
}

impl Scene {
    /// Collections, searches and outcomes without lists.
    pub(crate) fn new(alloc: Global) -> Result<Box<Scene>, AllocError> {
        let scene = Scene {
            collection: Box::new(alloc, MetadataCollection::new(alloc))?,
            other_collection: Box::new(alloc, MetadataCollection::new(alloc))?,
            search: Box::new(alloc, Search::new(alloc))?,
            other_search: Box::new(alloc, Search::new(alloc))?,
            outcome: Box::new(alloc, Outcome::new(alloc))?,
            other_outcome: Box::new(alloc, Outcome::new(alloc))?,
        };
        Ok(Box::new(alloc, scene)?)
    }

    fn take_of_outcomes(&mut self, step: &Row, out: &mut String) -> Result<(), Fault> {
        let alloc = *out.allocator();
        match step.text(0) {
            // `select | NAME | ..` initialises the outcome for these names, and for all if there are none.
            "select" => {
                let (names, outcome) = (step.texts(alloc, 1)?, &mut self.outcome);
                outcome.initialize_with_selection(alloc, &self.collection, &names)?;
            }
            // Initialises the outcome again, for the same names.
            "begin" => self.outcome.initialize(alloc, &self.collection)?,
            "reset" => self.outcome.reset(),
            // Copies the answers to the other outcome, which `copy_for` initialises for its names, and changes to that.
            "copy_for" => {
                let (names, outcome) = (step.texts(alloc, 1)?, &mut self.other_outcome);
                outcome.initialize_with_selection(alloc, &self.collection, &names)?;
                self.copy(alloc)?;
            }
            "copy" => self.copy(alloc)?,
            "turn_outcomes" => mem::swap(&mut self.outcome, &mut self.other_outcome),
            // Changes to a clone of the outcome, and resets the outcome itself.
            "clone" => self.clone_outcome(alloc)?,
            // `find | PATH | CASE` searches for a path that is no directory, and reports whether a name was found.
            "find" => self.find(step, out)?,
            _ => return self.report(step, out),
        }
        Ok(())
    }

    fn report(&self, step: &Row, out: &mut String) -> Result<(), Fault> {
        match step.text(0) {
            // Whether the collection holds the search.
            "held" => writeln!(out, "{}", self.collection.holds(&self.search))?,
            // How the search compares with the other one.
            "compare" => writeln!(out, "{:?}", self.search.cmp(&self.other_search))?,
            // The names by number, each with its body.
            "names" => push_known(&self.collection, out)?,
            // `name | NUMBER`
            "name" => {
                let id = AttributeId(step.number(1)?);
                writeln!(out, "{:?}", self.collection.name_of(id))?;
            }
            // The number of lists.
            "lists" => writeln!(out, "{}", self.search.num_pattern_lists())?,
            // The outcome as `Debug` prints it.
            "show" => writeln!(out, "{:?}", *self.outcome)?,
            // Whether the outcome is done, and how many items were taken and patterns tested; `count | LEAST` reports no fewer.
            "count" => self.count(step, out)?,
            // Whether the outcome covers the search, and whether it is current.
            "fit" => self.fit(out)?,
            // Each match with its kind, the number of its macro and its line; `rows | INDEX` from that one on.
            "rows" => push_rows(&self.outcome, step.number_or_zero(1)?, out)?,
            // The source, the line and the pattern of the match of each selected name.
            "origins" => push_origins(&self.outcome, out)?,
            // Which of the first eight numbers have a match.
            "numbers" => push_answered(&self.outcome, out)?,
            _ => return Err(Fault::NotARow),
        }
        Ok(())
    }

    fn add(&mut self, alloc: Global, list: Addition<'_>) -> Result<Vec<Dropped>, AllocError> {
        let source = String::from_str(alloc, list.source)?;
        let (bytes, root, collection) = (list.buffer, list.root, &mut self.collection);
        let allow_macros = list.allow_macros;
        self.search
            .add_patterns_buffer(alloc, bytes, source, root, collection, allow_macros)
    }

    fn push_dropped(&mut self, step: &Row, macros: bool, out: &mut String) -> Result<(), Fault> {
        let list = Addition {
            allow_macros: macros,
            source: "s",
            root: None,
            buffer: step.bytes(1),
        };
        for dropped in self.add(*out.allocator(), list)?.iter() {
            writeln!(out, "{}:{:?}", dropped.line, dropped.reason)?;
        }
        Ok(())
    }

    fn read_globals(&mut self, alloc: Global) -> Result<(), Fault> {
        let (mut files, mut buf) = (Memory::new(alloc), Vec::new(alloc));
        let collection = &mut self.collection;
        // Only memory can be refused, as no file is read.
        let made = Search::new_globals_from(alloc, &mut files, &[], &mut buf, collection);
        let (search, _) = made.or(Err(Fault::OutOfMemory))?;
        *self.search = search;
        Ok(())
    }

    fn pop(&mut self, out: &mut String) -> Result<(), Fault> {
        let is_popped = self.removed()?.is_some();
        Ok(out.push_str(if is_popped { "removed\n" } else { "no list\n" })?)
    }

    fn removed(&mut self) -> Result<Option<List<Attributes>>, Fault> {
        if !self.collection.holds(&self.search) {
            return Err(Fault::NotARow);
        }
        Ok(self.search.pop_pattern_list(&mut self.collection))
    }

    fn add_and_remove(&mut self, alloc: Global, step: &Row) -> Result<(), Fault> {
        let list = Addition {
            source: ".gitattributes",
            ..addition(step, Some(""), true)
        };
        for _ in 0..step.number(1)? {
            drop(self.add(alloc, list)?);
            if self.removed()?.is_none() {
                return Err(Fault::Changed);
            }
        }
        Ok(())
    }

    // The collection gets its memory before the list is removed.
    fn push_moved(&mut self, out: &mut String) -> Result<(), Fault> {
        let alloc = *out.allocator();
        let mut collection = Box::new(alloc, MetadataCollection::new(alloc))?;
        match self.removed()? {
            Some(mut list) => push_numbered(&mut list, &mut collection, out),
            None => Err(Fault::NotARow),
        }
    }

    fn clone_lists(&mut self, alloc: Global) -> Result<(), Fault> {
        let collection = Box::new(alloc, self.collection.clone(alloc)?)?;
        let search = Box::new(alloc, self.search.clone(alloc)?)?;
        expect_equal(&*search, &*self.search)?;
        self.collection = collection;
        self.search = search;
        Ok(())
    }

    fn renew(&mut self, alloc: Global) -> Result<(), AllocError> {
        self.collection = Box::new(alloc, MetadataCollection::new(alloc))?;
        self.search = Box::new(alloc, Search::new(alloc))?;
        self.other_search = Box::new(alloc, Search::new(alloc))?;
        Ok(())
    }

    fn copy(&mut self, alloc: Global) -> Result<(), Fault> {
        if !self.outcome.is_initialized() || !self.outcome.is_current(&self.collection) {
            return Err(Fault::NotARow);
        }
        let copy = &mut self.other_outcome;
        self.outcome.copy_into(alloc, &self.collection, copy)?;
        mem::swap(&mut self.outcome, &mut self.other_outcome);
        Ok(())
    }

    fn clone_outcome(&mut self, alloc: Global) -> Result<(), AllocError> {
        self.other_outcome = Box::new(alloc, self.outcome.clone(alloc)?)?;
        self.outcome.reset();
        mem::swap(&mut self.outcome, &mut self.other_outcome);
        Ok(())
    }

    fn find(&mut self, step: &Row, out: &mut String) -> Result<(), Fault> {
        let (alloc, search, outcome) = (*out.allocator(), &self.search, &mut self.outcome);
        let (path, case, is_dir) = (BStr::new(step.bytes(1)), step.case(2)?, Some(false));
        if !outcome.is_initialized() || !outcome.covers(search) {
            return Err(Fault::NotARow);
        }
        match search.pattern_matching_relative_path(alloc, path, case, is_dir, outcome) {
            Ok(is_found) => Ok(writeln!(out, "{is_found}")?),
            Err(_) if self.is_reset() => Err(Fault::OutOfMemory),
            Err(_) => Err(Fault::Changed),
        }
    }

    fn is_reset(&self) -> bool {
        let outcome = &self.outcome;
        outcome.iter().next().is_none() && outcome.taken() == 0 && outcome.tested() == 0
    }

    fn count(&self, step: &Row, out: &mut String) -> Result<(), Fault> {
        if !self.outcome.is_initialized() {
            return Err(Fault::NotARow);
        }
        let (taken, least) = (self.outcome.taken(), step.number_or_zero(1)? as u128);
        let (is_done, tested) = (self.outcome.is_done(), self.outcome.tested().max(least));
        let state = if is_done { "done" } else { "open" };
        Ok(writeln!(out, "{state} {taken} {tested}")?)
    }

    fn fit(&self, out: &mut String) -> Result<(), AllocError> {
        let covers = self.outcome.covers(&self.search);
        let is_current = self.outcome.is_current(&self.collection);
        writeln!(out, "{covers} {is_current}")
    }
}

// `x=1 macro 0 2`: the assignment, the kind, the number of the macro that it comes from, and the line.
fn push_rows(outcome: &Outcome, first: usize, out: &mut String) -> Result<(), AllocError> {
    for found in outcome.iter().skip(first) {
        let is_macro = matches!(found.kind, MatchKind::Macro { .. });
        let kind = if is_macro { "macro" } else { "attribute" };
        write!(out, "{} {kind} ", found.assignment)?;
        match found.kind.source_id() {
            Some(id) => write!(out, "{}", id.0)?,
            None => out.push('-')?,
        }
        writeln!(out, " {}", found.location.sequence_number)?;
    }
    Ok(())
}

fn push_origins(outcome: &Outcome, out: &mut String) -> Result<(), AllocError> {
    for found in outcome.iter_selected() {
        let (source, line) = (found.location.source, found.location.sequence_number);
        let text = found.pattern.write_text(*out.allocator())?;
        writeln!(out, "{}:{line}:{}", source.unwrap_or("-"), BStr::new(&text))?;
    }
    Ok(())
}

fn push_answered(outcome: &Outcome, out: &mut String) -> Result<(), AllocError> {
    for number in 0..8 {
        if outcome.match_by_id(AttributeId(number)).is_some() {
            writeln!(out, "{number}")?;
        }
    }
    Ok(())
}

fn push_known(collection: &MetadataCollection, out: &mut String) -> Result<(), AllocError> {
    for (name, metadata) in collection.iter() {
        write!(out, "{name}:")?;
        for item in metadata.macro_attributes.iter() {
            write!(out, " {}", item.inner.as_ref())?;
        }
        out.push('\n')?;
    }
    Ok(())
}

// A call that finds no memory is made again. It leaves the list as it was, and the names, which are reported, too: there are none.
fn push_numbered(
    list: &mut List<Attributes>,
    collection: &mut MetadataCollection,
    out: &mut String,
) -> Result<(), Fault> {
    let alloc = *out.allocator();
    if !MetadataCollection::macros_valid(list) {
        return Err(Fault::NotARow);
    }
    let before = list.clone(alloc).or_else(|_| list.clone(alloc))?;
    if collection.update_from_list(alloc, list).is_err() {
        expect_equal(list, &before)?;
        push_known(collection, out)?;
        collection.update_from_list(alloc, list)?;
    }
    Ok(push_known(collection, out)?)
}

fn push_answers(outcome: &Outcome, out: &mut String) -> Result<(), AllocError> {
    writeln!(out, "{outcome:?} {} {}", outcome.taken(), outcome.tested())
}
