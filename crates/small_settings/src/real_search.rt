//! The search of `gix_attributes`, and its answers in the words of the plain one.

use crate::lists::Lists;
use crate::parts::{COUNT, NAMES, PATH};
use crate::setting::Slots;
use anyhow::{Context, Result, ensure};
use attr_vectors::plain::{Answer, Item, Origin, State};
use bitflags::Flags;
use bstr::BStr;
use gix_attributes::glob::pattern::Case;
use gix_attributes::search::{AttributeId, Match, MatchKind, Outcome};
use gix_attributes::{Search, StateRef};
use std::alloc::{AllocError, Global};

/// The lists of one pair of bodies, and an outcome for what is looked for.
#[derive(Drop)]
pub struct RealSearch<'l> {
    alloc: Global,
    lists: &'l Lists,
    outcome: Outcome,
    // An outcome for all attributes, from which a slot is copied where nothing is looked for.
    complete: Outcome,
}

impl<'l> RealSearch<'l> {
    /// Outcomes over the collection of these lists, one of them for all attributes.
    ///
    /// # Errors
    ///
    /// If memory is refused.
    pub(crate) fn new(alloc: Global, lists: &'l Lists) -> Result<RealSearch<'l>, AllocError> {
        let mut complete = Outcome::new(alloc);
        complete.initialize(alloc, &lists.collection)?;
        Ok(RealSearch {
            alloc,
            lists,
            outcome: Outcome::new(alloc),
            complete,
        })
    }

    /// Selects the attributes with these names, which are looked for from here on.
    pub(crate) fn select(&mut self, names: &[&str]) -> Result<(), AllocError> {
        self.outcome
            .initialize_with_selection(self.alloc, &self.lists.collection, names)
    }

    /// Empties the slots, and fills one of them.
    pub(crate) fn begin(&mut self, start: Option<usize>) -> Result<()> {
        self.outcome.reset();
        let Some(attribute) = start else {
            return Ok(());
        };
        let search = self.lists.starts.get(attribute).context("no such start")?;
        if self.outcome.is_done() {
            self.complete.reset();
            search_into(self.alloc, search, &mut self.complete)?;
            return self.copy();
        }
        search_into(self.alloc, search, &mut self.outcome)?;
        Ok(())
    }

    // A search for nothing fills no slot, but a copy has those of the outcome that it is made from.
    fn copy(&mut self) -> Result<()> {
        let collection = &self.lists.collection;
        let is_ready = self.complete.is_initialized() && self.complete.is_current(collection);
        ensure!(is_ready, "the outcome for all attributes is not ready");
        self.complete
            .copy_into(self.alloc, collection, &mut self.outcome)?;
        Ok(())
    }

    /// Searches the lines of a file, and reports whether an attribute was found that is looked for.
    pub(crate) fn search(&mut self, file: usize) -> Result<bool> {
        let search = self.lists.files.get(file).context("no such file")?;
        search_into(self.alloc, search, &mut self.outcome)
    }

    /// How many items the last search took.
    pub(crate) fn taken(&self) -> u128 {
        self.outcome.taken()
    }

    /// Whether the slots have these answers, by number.
    pub(crate) fn has(&self, slots: &Slots) -> bool {
        slots.iter().enumerate().all(|(number, slot)| {
            let found = self.outcome.match_by_id(AttributeId(number));
            found.map(answer_of) == *slot
        })
    }
}

fn search_into(alloc: Global, search: &Search, outcome: &mut Outcome) -> Result<bool> {
    ensure!(
        outcome.is_initialized() && outcome.covers(search),
        "an outcome is not ready"
    );
    let (path, case, is_dir) = (BStr::from(PATH), Case::Sensitive, Some(false));
    Ok(search.pattern_matching_relative_path(alloc, path, case, is_dir, outcome)?)
}

fn answer_of(found: Match<'_>) -> Answer<'_> {
    Answer {
        origin: Origin {
            text: found.pattern.text.as_slice(),
            mode: found.pattern.mode.bits(),
            wildcard: found.pattern.first_wildcard_pos,
            source: found.location.source.map(|source| source.as_bytes()),
            line: found.location.sequence_number,
        },
        assignment: Item {
            attribute: number_of(found.assignment.name.as_str()),
            state: state_of(found.assignment.state),
        },
        is_macro: matches!(found.kind, MatchKind::Macro { .. }),
        cause: found.kind.source_id().map(|id| id.0),
    }
}

// A name that is none of the three has a number that no slot has.
fn number_of(name: &str) -> usize {
    let found = NAMES.iter().position(|known| *known == name);
    found.unwrap_or(COUNT)
}

fn state_of(state: StateRef<'_>) -> State<'_> {
    match state {
        StateRef::Set => State::Set,
        StateRef::Unset => State::Unset,
        StateRef::Value(value) => State::Value(value.as_bstr().as_bytes()),
        StateRef::Unspecified => State::Unspecified,
    }
}
