//! What searches find.

ghost use Rattle.std.specs.Prelude.{◌≡◌, ⊤, ◌↔◌, ◌<◌, [], All, None, IfOk, IsTrue, MatchOption, OnErr, OnOk, true, drop, length, map, option_and_then, option_map, slice_get, slice_index_or};
ghost use Rattle.attr_glob.specs.Views.{pattern_view};
ghost use Rattle.attr_lists.specs.ListViews.{entry_view};
ghost use Rattle.gix_attributes.specs.Contents.{IsCurrent, IsNextFound, reset_content, found_in, initial_content, looked_up, names_selected, empty_content, selected_answer, selected_in};
ghost use Rattle.gix_attributes.specs.inner.Consistency.{nothing_wanted};
ghost use Rattle.gix_attributes.specs.Searching.{is_complete};
ghost use Rattle.gix_attributes.specs.inner.Needed.{AreNeeded, AreOwnersOf, IsNarrowed, flags_of};
ghost use Rattle.attr_search.specs.shared.Slotted.{BodiesHaveSlots};
ghost use Rattle.gix_attributes.specs.Covered.{AreCovered, IsCovered, ListsAreCovered};
ghost use Rattle.attr_search.specs.IndexedLists.{listed_view};
ghost use Rattle.gix_attributes.specs.SearchViews.{lists_in};
ghost use Rattle.attr_search.specs.Settings.{HaveSlots};
ghost use Rattle.attr_search.specs.Matches.{match_view};
ghost use Rattle.gix_attributes.specs.Selection.{selection_view};
ghost use Rattle.attr_search.specs.Matches.{no_pattern};

use crate::Search;
use crate::search::collection::MetadataCollection;
use crate::search::matches::{Matches, Selected, unspecified};
use crate::search::needed::Owners;
use crate::search::selected_name::SelectedName;
use crate::search::{AttributeId, Match, TrackedAssignment, Value, selection};
use attr_glob::Pattern;
use attr_glob::pattern::Mode;
use attr_glob::search::pattern::Mapping;
use attr_search::indexed_list::IndexedList;
use attr_search::search_state::SearchState;
use attr_search::wanted::WantedFlags;
use attr_text::AssignmentRef;
use bitflags::Flags;
use std::alloc::{AllocError, Global};
use std::collections::BTreeSet;
use std::fmt;
use std::marker::Model;

/// The answers that searches found: one for each attribute that a matching line assigns.
///
/// It has a slot for each number of a collection: the answer for the attribute with that number, if one was found. So
/// it is initialised with a collection, and has to be initialised again once that has other names or macros.
pub struct Outcome {
    // The answers, the body of each attribute, and the buffers of a search.
    pub(crate) state: SearchState,
    // The numbers of the macros: the other bodies are empty.
    macros: BTreeSet<usize>,
    // The owners of the bodies' items, from the first names that an engine selects until bodies change.
    owners: Option<Owners>,
    pub(crate) selected: Vec<SelectedName>,
    // The pattern of the answer for an unspecified attribute.
    no_pattern: Pattern,
    is_initialized: bool,
}

// By hand, so that a proof drops it by one call.
impl Drop for Outcome {
    fn drop(self) {
        let Outcome {
            state: _,
            macros: _,
            owners: _,
            selected: _,
            no_pattern: _,
            is_initialized: _,
        } = self;
    }
}

impl Model for Outcome {
    ghost use Rattle.gix_attributes.specs.Contents.{Content};

    ghost Value = { Content };

    ghost use Rattle.gix_attributes.specs.ContentView.{outcome_view};
    ghost use Rattle.gix_attributes.specs.inner.Consistency.{IsConsistent};

    ghost view = { outcome_view };

    ghost invariant = { IsConsistent };
}

impl Outcome {
    /// An outcome without slots, which is to be initialised. It takes no memory.
    pub fn new(alloc: Global) -> Outcome
        ensures { result ≡ empty_content }
    {
        Outcome {
            state: SearchState::new(alloc),
            macros: BTreeSet::new(alloc),
            owners: None,
            selected: Vec::new(alloc),
            no_pattern: no_pattern(alloc),
            is_initialized: false,
        }
    }

    /// Makes an empty slot for each name of a collection, and looks the selected names up again. It has to be called
    /// whenever the collection has other names or macros. Bodies are shared with the
    /// collection; the selection and the set of macros are made anew.
    ///
    /// # Errors
    ///
    /// If memory runs out. Nothing changes then.
    pub fn initialize(
        &mut self,
        alloc: Global,
        collection: &MetadataCollection,
    ) -> Result<(), AllocError>
        ensures ok { OnOk result (self.new
            ≡ initial_content collection.now (names_selected self.old.selection)) }
        ensures refused { OnErr result (self.new ≡ self.old) }
    {
        let selected = selection::look_up_again(alloc, collection, &self.selected)?;
        self.set_up(alloc, collection, selected)
    }

    /// Selects the attributes that are looked for, and initialises the outcome. No names select all attributes.
    ///
    /// A text that is no valid name is always unspecified, and is reported by the name `invalid` (own).
    ///
    /// # Errors
    ///
    /// If memory runs out. Nothing changes then.
    pub fn initialize_with_selection(
        &mut self,
        alloc: Global,
        collection: &MetadataCollection,
        attribute_names: &[&str],
    ) -> Result<(), AllocError>
        ensures ok { OnOk result (self.new
            ≡ initial_content collection.now (map (λ name. name.now) attribute_names.now)) }
        ensures refused { OnErr result (self.new ≡ self.old) }
    {
        let selected = selection::look_up(alloc, collection, attribute_names)?;
        self.set_up(alloc, collection, selected)
    }

    // What takes memory comes first, so that nothing has changed if it is refused.
    fn set_up(
        &mut self,
        alloc: Global,
        collection: &MetadataCollection,
        selected: Vec<SelectedName>,
    ) -> Result<(), AllocError>
        requires { selection_view selected.items
            ≡ looked_up collection.now.names (names_selected (selection_view selected.items)) }
        ensures ok { OnOk result (self.new
            ≡ initial_content collection.now (names_selected (selection_view selected.items))) }
        ensures refused { OnErr result (self.new ≡ self.old) }
    {
        let count = collection.len();
        let needed = WantedFlags::all_or_none(alloc, count, true);
        let wanted = selection::flags(alloc, &selected, count)?;
        let macros = collection.macros().clone()?;
        let changes = selection::body_changes(
            alloc,
            self.state.slots.bodies(),
            &self.macros,
            collection,
        )?;
        self.state.slots.set_up(wanted, needed, changes)?;
        self.macros = macros;
        self.owners = None;
        self.selected = selected;
        self.is_initialized = true;
        Ok(())
    }

    /// Selects names in an outcome that has the bodies of the collection, and empties it. Searches skip what these names don't
    /// depend on. It costs what does, and a sort of the items of all bodies if these have changed since it was called last.
    ///
    /// # Errors
    ///
    /// If memory runs out. Nothing changes then.
    pub(crate) fn narrow(
        &mut self,
        alloc: Global,
        collection: &MetadataCollection,
        names: Vec<SelectedName>,
    ) -> Result<(), AllocError>
        requires current { IsCurrent self.old collection.now }
        requires selected { selection_view names.items
            ≡ looked_up collection.now.names (names_selected (selection_view names.items)) }
        ensures ok { OnOk result (IsNarrowed
            collection.now (names_selected (selection_view names.items)) self.new) }
        ensures refused { OnErr result (self.new ≡ self.old) }
    {
        let count = collection.len();
        let wanted = selection::flags(alloc, &names, count)?;
        let needed = self.needed(alloc, &names, &wanted)?;
        self.state.slots.set_up(wanted, needed, Vec::new(alloc))?;
        self.selected = names;
        self.is_initialized = true;
        Ok(())
    }

    // What the answers for names depend on: the wanted attributes, and more. The owners are kept for the next names.
    fn needed(
        &mut self,
        alloc: Global,
        names: &[SelectedName],
        wanted: &WantedFlags,
    ) -> Result<WantedFlags, AllocError>
        requires count { length self.old.bodies ≡ length self.old.slots }
        requires within { BodiesHaveSlots (length self.old.slots) self.old.bodies }
        requires numbers { All (λ s. MatchOption s.number ⊤ (λ n. n < length self.old.slots))
            names.now }
        requires wanted { wanted.now
            ≡ flags_of (selection_view names.now) (length self.old.slots) }
        ensures same { self.new ≡ self.old }
        ensures needed { IfOk result (λ flags. AreNeeded
            (length self.old.slots) self.old.bodies (selection_view names.now) flags) }
    {
        let mut needed = wanted.clone()?;
        if names.is_empty() {
            return Ok(needed);
        }
        let owners = self.take_owners(alloc)?;
        let mut stack = selection::numbers(alloc, names)?;
        owners.mark_all(&mut needed, &mut stack)?;
        self.owners = Some(owners);
        Ok(needed)
    }

    // The owners of the bodies' items. They are made if they are not kept.
    fn take_owners(&mut self, alloc: Global) -> Result<Owners, AllocError>
        ensures same { self.new ≡ self.old }
        ensures owners { IfOk result
            (λ owners. AreOwnersOf self.old.bodies owners.items.items) }
    {
        match self.owners.take() {
            Some(owners) => Ok(owners),
            None => Owners::of(alloc, self.state.slots.bodies(), &self.macros),
        }
    }

    /// Empties the slots, for searches of another path. It takes no memory, and costs what was filled. Nothing is kept for answers then;
    /// until then an answer keeps the index of its list, also if the list was removed.
    pub fn reset(&mut self)
        ensures { self.new ≡ reset_content self.old }
    {
        self.state.slots.reset();
        self.is_initialized = true;
    }

    /// Copies the answers into another outcome, which keeps its own selection and is initialised with the collection.
    ///
    /// # Errors
    ///
    /// If memory runs out. Nothing changes then.
    pub fn copy_into(
        &self,
        alloc: Global,
        collection: &MetadataCollection,
        dest: &mut Outcome,
    ) -> Result<(), AllocError>
        requires initialized { IsTrue self.now.is_initialized }
        requires current { IsCurrent self.now collection.now }
        ensures ok { OnOk result (dest.new
            ≡ record (initial_content collection.now (names_selected dest.old.selection))
            { slots = self.now.slots; kept = self.now.kept }) }
        ensures refused { OnErr result (dest.new ≡ dest.old) }
    {
        let selected = selection::look_up_again(alloc, collection, &dest.selected)?;
        let wanted = selection::flags(alloc, &selected, collection.len())?;
        let needed = WantedFlags::all_or_none(alloc, self.state.slots.len(), true);
        let macros = self.macros.clone()?;
        let mut slots = self.state.slots.copy(alloc, wanted, needed)?;
        slots.begin_counts();
        dest.state.slots = slots;
        dest.macros = macros;
        dest.owners = None;
        dest.selected = selected;
        dest.is_initialized = true;
        Ok(())
    }

    /// A copy, with the same answers.
    ///
    /// # Errors
    ///
    /// If memory runs out.
    pub fn clone(&self, alloc: Global) -> Result<Outcome, AllocError>
        ensures { IfOk result (λ copy. copy ≡ self.now) }
    {
        Ok(Outcome {
            state: self.state.clone(alloc)?,
            macros: self.macros.clone()?,
            owners: None,
            selected: selection::copy_of(alloc, &self.selected)?,
            no_pattern: no_pattern(alloc),
            is_initialized: self.is_initialized,
        })
    }

    /// The answer for the attribute with this number. None if no search found one, or if there is no such slot.
    #[inline(always)]
    pub fn match_by_id(&self, id: AttributeId) -> Option<Match<'_>>
        ensures { option_map match_view result ≡ slice_index_or self.now.slots id.0 None }
    {
        self.state.slots.get(id.0)
    }

    /// Whether each attribute that is looked for has an answer. A search of such an outcome changes nothing.
    pub fn is_done(&self) -> bool
        requires { IsTrue self.now.is_initialized }
        ensures { result ≡ is_complete self.now }
    {
        self.state.slots.is_done()
    }

    /// Whether each number in the lists of a search has a slot, so that the search may fill this outcome.
    pub fn covers(&self, search: &Search) -> bool
        ensures { IsTrue result ↔ ListsAreCovered (length self.now.slots) (lists_in search.now) }
    {
        are_covered(&search.lists().lists, self.len())
    }

    /// Whether the outcome was initialised.
    pub fn is_initialized(&self) -> bool
        ensures { result ≡ self.now.is_initialized }
    {
        self.is_initialized
    }

    /// Whether the collection has as many names as the outcome has slots, and the same macros as it was initialised with.
    pub fn is_current(&self, collection: &MetadataCollection) -> bool
        ensures { IsTrue result ↔ IsCurrent self.now collection.now }
    {
        if self.state.slots.len() != collection.len() {
            return false;
        }
        selection::are_bodies_of(self.state.slots.bodies(), collection)
    }

    /// How many items the last search took, each of which filled a slot. Items whose attributes had answers are passed over.
    pub fn taken(&self) -> u128
        ensures { result ≡ self.now.taken }
    {
        self.state.slots.taken()
    }

    /// How many lines the last search tested: it compared their patterns with the path. It stops at `u128::MAX`.
    pub fn tested(&self) -> u128
        ensures { result ≡ self.now.tested }
    {
        self.state.slots.tested()
    }

    /// The first attribute with an answer, from this number on. After a search without a selection it is found by halving.
    pub fn next_found(&self, from: AttributeId) -> Option<AttributeId>
        ensures { MatchOption result (found_in (drop from.0 self.now.slots) ≡ [])
            (λ id. IsNextFound self.now.slots from.0 id.0) }
    {
        match self.state.slots.next_filled(from.0) {
            Some(number) => Some(AttributeId(number)),
            None => None,
        }
    }

    /// The answers that were found, by number, whatever is selected.
    pub fn iter(&self) -> Matches<'_>
        ensures { result ≡ found_in self.now.slots }
    {
        Matches::of(self)
    }

    /// The answers for the selected names, in their order, and none without a selection. A name that no matching line
    /// assigns is unspecified.
    pub fn iter_selected(&self) -> Selected<'_>
        ensures { result ≡ selected_in self.now.slots self.now.selection }
    {
        Selected::of(self)
    }

    /// The answer for the selected name at this index, from 0, as [`Outcome::iter_selected`] returns it there, and none past the
    /// last name.
    #[inline(always)]
    pub fn selected_match(&self, index: usize) -> Option<Match<'_>>
        ensures { option_map match_view result
            ≡ slice_get (selected_in self.now.slots self.now.selection) index }
    {
        if index < self.selected_len() {
            Some(self.selected_at(index))
        } else {
            None
        }
    }

    /// The number of the selected name at this index, from 0. There is none past the last name, and none of a text that was no
    /// name of the collection when the outcome was initialised with it.
    #[inline(always)]
    pub fn selected_number(&self, index: usize) -> Option<AttributeId>
        ensures { option_map (λ id. id.0) result
            ≡ option_and_then (λ wanted. wanted.number) (slice_get self.now.selection index) }
    {
        let number = self.selected.get(index)?.number?;
        Some(AttributeId(number))
    }

    /// How many names are selected. If none is, all are looked for.
    pub fn selected_len(&self) -> usize
        ensures { result ≡ length self.now.selection }
    {
        self.selected.len()
    }

    #[inline(always)]
    pub(crate) fn selected_at(&self, index: usize) -> Match<'_>
        requires { index < length self.now.selection }
        ensures { match_view result ≡ selected_answer self.now.slots
            (slice_index_or self.now.selection index nothing_wanted) }
    {
        let selected = &self.selected[index];
        let found = match selected.number {
            Some(number) => self.state.slots.get(number),
            None => None,
        };
        match found {
            Some(found) => found,
            None => unspecified(selected, &self.no_pattern),
        }
    }

    /// How many slots there are: one for each name of the collection when the outcome was initialised with it.
    pub fn len(&self) -> usize
        ensures { result ≡ length self.now.slots }
    {
        self.state.slots.len()
    }
}

// The empty pattern, of no mode and without a wildcard.
fn no_pattern(alloc: Global) -> Pattern
    ensures { pattern_view result ≡ no_pattern }
{
    Pattern {
        text: Vec::new(alloc),
        mode: Mode::empty(),
        first_wildcard_pos: None,
    }
}

// Whether all numbers of lists are below a count.
fn are_covered(lists: &[IndexedList], count: usize) -> bool
    ensures { IsTrue result ↔ All (λ s. AreCovered count (listed_view s).lines) lists.now }
{
    lists.iter().all(|list| is_list_covered(list, count))
}

fn is_list_covered(list: &IndexedList, count: usize) -> bool
    ensures { IsTrue result ↔ AreCovered count (listed_view list.now).lines }
{
    are_lines_covered(&list.list.patterns, count)
}

fn are_lines_covered(mappings: &[Mapping<Value>], count: usize) -> bool
    ensures { IsTrue result ↔ All (λ m. IsCovered count (entry_view m)) mappings.now }
{
    mappings.iter().all(|mapping| is_covered(mapping, count))
}

// Whether the items of a line and the macro that it defines have numbers below a count.
fn is_covered(mapping: &Mapping<Value>, count: usize) -> bool
    ensures { IsTrue result ↔ IsCovered count (entry_view mapping.now) }
{
    match &mapping.value {
        Value::MacroAssignments { id, assignments } => {
            id.0 < count && are_below(assignments, count)
        }
        Value::Assignments(assignments) => are_below(assignments, count),
    }
}

fn are_below(items: &[TrackedAssignment], count: usize) -> bool
    ensures { IsTrue result ↔ HaveSlots count items.now }
{
    items.iter().all(|item| item.id.0 < count)
}

/// The answers, written as in an attributes file.
impl fmt::Debug for Outcome {
    fn fmt<W: fmt::Write>(&self, f: &mut fmt::Formatter<W>) -> fmt::Result {
        let mut answers = f.debug_tuple("Outcome");
        if self.selected.is_empty() {
            for found in self.iter() {
                answers.field(&Printed(found.assignment));
            }
        } else {
            for found in self.iter_selected() {
                answers.field(&Printed(found.assignment));
            }
        }
        answers.finish()
    }
}

// An assignment that is written as in an attributes file, also by `Debug`.
#[derive(Clone, Copy)]
struct Printed<'a>(AssignmentRef<'a>);

impl<'a> fmt::Debug for Printed<'a> {
    fn fmt<W: fmt::Write>(&self, f: &mut fmt::Formatter<W>) -> fmt::Result {
        write!(f, "{}", self.0)
    }
}
