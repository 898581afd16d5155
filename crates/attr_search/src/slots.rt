//! What a search fills: a slot for each attribute. A slot has the answer for its attribute, or none. The wanted slots are
//! those that a search looks for. It fills the needed slots alone, and skips the others.

ghost use Rattle.std.specs.Prelude.{◌≡◌, Bool, List, ◌<◌, ◌≤◌, ◌*◌, ◌+◌, ◌-◌, ◌^◌, ◌&&◌, min, All, None, Some, [], IfOk, IfSome, OnErr, OnOk, MatchOption, is_none, is_some, length, map, not, option_map, slice_index_or, take};
ghost use Rattle.attr_table.specs.Cut.{is_done};
ghost use Rattle.attr_search.specs.Matches.{match_view};
ghost use Rattle.attr_search.specs.Settings.{HaveSlots};
ghost use Rattle.std.specs.List.Sorted.{IsStrictlyIncreasing};
ghost use Rattle.std.specs.Option.{option_copied};
ghost use Rattle.std.specs.Vec.{vec_capacity};
ghost use Rattle.attr_search.specs.Slots.{AreFreeFrom, IsNextFilled};
ghost use Rattle.attr_search.specs.shared.BodyChanges.{changed_bodies, sized_bodies};
ghost use Rattle.attr_search.specs.inner.Searched.{state_wanted};
ghost use Rattle.attr_search.specs.shared.Slotted.{BodiesHaveSlots, bodies_view};
ghost use Rattle.attr_search.specs.shared.SlotContents.{AreFlagsAmong, AreListed, count_remaining, empty_slots, open_slots};
ghost use Rattle.attr_search.specs.inner.Pending.{AreFilled, IsLastFree};
ghost use Rattle.attr_search.specs.inner.SlotsView.{AllAreNeeded, AreOpen};

mod filling;

use crate::answer_parts::{MatchRef, copy_of_items, copy_of_lines};
use crate::bodies::{self, BodyChange};
use crate::matching_line::AnsweringLine;
use crate::wanted::WantedFlags;
use attr_lists::types::{Match, Metadata, TrackedAssignment};
use attr_text::Assignment;
use std::alloc::{AllocError, Global};
use std::marker::Model;
use std::rc::Rc;

/// A slot and a body for each attribute, which slots are wanted and which are needed, and the counts of the last search. A wanted slot
/// is needed.
#[derive(Drop)]
pub struct AnswerSlots {
    slots: Vec<Option<MatchRef>>,
    // The numbers of the slots that have an answer.
    filled: Vec<usize>,
    // Whether these numbers are in their order.
    is_ordered: bool,
    wanted: WantedFlags,
    needed: WantedFlags,
    // For each slot whether it is needed and has no answer.
    is_open: Vec<bool>,
    // For each slot whether it is wanted.
    is_wanted: Vec<bool>,
    // How many wanted slots are free.
    remaining: usize,
    // The lines that have answered, each kept once, whatever it answers.
    lines: Vec<AnsweringLine>,
    // The items of lines that have answered. Those of bodies are there already.
    items: Vec<TrackedAssignment>,
    // The definition of each attribute as a macro, by number.
    bodies: Vec<Option<Rc<Metadata>>>,
    // How many slots were filled before the last search.
    filled_before: usize,
    // How many lines it tested. The count stops at `u128::MAX`.
    tested: u128,
}

impl Model for AnswerSlots {
    ghost use Rattle.attr_search.specs.SearchContents.{SearchContents};

    ghost Value = { SearchContents };

    ghost use Rattle.attr_search.specs.inner.SlotsView.{AreSoundSlots, slots_view};

    ghost view = { slots_view };

    ghost invariant = { AreSoundSlots };
}

impl AnswerSlots {
    /// No slots. It takes no memory.
    #[tactic(auto, using(crate::proofs::SlotLemmas::distinct_none))]
    pub fn new(alloc: Global) -> AnswerSlots
        ensures { result ≡ empty_slots [] [] [] }
    {
        AnswerSlots {
            slots: Vec::new(alloc),
            filled: Vec::new(alloc),
            is_ordered: true,
            wanted: WantedFlags::new(alloc),
            needed: WantedFlags::new(alloc),
            is_open: Vec::new(alloc),
            is_wanted: Vec::new(alloc),
            remaining: 0,
            lines: Vec::new(alloc),
            items: Vec::new(alloc),
            bodies: Vec::new(alloc),
            filled_before: 0,
            tested: 0,
        }
    }

    /// Makes an empty slot for each flag in place of its own, keeps or makes a body for each, and changes some of these. A search
    /// fills the needed slots alone. It costs what was filled and what is changed, and takes memory for more slots only.
    ///
    /// # Errors
    ///
    /// If memory runs out. Nothing changes then.
    pub fn set_up(
        &mut self,
        wanted: WantedFlags,
        needed: WantedFlags,
        changes: Vec<BodyChange>,
    ) -> Result<(), AllocError>
        requires numbers { All (λ change. change.number < length wanted) changes.items }
        requires needed { length needed ≡ length wanted }
        requires among { AreFlagsAmong wanted needed }
        requires within { BodiesHaveSlots (length wanted)
            (changed_bodies changes.items (sized_bodies (length wanted) self.old.bodies)) }
        ensures ok { OnOk result (self.new ≡ empty_slots wanted needed
            (changed_bodies changes.items (sized_bodies (length wanted) self.old.bodies))) }
        ensures refused { OnErr result (self.new ≡ self.old) }
    {
        let count = wanted.len();
        make_room(&mut self.slots, count)?;
        make_room(&mut self.is_open, count)?;
        make_room(&mut self.is_wanted, count)?;
        bodies::resize(&mut self.bodies, count)?;
        bodies::change(&mut self.bodies, changes);
        empty(&mut self.slots, &mut self.is_open, &self.filled);
        self.filled.clear();
        keep_none(&mut self.lines, &mut self.items);
        self.filled_before = 0;
        self.tested = 0;
        self.is_ordered = true;
        // There is room.
        self.slots.resize(count, None).unwrap();
        needed.write(&mut self.is_open, &self.needed);
        wanted.write(&mut self.is_wanted, &self.wanted);
        self.remaining = wanted.count();
        self.wanted = wanted;
        self.needed = needed;
        Ok(())
    }

    /// The definition of each attribute as a macro, by number.
    pub fn bodies(&self) -> &[Option<Rc<Metadata>>]
        ensures bodies { bodies_view result.now ≡ self.now.bodies }
        ensures len { length result.now ≡ length self.now.answers }
    {
        &self.bodies
    }

    /// How many wanted slots are free.
    pub fn remaining(&self) -> usize
        ensures count { result ≡ count_remaining self.now.wanted self.now.answers }
        ensures among { AreFlagsAmong self.now.wanted self.now.needed }
    {
        self.remaining
    }

    /// A copy of the slots, the bodies and the counts, with other slots wanted. Those that are needed here have to be needed there.
    ///
    /// # Errors
    ///
    /// If memory runs out.
    pub fn copy(
        &self,
        alloc: Global,
        wanted: WantedFlags,
        needed: WantedFlags,
    ) -> Result<AnswerSlots, AllocError>
        requires wanted { length wanted ≡ length self.now.answers }
        requires needed { length needed ≡ length self.now.answers }
        requires among { AreFlagsAmong wanted needed }
        requires more { AreFlagsAmong self.now.needed needed }
        ensures { IfOk result
            (λ slots. slots ≡ record self.now { wanted = wanted; needed = needed }) }
    {
        let is_open = open_ones(alloc, &self.slots, &needed)?;
        let is_wanted = wanted.to_vec(alloc)?;
        let slots = Vec::from_slice(alloc, &self.slots)?;
        let filled = Vec::from_slice(alloc, &self.filled)?;
        let lines = copy_of_lines(alloc, &self.lines)?;
        let items = copy_of_items(alloc, &self.items)?;
        let bodies = self.bodies.clone()?;
        let remaining = count_remaining(&wanted, &slots);
        Ok(AnswerSlots {
            slots,
            filled,
            is_ordered: self.is_ordered,
            wanted,
            needed,
            is_open,
            is_wanted,
            remaining,
            lines,
            items,
            bodies,
            filled_before: self.filled_before,
            tested: self.tested,
        })
    }

    /// A copy of the slots, of which the same are wanted and needed, of the bodies and of the counts.
    ///
    /// # Errors
    ///
    /// If memory runs out.
    pub fn clone(&self, alloc: Global) -> Result<AnswerSlots, AllocError>
        ensures { IfOk result (λ slots. slots ≡ self.now) }
    {
        self.copy(alloc, self.wanted.clone()?, self.needed.clone()?)
    }

    /// How many slots there are.
    pub fn len(&self) -> usize
        ensures answers { result ≡ length self.now.answers }
        ensures wanted { result ≡ length self.now.wanted }
        ensures needed { result ≡ length self.now.needed }
    {
        self.slots.len()
    }

    /// Whether the slot of the attribute with this number is needed and has no answer.
    pub fn is_free(&self, number: usize) -> bool
        requires { number < length self.now.answers }
        ensures { result ≡ not (is_some (open_slots self.now number)) }
    {
        self.is_open[number]
    }

    /// The index of the last of the first few items whose attribute is needed and has no answer.
    pub fn last_free(&self, items: &[TrackedAssignment], few: usize) -> Option<usize>
        requires slots { HaveSlots (length self.now.answers) items.now }
        requires few { few ≤ length items.now }
        ensures { MatchOption result
            (AreFilled (open_slots self.now) (take few items.now))
            (IsLastFree (open_slots self.now) items.now few) }
    {
        let mut index = few;
        while index > 0 {
            index -= 1;
            if self.is_free(items[index].id.0) {
                return Some(index);
            }
        }
        None
    }

    /// Whether each wanted slot is filled.
    pub fn is_done(&self) -> bool
        ensures { result ≡ is_done (state_wanted self.now) (open_slots self.now) }
    {
        self.remaining == 0
    }

    /// How many items the last search took, each of which filled a slot.
    pub fn taken(&self) -> u128
        ensures { result ≡ self.now.taken }
    {
        (self.filled.len() - self.filled_before) as u128
    }

    /// How many lines the last search tested.
    pub fn tested(&self) -> u128
        ensures { result ≡ self.now.tested }
    {
        self.tested
    }

    /// Counts one more line that is tested.
    pub fn count_line(&mut self)
        ensures counted { self.new
            ≡ record self.old { tested = min (self.old.tested + 1) (2 ^ 128 - 1) } }
        ensures rises { self.old.tested ≤ self.new.tested }
    {
        self.tested = self.tested.saturating_add(1);
    }

    /// Sets the counts to zero, as each search does first.
    pub fn begin_counts(&mut self)
        ensures { self.new ≡ record self.old { taken = 0; tested = 0 } }
    {
        self.filled_before = self.filled.len();
        self.tested = 0;
    }

    /// Puts the numbers of the filled slots in their order if all are wanted, so that the next one is found by halving.
    pub fn order(&mut self)
        ensures { self.new ≡ self.old }
    {
        if !self.is_ordered && self.wanted.count() == self.wanted.len() {
            self.filled.sort_unstable();
            self.is_ordered = true;
        }
    }

    /// The first number from this one on whose slot has an answer. After a search for all attributes it is found by halving.
    pub fn next_filled(&self, from: usize) -> Option<usize>
        ensures { MatchOption result
            (AreFreeFrom self.now.answers from) (IsNextFilled self.now.answers from) }
    {
        if !self.is_ordered {
            return next_slot(&self.slots, from);
        }
        let start = self.filled.partition_point(|number| *number < from);
        self.filled.get(start).copied()
    }

    /// The numbers of the slots that have an answer, if they are in their order, as after a search for all attributes.
    pub fn listed(&self) -> Option<&[usize]>
        ensures listed { IfSome result (λ numbers. AreListed self.now.answers numbers.now) }
        ensures ordered { IfSome result (λ numbers. IsStrictlyIncreasing numbers.now) }
    {
        if self.is_ordered {
            Some(&self.filled)
        } else {
            None
        }
    }

    /// What is assigned to the attribute with this number. None if its slot is free, or if there is no such slot.
    pub fn assigned(&self, number: usize) -> Option<&Assignment>
        ensures { option_copied result
            ≡ option_map (λ m. m.assignment) (slice_index_or self.now.answers number None) }
    {
        match self.slots.get(number) {
            Some(Some(found)) => Some(&found.item(&self.items, &self.bodies).inner),
            _ => None,
        }
    }

    /// Empties the slots, which costs what was filled, and sets the counts to 0. Nothing of the answers is kept. It takes no memory.
    pub fn reset(&mut self)
        ensures { self.new ≡ record self.old {
          answers = map (λ a. None) self.old.answers;
          line = None;
          kept = 0;
          taken = 0;
          tested = 0;
        } }
    {
        empty(&mut self.slots, &mut self.is_open, &self.filled);
        self.filled.clear();
        self.filled_before = 0;
        self.tested = 0;
        self.is_ordered = true;
        self.remaining = self.wanted.count();
        keep_none(&mut self.lines, &mut self.items);
    }

    /// The answer for the attribute with this number. None if its slot is free, or if there is no such slot.
    #[inline(always)]
    pub fn get(&self, attribute: usize) -> Option<Match<'_>>
        ensures { option_map match_view result ≡ slice_index_or self.now.answers attribute None }
    {
        match self.slots.get(attribute) {
            Some(Some(found)) => Some(found.as_match(&self.lines, &self.items, &self.bodies)),
            _ => None,
        }
    }
}

// How many wanted slots are free.
fn count_remaining(wanted: &WantedFlags, slots: &[Option<MatchRef>]) -> usize
    requires { length wanted.now ≡ length slots.now }
    ensures { result ≡ count_remaining wanted.now slots.now }
{
    let mut remaining = 0;
    for number in 0..slots.len() {
        if is_remaining(wanted.has(number), slots[number]) {
            remaining += 1;
        }
    }
    remaining
}

fn is_remaining(wanted: bool, slot: Option<MatchRef>) -> bool
    ensures { result ≡ wanted && is_none slot }
{
    wanted && slot.is_none()
}

// The first number from this one on whose slot is filled.
fn next_slot(slots: &[Option<MatchRef>], from: usize) -> Option<usize>
    ensures { MatchOption result (AreFreeFrom slots.now from) (IsNextFilled slots.now from) }
{
    for number in from..slots.len() {
        if slots[number].is_some() {
            return Some(number);
        }
    }
    None
}

// Makes room for so many elements in all.
fn make_room<T>(elements: &mut Vec<T>, count: usize) -> Result<(), AllocError>
    ensures items { elements.new.items ≡ elements.old.items }
    ensures room { OnOk result (count ≤ vec_capacity elements.new) }
{
    elements.reserve(count.saturating_sub(elements.len()))
}

// Empties the slots with these numbers, if the others have no answer. All that are needed are open then.
fn empty(slots: &mut Vec<Option<MatchRef>>, is_open: &mut Vec<bool>, numbers: &[usize])
    requires listed { AreListed slots.old.items numbers.now }
    requires flags { length is_open.old.items ≡ length slots.old.items }
    ensures items { slots.new.items ≡ map (λ slot. None) slots.old.items }
    ensures len { length slots.new.items ≡ length slots.old.items }
    ensures opened { (needed : List Bool) → length needed ≡ length slots.old.items →
        AreOpen needed slots.old.items is_open.old.items → AllAreNeeded needed numbers.now →
        is_open.new.items ≡ needed }
    ensures slots_room { vec_capacity slots.new ≡ vec_capacity slots.old }
    ensures flags_room { vec_capacity is_open.new ≡ vec_capacity is_open.old }
{
    for number in numbers {
        slots[*number] = None;
        is_open[*number] = true;
    }
}

// Forgets lines and items: no answer refers to them any more.
fn keep_none(lines: &mut Vec<AnsweringLine>, items: &mut Vec<TrackedAssignment>)
    ensures lines { lines.new.items ≡ [] }
    ensures items { items.new.items ≡ [] }
{
    lines.clear();
    items.clear();
}

// For each slot whether it is needed and has no answer.
fn open_ones(
    alloc: Global,
    slots: &[Option<MatchRef>],
    needed: &WantedFlags,
) -> Result<Vec<bool>, AllocError>
    requires { length needed.now ≡ length slots.now }
    ensures { IfOk result (λ is_open. AreOpen needed.now slots.now is_open.items) }
{
    let mut is_open = Vec::new(alloc);
    for number in 0..slots.len() {
        is_open.push(is_remaining(needed.has(number), slots[number]))?;
    }
    Ok(is_open)
}
