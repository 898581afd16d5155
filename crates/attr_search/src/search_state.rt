//! The state of a search over lists: slots that are filled by the lines that match a path.

ghost use Rattle.std.specs.Prelude.{◌≡◌, ◌*◌, ◌<◌, ◌≤◌, [], length, All, OnOk, IfOk, IfSome, IsNone, is_none, false, true, Ok, None};
ghost use Rattle.bstr.specs.BStr.{bstr_bytes};
ghost use Rattle.attr_glob.specs.Views.{patterns_of};
ghost use Rattle.attr_lists.specs.ListViews.{items_in, macro_id};
ghost use Rattle.attr_table.specs.Table.{OneTable};
ghost use Rattle.attr_table.specs.Cut.{IsSearched, ExtendsCuts, is_done};
ghost use Rattle.attr_table.specs.Work.{work_of, newly_filled};
ghost use Rattle.attr_search.specs.IndexedLists.{listed_view, lists_view};
ghost use Rattle.attr_search.specs.inner.FoundLists.{AreListsFor};
ghost use Rattle.attr_search.specs.inner.Trying.{AreTried};
ghost use Rattle.attr_search.specs.Settings.{is_found};
ghost use Rattle.attr_search.specs.shared.Slotted.{LinesHaveSlots, ListsHaveSlots};
ghost use Rattle.attr_search.specs.inner.Searched.{KeepsState, ListsKeepNamed, SearchedLine, SearchedLines, SearchedList, SearchedLists, SearchesPart, TestsRoots, query_candidates, query_setting, state_wanted};
ghost use Rattle.attr_search.specs.shared.SlotContents.{empty_slots, open_slots};

use crate::directory_keys::PathKeys;
use crate::indexed_list::IndexedList;
use crate::indexed_lists::IndexedLists;
use crate::item_index::ItemIndex;
use crate::matching_line::MatchingLine;
use crate::path_query::PathQuery;
use crate::slots::AnswerSlots;
use crate::wanted::WantedFlags;
use attr_glob::wildmatch::MatchBuffers;
use attr_lists::types::{TrackedAssignment, Value};
use std::alloc::{AllocError, Global};
use std::mem;

/// What a search fills and uses: slots, and buffers that are kept from path to path.
pub struct SearchState {
    /// The slots, the bodies of macros, and the counts of the last search.
    pub slots: AnswerSlots,
    buffers: SearchBuffers,
}

// By hand, so that a proof drops it by one call.
impl Drop for SearchState {
    fn drop(self) {
        let SearchState {
            slots: _,
            buffers: _,
        } = self;
    }
}

#[derive(Drop)]
struct SearchBuffers {
    matching: MatchBuffers,
    // A base name, reversed.
    reversed: Vec<u8>,
    indexes: Vec<usize>,
    // Those of the last path's directories.
    keys: PathKeys,
    // The numbers of lists.
    numbers: Vec<usize>,
    // The items that are still to be processed.
    stack: Vec<ItemIndex>,
}

impl SearchState {
    /// A state without slots. It takes no memory.
    pub fn new(alloc: Global) -> SearchState
        ensures { result.slots ≡ empty_slots [] [] [] }
    {
        SearchState::of(alloc, AnswerSlots::new(alloc))
    }

    fn of(alloc: Global, slots: AnswerSlots) -> SearchState
        ensures { result.slots ≡ slots }
    {
        SearchState {
            slots,
            buffers: SearchBuffers {
                matching: MatchBuffers::new(alloc),
                reversed: Vec::new(alloc),
                indexes: Vec::new(alloc),
                keys: PathKeys::new(alloc),
                numbers: Vec::new(alloc),
                stack: Vec::new(alloc),
            },
        }
    }

    /// A copy, with empty buffers.
    ///
    /// # Errors
    ///
    /// If memory runs out.
    pub fn clone(&self, alloc: Global) -> Result<SearchState, AllocError>
        ensures { IfOk result (λ copy. copy.slots ≡ self.now.slots) }
    {
        Ok(SearchState::of(alloc, self.slots.clone(alloc)?))
    }

    /// Fills the slots from the lines that match a path, until each wanted attribute has an answer. The last list is
    /// searched first, and in it the last line (gitattributes page: later ones take precedence). Returns whether the
    /// search found an answer of a wanted attribute. Nothing changes if each has an answer at the start.
    ///
    /// # Errors
    ///
    /// If memory runs out. Which slots are filled is not specified then.
    pub fn search(
        &mut self,
        alloc: Global,
        lists: &IndexedLists,
        query: PathQuery<'_>,
    ) -> Result<bool, AllocError>
        requires in_lists { ListsHaveSlots (length self.old.slots.answers)
            (lists_view lists.now.lists.items) }
        ensures kept { KeepsState self.old.slots self.new.slots }

        // The slots are the cut of the only stable table, over the slots before (`attr_table::laws` explains these).
        ensures one { OneTable
            (query_setting self.old.slots (lists_view lists.now.lists.items) query.entry)
            (open_slots self.old.slots) }
        ensures searched { OnOk result (IsSearched
            (query_setting self.old.slots (lists_view lists.now.lists.items) query.entry)
            (state_wanted self.old.slots) (open_slots self.old.slots) (open_slots self.new.slots)) }
        ensures joined { OnOk result (
            let setting = query_setting self.old.slots
            (lists_view lists.now.lists.items) query.entry in
            ExtendsCuts setting.lists setting.bodies
            (state_wanted self.old.slots) (open_slots self.old.slots) (open_slots self.new.slots)) }
        ensures found { IfOk result (λ found. found ≡ is_found (state_wanted self.old.slots)
            (open_slots self.old.slots) (open_slots self.new.slots)) }
        ensures named { OnOk result
            (ListsKeepNamed (lists_view lists.now.lists.items) self.old.slots self.new.slots) }

        // A search takes at most the items that there are, and at least one for each slot that it fills. It tests at
        // most the candidate lines, and at least the lines whose items fill slots, themselves or by macros.
        ensures most { is_done (state_wanted self.old.slots) (open_slots self.old.slots) ≡ false →
            OnOk result (self.new.slots.taken ≤ work_of
            (query_setting self.old.slots (lists_view lists.now.lists.items) query.entry)) }
        ensures least { is_done (state_wanted self.old.slots) (open_slots self.old.slots) ≡ false →
            OnOk result (newly_filled (open_slots self.old.slots) (open_slots self.new.slots)
            (length self.new.slots.answers) ≤ self.new.slots.taken) }
        ensures tested { is_done (state_wanted self.old.slots) (open_slots self.old.slots) ≡ false →
            OnOk result (self.new.slots.tested
            ≤ query_candidates (lists_view lists.now.lists.items) query.entry) }
        ensures roots { is_done (state_wanted self.old.slots) (open_slots self.old.slots) ≡ false →
            OnOk result (TestsRoots
            (query_setting self.old.slots (lists_view lists.now.lists.items) query.entry)
            self.old.slots self.new.slots) }

        // If each wanted attribute has an answer, nothing changes.
        ensures done { is_done (state_wanted self.old.slots) (open_slots self.old.slots) ≡ true →
            result ≡ Ok false }
        ensures unchanged { is_done (state_wanted self.old.slots) (open_slots self.old.slots)
            ≡ true → self.new.slots ≡ self.old.slots }
    {
        // Slots can be counted.
        prove!(self.slots.len() <= usize::MAX);
        if self.slots.is_done() {
            return Ok(false);
        }
        let remaining = self.slots.remaining();
        self.slots.begin_counts();
        self.search_lists(alloc, lists, query)?;
        Ok(self.slots.remaining() < remaining)
    }

    // Searches all lists, the last first, until each wanted attribute has an answer.
    fn search_lists(
        &mut self,
        alloc: Global,
        lists: &IndexedLists,
        query: PathQuery<'_>,
    ) -> Result<(), AllocError>
        requires in_lists { ListsHaveSlots (length self.old.slots.answers)
            (lists_view lists.now.lists.items) }
        ensures { SearchesPart result
            (SearchedLists query.entry (lists_view lists.now.lists.items))
            self.old.slots self.new.slots }
    {
        let searched = match lists.few() {
            Some(numbers) => self.search_numbers(alloc, &lists.lists, numbers, query),
            None => {
                let numbers = self.buffers.find_lists(alloc, lists, query)?;
                let searched = self.search_numbers(alloc, &lists.lists, &numbers, query);
                self.buffers.numbers = numbers;
                searched
            }
        };
        self.slots.order();
        searched
    }

    // Searches the lists with some numbers, the greatest first, until each wanted attribute has an answer. No other
    // list applies to the path.
    fn search_numbers(
        &mut self,
        alloc: Global,
        lists: &[IndexedList],
        numbers: &[usize],
        query: PathQuery<'_>,
    ) -> Result<(), AllocError>
        requires numbers { AreListsFor query.case (bstr_bytes query.path) lists.now numbers.now }
        requires in_lists { ListsHaveSlots (length self.old.slots.answers) (lists_view lists.now) }
        ensures { SearchesPart result
            (SearchedLists query.entry (lists_view lists.now)) self.old.slots self.new.slots }
    {
        let mut bound = lists.len();
        for k in (0..numbers.len()).rev() {
            if self.slots.is_done() {
                return Ok(());
            }
            let number = numbers[k];
            if number < bound {
                self.search_list(alloc, &lists[number], query)?;
                bound = number;
            }
        }
        Ok(())
    }

    // Searches the lines of a list that may match, the last first, if the path is below the list's base.
    fn search_list(
        &mut self,
        alloc: Global,
        list: &IndexedList,
        query: PathQuery<'_>,
    ) -> Result<(), AllocError>
        requires in_lines { LinesHaveSlots
            (length self.old.slots.answers) (listed_view list.now).lines }
        ensures { SearchesPart result
            (SearchedList query.entry (listed_view list.now)) self.old.slots self.new.slots }
    {
        if list.is_idle {
            return Ok(());
        }
        let Some(rest) = query.below(&list.list) else {
            return Ok(());
        };
        let indexes = self.buffers.find_candidates(alloc, list, rest)?;
        let searched = self.search_lines(alloc, list, &indexes, rest);
        self.buffers.indexes = indexes;
        searched
    }

    // Searches the lines at some indexes, in their order, until each wanted attribute has an answer.
    fn search_lines(
        &mut self,
        alloc: Global,
        list: &IndexedList,
        indexes: &[usize],
        rest: PathQuery<'_>,
    ) -> Result<(), AllocError>
        requires indexes { All (λ index. index < length list.now.index.value.lines.items)
            indexes.now }
        requires in_lines { LinesHaveSlots
            (length self.old.slots.answers) (listed_view list.now).lines }
        ensures { SearchesPart result
            (SearchedLines rest.entry (listed_view list.now) indexes.now)
            self.old.slots self.new.slots }
    {
        let query = rest.for_lines(indexes.len());
        for line in indexes {
            if self.slots.is_done() {
                return Ok(());
            }
            self.search_line(alloc, list, *line, query)?;
        }
        Ok(())
    }

    // Fills slots with the items of a line, the last first, if the line matches. The line is not tested if it defines a
    // macro, or if each of its items' attributes has an answer.
    fn search_line(
        &mut self,
        alloc: Global,
        list: &IndexedList,
        index: usize,
        rest: PathQuery<'_>,
    ) -> Result<(), AllocError>
        requires index { index < length list.now.index.value.lines.items }
        requires in_lines { LinesHaveSlots
            (length self.old.slots.answers) (listed_view list.now).lines }
        ensures { SearchesPart result
            (SearchedLine rest.entry (listed_view list.now) index) self.old.slots self.new.slots }
    {
        let mapping = &list.list.patterns[index];
        let Some(items) = assigned(&mapping.value) else {
            return Ok(());
        };
        if self.slots.last_free(items, items.len()).is_none() {
            return Ok(());
        }
        self.slots.count_line();
        if !list.matches(index, rest, &mut self.buffers.matching)? {
            return Ok(());
        }
        let line = MatchingLine {
            index: &list.index,
            line: index,
            items,
        };
        self.slots.fill_line(alloc, line, &mut self.buffers.stack)
    }
}

impl SearchBuffers {
    // The numbers of the lists that apply to the path, in the buffer of numbers, which is to be put back. They don't fall.
    fn find_lists(
        &mut self,
        alloc: Global,
        lists: &IndexedLists,
        query: PathQuery<'_>,
    ) -> Result<Vec<usize>, AllocError>
        ensures { IfOk result (λ numbers. AreListsFor query.entry.case
            (bstr_bytes query.entry.path) lists.now.lists.items numbers.items) }
    {
        lists.find(
            query.path.as_bytes(),
            query.case,
            &mut self.keys,
            &mut self.numbers,
        )?;
        Ok(mem::replace(&mut self.numbers, Vec::new(alloc)))
    }

    // The indexes of the lines to test, the greatest first, in the buffer of indexes, which is to be put back.
    fn find_candidates(
        &mut self,
        alloc: Global,
        list: &IndexedList,
        rest: PathQuery<'_>,
    ) -> Result<Vec<usize>, AllocError>
        requires { list.now.is_idle ≡ false }
        ensures { IfOk result (λ indexes. AreTried rest.entry.case
            (bstr_bytes rest.entry.path) (patterns_of list.now.list.patterns.items) indexes.items) }
    {
        list.find_candidates(rest, &mut self.reversed, &mut self.indexes)?;
        Ok(mem::replace(&mut self.indexes, Vec::new(alloc)))
    }
}

// The items of a line that defines no macro.
fn assigned(value: &Value) -> Option<&[TrackedAssignment]>
    ensures definition { IsNone result → is_none (macro_id value.now) ≡ false }
    ensures line { IfSome result (λ items. macro_id value.now ≡ None) }
    ensures items { IfSome result (λ items. items.now ≡ items_in value.now) }
{
    match value {
        Value::MacroAssignments {
            id: _,
            assignments: _,
        } => None,
        Value::Assignments(assignments) => Some(assignments.as_slice()),
    }
}
