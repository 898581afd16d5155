//! A plain search over slices, with a stack. The program `small_settings` runs it and the search of `attr_search`, and
//! compares the slots and the counts of both.

ghost use Rattle.std.specs.Prelude.{◌≡◌, ◌↔◌, IsTrue, ℕ, ◌+◌, ◌-◌, ◌<◌, ◌≤◌, [], ◌++◌, length, All, OnOk, OnErr, IfOk, is_none, false};
ghost use Rattle.std.specs.List.{list_any};
ghost use Rattle.attr_table.specs.Cut;
ghost use Rattle.attr_table.specs.Cut.{IsSearched, ExtendsCuts, no_answers};
ghost use Rattle.attr_table.specs.Work.{work_of, newly_filled};
ghost use Rattle.attr_table.specs.shared.Walk;
ghost use Rattle.attr_table.specs.shared.Walk.{tasks_in, line_tasks, list_tasks, tasks_of, Searches};
ghost use Rattle.attr_vectors.specs.inner.Plain.{PlainHaveSlots, IsInRange, RowsHaveSlots, TasksHaveSlots, IsSearchState, ProcessesTask, SearchesTasks, free_items, plain_answers, plain_bodies, plain_items, plain_line, plain_lines, plain_lists, plain_origin, plain_setting, plain_state, plain_task, plain_tasks};

use std::alloc::{AllocError, Global};

/// The state that an item assigns, as the gitattributes page spells it.
#[derive(Clone, Copy, PartialEq, Eq, Debug)]
pub enum State<'a> {
    /// `name`
    Set,
    /// `-name`
    Unset,
    /// `name=value`, with the bytes of the value
    Value(&'a [u8]),
    /// `!name`
    Unspecified,
}

/// An item of a line or of a macro's body.
#[derive(Clone, Copy, PartialEq, Eq, Debug)]
pub struct Item<'a> {
    /// The number of the attribute, from 0.
    pub attribute: usize,
    /// The state that the item assigns.
    pub state: State<'a>,
}

/// Where a line comes from: its pattern, its file and its line number.
#[derive(Clone, Copy, PartialEq, Eq, Debug)]
pub struct Origin<'a> {
    /// The text of the pattern.
    pub text: &'a [u8],
    /// The bits of the pattern's mode.
    pub mode: u32,
    /// The offset of the first wildcard in the text, in bytes from 0, if it has one.
    pub wildcard: Option<usize>,
    /// The path of the file, if the list has one.
    pub source: Option<&'a [u8]>,
    /// The number of the line, from 1.
    pub line: usize,
}

/// A line of a list, for one path.
#[derive(Clone, Copy)]
pub struct Row<'r, 'a> {
    /// Where the line comes from.
    pub origin: Origin<'a>,
    /// The items, in the order of the line.
    pub items: &'r [Item<'a>],
    /// Whether the line matches the path and defines no macro.
    pub is_match: bool,
}

/// The item that decides an attribute.
#[derive(Clone, Copy, PartialEq, Eq, Debug)]
pub struct Answer<'a> {
    /// The line of the item, or of the macro that expanded to it.
    pub origin: Origin<'a>,
    /// The item.
    pub assignment: Item<'a>,
    /// Whether the attribute is a macro: its body has items.
    pub is_macro: bool,
    /// The macro whose body has the item, none if the line itself has it.
    pub cause: Option<usize>,
}

/// Whether each item's attribute is below a count.
fn have_slots(items: &[Item<'_>], count: usize) -> bool
    ensures { IsTrue result ↔ PlainHaveSlots count items.now }
{
    items.iter().all(|item| item.attribute < count)
}

fn rows_have_slots(rows: &[Row<'_, '_>], count: usize) -> bool
    ensures { IsTrue result ↔ RowsHaveSlots count rows.now }
{
    rows.iter().all(|row| have_slots(row.items, count))
}

/// Whether there are `count` bodies, and each attribute in the lists, the bodies and `wanted` is below `count`.
pub fn is_in_range(
    lists: &[&[Row<'_, '_>]],
    bodies: &[&[Item<'_>]],
    wanted: &[usize],
    count: usize,
) -> bool
    ensures { IsTrue result ↔ IsInRange lists.now bodies.now wanted.now count }
{
    bodies.len() == count
        && bodies.iter().all(|body| have_slots(body, count))
        && lists.iter().all(|rows| rows_have_slots(rows, count))
        && wanted.iter().all(|attribute| *attribute < count)
}

/// An item on the stack, with its line and the macro whose body it is in.
#[derive(Clone, Copy)]
struct Task<'a> {
    origin: Origin<'a>,
    item: Item<'a>,
    cause: Option<usize>,
}

/// The state of a search: what it looks up, its stack, and its count. The slots are passed beside it.
#[derive(Drop)]
struct SearchState<'s, 'b, 'a> {
    /// The body of each attribute, by number.
    bodies: &'s [&'b [Item<'a>]],
    /// The attributes that the search fills slots for.
    wanted: &'s [usize],
    /// The items that are left. The last one is next.
    stack: Vec<Task<'a>>,
    /// How many items were popped. It stops at `u128::MAX`.
    taken: u128,
}

/// Whether each wanted attribute has an answer.
fn is_done(wanted: &[usize], slots: &[Option<Answer<'_>>]) -> bool
    requires { All (λ w. w < length slots.now) wanted.now }
    ensures { result ≡ Cut.is_done wanted.now (plain_answers slots.now) }
{
    for attribute in wanted {
        if slots[*attribute].is_none() {
            return false;
        }
    }
    true
}

/// Whether the attribute of some item has no answer.
fn has_free(items: &[Item<'_>], slots: &[Option<Answer<'_>>]) -> bool
    requires { PlainHaveSlots (length slots.now) items.now }
    ensures { result ≡ list_any (λ i. is_none (plain_answers slots.now i.attribute)) items.now }
{
    for assignment in items {
        if slots[assignment.attribute].is_none() {
            return true;
        }
    }
    false
}

/// Pushes the items whose attributes have no answer, in their order: the last is on top.
fn push_free<'a>(
    stack: &mut Vec<Task<'a>>,
    origin: Origin<'a>,
    cause: Option<usize>,
    items: &[Item<'a>],
    slots: &[Option<Answer<'a>>],
) -> Result<(), AllocError>
    requires { PlainHaveSlots (length slots.now) items.now }
    ensures pushed { OnOk result (plain_tasks stack.new.items
        ≡ tasks_in (plain_origin origin.entry) cause
        (free_items (plain_answers slots.now) (plain_items items.now))
        ++ plain_tasks stack.old.items) }
    ensures in_stack { OnOk result ((n : ℕ) → PlainHaveSlots n items.now →
        TasksHaveSlots n stack.old.items → TasksHaveSlots n stack.new.items) }
{
    for item in items {
        if slots[item.attribute].is_none() {
            stack.push(Task {
                origin,
                item: *item,
                cause,
            })?;
        }
    }
    Ok(())
}

/// Whether an item with this state expands its macro: only one that sets it does, and a value does not.
fn expands(state: State<'_>) -> bool
    ensures { result ≡ Walk.expands (plain_state state.entry) }
{
    match state {
        State::Set => true,
        State::Unset | State::Value(_) | State::Unspecified => false,
    }
}

/// Fills the slot of a task's attribute.
fn fill<'a>(task: Task<'a>, bodies: &[&[Item<'a>]], slots: &mut [Option<Answer<'a>>])
    requires bodies { length bodies.now ≡ length slots.old }
    requires task { task.item.attribute < length slots.old }
    ensures { plain_answers slots.new
        ≡ Walk.fill (plain_bodies bodies.now) (plain_task task.entry) (plain_answers slots.old) }
{
    let attribute = task.item.attribute;
    slots[attribute] = Some(Answer {
        origin: task.origin,
        assignment: task.item,
        is_macro: !bodies[attribute].is_empty(),
        cause: task.cause,
    });
}

impl<'s, 'b, 'a> SearchState<'s, 'b, 'a> {
    /// Fills the slot of a task's attribute, if it is empty. If the task's item sets a macro, the free items of the
    /// macro's body are pushed.
    fn process(
        &mut self,
        task: Task<'a>,
        slots: &mut [Option<Answer<'a>>],
    ) -> Result<(), AllocError>
        requires state { IsSearchState (length slots.old) self.old }
        requires task { task.item.attribute < length slots.old }
        ensures { OnOk result
            (ProcessesTask (plain_task task.entry) self.old self.new slots.old slots.new) }
    {
        if slots[task.item.attribute].is_some() {
            return Ok(());
        }
        fill(task, self.bodies, slots);
        if !expands(task.item.state) {
            return Ok(());
        }
        let body = self.bodies[task.item.attribute];
        let cause = Some(task.item.attribute);
        push_free(&mut self.stack, task.origin, cause, body, slots)?;
        Ok(())
    }

    /// Processes the items on the stack, until none is left or each wanted attribute has an answer.
    fn run_stack(&mut self, slots: &mut [Option<Answer<'a>>]) -> Result<(), AllocError>
        requires { IsSearchState (length slots.old) self.old }
        ensures { OnOk result
            (SearchesTasks
            (plain_tasks self.old.stack.items) self.old self.new slots.old slots.new) }
    {
        while !is_done(self.wanted, slots) {
            let Some(task) = self.stack.pop() else {
                return Ok(());
            };
            self.taken = self.taken.saturating_add(1);
            self.process(task, slots)?;
        }
        self.stack.clear();
        Ok(())
    }

    /// Processes the items of a line, the last first, if it matches. A line all of whose items have an answer is not
    /// tested.
    fn search_row(
        &mut self,
        row: &Row<'_, 'a>,
        slots: &mut [Option<Answer<'a>>],
    ) -> Result<(), AllocError>
        requires state { IsSearchState (length slots.old) self.old }
        requires in_row { PlainHaveSlots (length slots.old) row.now.items.now }
        requires empty { self.old.stack.items ≡ [] }
        ensures { OnOk result
            (SearchesTasks (line_tasks (plain_line row.now))
            self.old self.new slots.old slots.new) }
    {
        if !has_free(row.items, slots) {
            return Ok(());
        }
        if !row.is_match {
            return Ok(());
        }
        push_free(&mut self.stack, row.origin, None, row.items, slots)?;
        self.run_stack(slots)?;
        Ok(())
    }

    /// Processes the lines of a list, the last first, until each wanted attribute has an answer.
    fn search_rows(
        &mut self,
        rows: &[Row<'_, 'a>],
        slots: &mut [Option<Answer<'a>>],
    ) -> Result<(), AllocError>
        requires state { IsSearchState (length slots.old) self.old }
        requires in_rows { RowsHaveSlots (length slots.old) rows.now }
        requires empty { self.old.stack.items ≡ [] }
        ensures { OnOk result
            (SearchesTasks
            (list_tasks (plain_lines rows.now)) self.old self.new slots.old slots.new) }
    {
        for k in (0..rows.len()).rev() {
            if is_done(self.wanted, slots) {
                return Ok(());
            }
            self.search_row(&rows[k], slots)?;
        }
        Ok(())
    }
}

/// Processes all lists, the last first, and returns how many items were popped.
fn search_lists<'a>(
    alloc: Global,
    lists: &[&[Row<'_, 'a>]],
    bodies: &[&[Item<'a>]],
    wanted: &[usize],
    slots: &mut [Option<Answer<'a>>],
) -> Result<u128, AllocError>
    requires { IsInRange lists.now bodies.now wanted.now (length slots.old) }
    ensures { IfOk result
        (λ taken. Searches (plain_bodies bodies.now) wanted.now (tasks_of (plain_lists lists.now))
        (plain_answers slots.old) (plain_answers slots.new) 0 taken) }
{
    let mut state = SearchState {
        bodies,
        wanted,
        stack: Vec::new(alloc),
        taken: 0,
    };
    for k in (0..lists.len()).rev() {
        state.search_rows(lists[k], slots)?;
    }
    Ok(state.taken)
}

/// Fills the slots of attributes, until each wanted attribute has an answer, and returns how many items it popped. A
/// slot has the answer for the attribute with its index, if there is one; a slot that is filled stays as it is. The
/// last list is searched first, and in it the last line (gitattributes page: later ones take precedence).
///
/// # Errors
///
/// If memory runs out. All slots are empty then.
pub fn search<'a>(
    alloc: Global,
    lists: &[&[Row<'_, 'a>]],
    bodies: &[&[Item<'a>]],
    wanted: &[usize],
    slots: &mut [Option<Answer<'a>>],
) -> Result<u128, AllocError>
    requires { IsInRange lists.now bodies.now wanted.now (length slots.old) }

    // The slots are the cut of the only stable table, over the slots before.
    ensures searched { OnOk result (IsSearched (plain_setting lists.now bodies.now) wanted.now
        (plain_answers slots.old) (plain_answers slots.new)) }
    ensures joined { OnOk result
        (ExtendsCuts (plain_lists lists.now) (plain_bodies bodies.now) wanted.now
        (plain_answers slots.old) (plain_answers slots.new)) }

    // It pops no more items than there are, and no fewer than it fills slots.
    ensures most { IfOk result (λ taken. taken ≤ work_of (plain_setting lists.now bodies.now)) }
    ensures least { IfOk result (λ taken.
        newly_filled (plain_answers slots.old) (plain_answers slots.new)
        (length slots.new) ≤ taken) }
    ensures refused { OnErr result (plain_answers slots.new ≡ no_answers) }
{
    prove_eq!(bodies.len(), slots.len());
    match search_lists(alloc, lists, bodies, wanted, slots) {
        Ok(taken) => Ok(taken),
        Err(error) => {
            slots.fill(None);
            Err(error)
        }
    }
}
