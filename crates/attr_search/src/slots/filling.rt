//! Filling slots by the items of a line that matches, and by the bodies of the macros that they set.

ghost use Rattle.std.specs.Prelude.{◌≡◌, ◌<◌, ◌+◌, false, is_some, length, None, OnErr, OnOk, Some};
ghost use Rattle.attr_table.specs.shared.Walk;
ghost use Rattle.attr_table.specs.shared.Walk.{tasks_in};
ghost use Rattle.attr_search.specs.Settings.{HaveSlots};
ghost use Rattle.attr_search.specs.Slots.{table_items, table_state};
ghost use Rattle.attr_search.specs.shared.SlotContents.{open_slots};
ghost use Rattle.attr_search.specs.shared.Slotted.{bodies_view};
ghost use Rattle.attr_search.specs.inner.Filling.{Fills, FillsItem, own_item};
ghost use Rattle.attr_search.specs.inner.Pending.{IsInside, end_of_body, line_origin};
ghost use Rattle.attr_search.specs.inner.Searched.{SearchesPart};
ghost use Rattle.attr_search.specs.inner.SlotsView.{BodiesFit};

use crate::answer_parts::{MatchRef, keep_item};
use crate::bodies::body_of;
use crate::item_index::ItemIndex;
use crate::matching_line::{AnsweringLine, MatchingLine};
use crate::slots::AnswerSlots;
use attr_lists::types::Metadata;
use attr_text::State;
use std::alloc::{AllocError, Global};
use std::rc::Rc;

impl AnswerSlots {
    /// Fills the free slots of a line's items, the last item first, and of the items of the macros that they set.
    /// Macros are those of the gitattributes page, "Defining macro attributes". The stack is a buffer: of the items that are
    /// expanded, each in its line or body.
    ///
    /// # Errors
    ///
    /// If memory runs out. Some of the slots may be filled then.
    pub fn fill_line(
        &mut self,
        alloc: Global,
        line: MatchingLine<'_>,
        stack: &mut Vec<ItemIndex>,
    ) -> Result<(), AllocError>
        requires { HaveSlots (length self.old.answers) line.items.now }
        ensures { SearchesPart result (Fills line.entry.items.now
            (tasks_in (line_origin line.entry) None (table_items line.entry.items.now)))
            self.old self.new }
    {
        self.begin_line(line)?;
        stack.clear();
        let mut at = ItemIndex {
            cause: None,
            index: line.items.len(),
        };
        while !self.is_done() {
            let items = at.items(line.items, self.bodies());
            let Some(index) = self.last_free(items, at.index) else {
                let Some(top) = stack.pop() else {
                    return Ok(());
                };
                at = top;
                continue;
            };
            let item = &items[index];
            let (number, is_expanded) = (item.id.0, is_set(&item.inner.state));
            at.index = index;
            self.fill(alloc, line, at, number)?;
            if let Some(body) = end_of_body(self.bodies(), number, is_expanded) {
                stack.push(at)?;
                at = body;
            }
        }
        Ok(())
    }

    // Keeps a line, from which comes what is filled from now on.
    fn begin_line(&mut self, line: MatchingLine<'_>) -> Result<(), AllocError>
        ensures begun { OnOk result (self.new ≡ record self.old
            { line = Some (line_origin line.entry); kept = self.old.kept + 1 }) }
        ensures refused { OnErr result (self.new ≡ self.old) }
        ensures bodies { OnOk result (BodiesFit (length self.new.answers) self.new.bodies) }
    {
        let index = line.index.clone()?;
        let line = line.line;
        self.lines.push(AnsweringLine { index, line })?;
        Ok(())
    }

    // Fills the free slot of an attribute with an item of the line, or of a macro's body to which the line expands.
    fn fill(
        &mut self,
        alloc: Global,
        line: MatchingLine<'_>,
        item: ItemIndex,
        attribute: usize,
    ) -> Result<(), AllocError>
        requires inside { IsInside line.items.now self.old.bodies item }
        requires own { attribute ≡ (own_item line item self.old).id.0 }
        requires within { attribute < length self.old.answers }
        requires free { is_some (open_slots self.old attribute) ≡ false }
        requires line { self.old.line ≡ Some (line_origin line) }
        ensures filled { OnOk result (FillsItem line.entry item self.old self.new) }
        ensures refused { OnErr result (self.new ≡ self.old) }
    {
        self.filled.reserve(1)?;
        let index = keep_item(alloc, &mut self.items, line.items, item)?;
        let line = self.lines.len() - 1;
        let at = ItemIndex {
            cause: item.cause,
            index,
        };
        self.is_ordered = false;
        self.filled.push_reserved(attribute);
        self.remaining -= usize::from(self.is_wanted[attribute]);
        self.slots[attribute] = Some(MatchRef { line, at });
        self.is_open[attribute] = false;
        Ok(())
    }
}

// Only an attribute that is set is expanded: a value sets none.
fn is_set(state: &State) -> bool
    ensures { result ≡ Walk.expands (table_state state.now) }
{
    match state {
        State::Set => true,
        State::Unset | State::Value(_) | State::Unspecified => false,
    }
}

// The end of the body that is to be processed next: that of the attribute with this number, if the attribute is expanded and the
// body has items.
fn end_of_body(
    bodies: &[Option<Rc<Metadata>>],
    number: usize,
    is_expanded: bool,
) -> Option<ItemIndex>
    requires { number < length bodies.now }
    ensures { result ≡ end_of_body (bodies_view bodies.now) number is_expanded }
{
    let len = body_of(bodies, number).len();
    if !is_expanded || len == 0 {
        return None;
    }
    Some(ItemIndex {
        cause: Some(number),
        index: len,
    })
}
