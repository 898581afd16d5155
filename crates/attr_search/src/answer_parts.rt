//! The parts of answers: lines that have answered, their items that are kept, and the bodies of macros. What is kept has an index
//! among those of its kind, from 0.

ghost use Rattle.std.specs.Prelude.{◌≡◌, ◌<◌, ⊤, IfOk, MatchOption, OnErr, length};
ghost use Rattle.attr_search.specs.Matches.{cause_of, is_macro_kind, match_view};
ghost use Rattle.attr_search.specs.inner.AnswerRefs.{IsMatchRef, KeepsItem, match_by_ref};
ghost use Rattle.attr_search.specs.inner.PartsView.{origins, parts_view};
ghost use Rattle.attr_search.specs.inner.Pending.{IsInside, indexed_item};
ghost use Rattle.attr_search.specs.shared.Slotted.{bodies_view};

use crate::bodies::body_at;
use crate::item_index::ItemIndex;
use crate::matching_line::AnsweringLine;
use attr_lists::types::{
    AttributeId, Match, MatchKind, MatchLocation, Metadata, TrackedAssignment,
};
use std::alloc::{AllocError, Global};
use std::rc::Rc;

/// Where the parts of an answer are.
#[derive(Clone, Copy)]
pub struct MatchRef {
    /// The index of the line, among those that have answered.
    pub line: usize,
    /// The index of the item: in the body of the macro that expanded to it, or among the lines' items that are kept.
    pub at: ItemIndex,
}

impl MatchRef {
    /// The item that answers.
    pub fn item<'a>(
        self,
        items: &'a [TrackedAssignment],
        bodies: &'a [Option<Rc<Metadata>>],
    ) -> &'a TrackedAssignment
        requires { IsInside items.now (bodies_view bodies.now) self.at }
        ensures { result.now ≡ indexed_item items.now (bodies_view bodies.now) self.at }
    {
        &self.at.items(items, bodies)[self.at.index]
    }

    /// The match with these parts.
    #[inline(always)]
    pub fn as_match<'a>(
        self,
        lines: &'a [AnsweringLine],
        items: &'a [TrackedAssignment],
        bodies: &'a [Option<Rc<Metadata>>],
    ) -> Match<'a>
        requires { IsMatchRef (parts_view lines.now items.now bodies.now) self }
        ensures { match_view result
            ≡ match_by_ref (parts_view lines.now items.now bodies.now) self }
    {
        let answered = &lines[self.line];
        let index = answered.index.as_ref();
        let line = &index.lines[answered.line];
        let item = self.item(items, bodies);
        let is_macro = !body_at(bodies, item.id.0).is_empty();
        Match {
            pattern: &line.pattern,
            assignment: item.inner.as_ref(),
            kind: kind_of(is_macro, self.at.cause),
            location: MatchLocation {
                source: index.source.as_deref(),
                sequence_number: line.number,
            },
        }
    }
}

// Whether a matched attribute is a macro, and which macro expanded to it.
fn kind_of(is_macro: bool, cause: Option<usize>) -> MatchKind
    ensures kind { is_macro_kind result ≡ is_macro }
    ensures cause { cause_of result ≡ cause }
{
    let cause = match cause {
        Some(number) => Some(AttributeId(number)),
        None => None,
    };
    if is_macro {
        MatchKind::Macro {
            parent_macro_id: cause,
        }
    } else {
        MatchKind::Attribute { macro_id: cause }
    }
}

/// Keeps the item at an index, and tells its index then. An item of a body stays there. One of the line is copied, and shares its texts.
///
/// # Errors
///
/// If memory runs out. Nothing changes then.
pub fn keep_item(
    alloc: Global,
    items: &mut Vec<TrackedAssignment>,
    line: &[TrackedAssignment],
    at: ItemIndex,
) -> Result<usize, AllocError>
    requires { MatchOption at.cause (at.index < length line.now) (λ _. ⊤) }
    ensures kept { IfOk result (KeepsItem line.now at items.old.items items.new.items) }
    ensures refused { OnErr result (items.new.items ≡ items.old.items) }
{
    if at.cause.is_some() {
        return Ok(at.index);
    }
    let own = line[at.index].clone(alloc)?;
    let index = items.len();
    items.push(own)?;
    Ok(index)
}

/// The same lines, each of which shares its index once more.
///
/// # Errors
///
/// If memory runs out.
pub fn copy_of_lines(
    alloc: Global,
    lines: &[AnsweringLine],
) -> Result<Vec<AnsweringLine>, AllocError>
    ensures { IfOk result (λ copy. origins copy.items ≡ origins lines.now) }
{
    let mut copy = Vec::with_capacity(alloc, lines.len())?;
    for answered in lines {
        copy.push(AnsweringLine {
            index: answered.index.clone()?,
            line: answered.line,
        })?;
    }
    Ok(copy)
}

/// Copies of items, which share their texts with these.
///
/// # Errors
///
/// If memory runs out.
pub fn copy_of_items(
    alloc: Global,
    items: &[TrackedAssignment],
) -> Result<Vec<TrackedAssignment>, AllocError>
    ensures { IfOk result (λ copy. copy.items ≡ items.now) }
{
    let mut copy = Vec::with_capacity(alloc, items.len())?;
    for item in items {
        copy.push(item.clone(alloc)?)?;
    }
    Ok(copy)
}
