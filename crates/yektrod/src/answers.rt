//! The answers to the last question.

ghost use Rattle.std.specs.Prelude.{◌≡◌, ◌⊎◌, ◌↔◌, ◌<◌, ◌++◌, MatchOption, None, Some, drop, length, option_map, pos};
ghost use Rattle.gix_attributes.specs.Matches.{match_view};
ghost use Rattle.gix_attributes.specs.TextViews.{state_view};
ghost use Rattle.yektrod.specs.Held.{answer_held, answer_in, held, sourced, text_held, text_in};
ghost use Rattle.yektrod.specs.Rows.{answer_row, state_number};
ghost use Rattle.yektrod.specs.Sourced.{told_content};
ghost use Rattle.yektrod.specs.Told.{text_told};
ghost use Rattle.yektrod.specs.inner.TextViews.{marked_text};
ghost use Rattle.yektrod.specs.Statuses.{status_done, status_missing, status_no_room, status_shut};

use crate::row::line_of;
use crate::row_texts::MarkedText;
use crate::slot::Slot;
use crate::sourced::SourcedEngine;
use crate::status::{DONE, MISSING, SHUT};
use gix_attributes::StateRef;
use gix_attributes::search::{Match, MatchKind};

/// An answer, without its texts.
#[repr(C)]
#[derive(Clone, Copy)]
pub struct AnswerRow {
    /// The state: 0 if the attribute is unspecified, 1 if it is set, 2 if it is unset, 3 if it has a value.
    pub state: i32,
    /// Whether the attribute is a macro.
    pub is_macro: bool,
    /// Whether the answer has a source: the line of a file.
    pub has_source: bool,
    /// Whether the body of a macro has the attribute.
    pub has_cause: bool,
    /// The number of the line, from 1, and 0 without a source.
    pub line: usize,
}

/// Tells an answer by its number, from 0.
#[unsafe(no_mangle)]
pub extern "C" fn yektrod_answer(slot: &mut Slot, i: usize, answer: &mut AnswerRow) -> i32
    ensures done { result ≡ status_done →
        option_map answer_row (answer_held slot.old i) ≡ Some answer.new }
    ensures failed { ¬ (result ≡ status_done) → answer.new ≡ answer.old }
    ensures same { sourced slot.new ≡ sourced slot.old }
    ensures shut { result ≡ status_shut ↔ (held slot.old ≡ None) }
    ensures missing { result ≡ status_missing ↔ (¬ (held slot.old ≡ None)
        × (answer_held slot.old i ≡ None)) }
    ensures status { (result ≡ status_done) ⊎ (result ≡ status_shut) ⊎ (result ≡ status_missing) }
{
    if !slot.live {
        return SHUT;
    }
    match row_of(slot.handle.engine(), i) {
        Some(row) => {
            *answer = row;
            DONE
        }
        None => MISSING,
    }
}

/// Copies a text of an answer to the front of `to`, and says how long it is. `which` is 0 for the name, 1 for the value, 2 for the
/// source, 3 for the pattern, and 4 for the macro whose body has the attribute.
#[unsafe(no_mangle)]
pub extern "C" fn yektrod_text(
    slot: &mut Slot,
    i: usize,
    which: i32,
    to: &mut [u8],
    needed: &mut usize,
) -> i32
    ensures done { result ≡ status_done → MatchOption (text_held slot.old i which) ⊥
        (λ text. to.new ≡ text ++ drop (length text) to.old) }
    ensures short { result ≡ status_no_room → MatchOption (text_held slot.old i which) ⊥
        (λ text. length to.old < length text) }
    ensures needed { (result ≡ status_done) ⊎ (result ≡ status_no_room) →
        option_map length (text_held slot.old i which) ≡ Some needed.new }
    ensures kept { ¬ ((result ≡ status_done) ⊎ (result ≡ status_no_room)) →
        needed.new ≡ needed.old }
    ensures failed { ¬ (result ≡ status_done) → to.new ≡ to.old }
    ensures same { sourced slot.new ≡ sourced slot.old }
    ensures shut { result ≡ status_shut ↔ (held slot.old ≡ None) }
    ensures missing { result ≡ status_missing ↔ (¬ (held slot.old ≡ None)
        × (text_held slot.old i which ≡ None)) }
    ensures status { (result ≡ status_done) ⊎ (result ≡ status_shut) ⊎ (result ≡ status_missing)
        ⊎ (result ≡ status_no_room) }
{
    if !slot.live {
        return SHUT;
    }
    match text_at(slot.handle.engine(), i, which) {
        Some(text) => text.copy(to, needed),
        None => MISSING,
    }
}

// A text of an answer, if there is such an answer, and if it has the text.
fn text_at<'a>(held: &'a SourcedEngine, i: usize, which: i32) -> Option<MarkedText<'a>>
    ensures { option_map marked_text result ≡ text_in (told_content held.now) i which }
{
    let found = held.labelled().answer(i)?;
    if which == 3 {
        return MarkedText::of_pattern(found);
    }
    Some(MarkedText::plain(text_of(held, found, which)?))
}

fn row_of(held: &SourcedEngine, i: usize) -> Option<AnswerRow>
    ensures { result ≡ option_map answer_row (answer_in (told_content held.now) i) }
{
    match held.labelled().answer(i) {
        Some(found) => Some(row_of_match(found)),
        None => None,
    }
}

fn row_of_match(found: Match<'_>) -> AnswerRow
    ensures { result ≡ answer_row (match_view found.entry) }
{
    AnswerRow {
        state: number_of_state(found.assignment.state),
        is_macro: matches!(found.kind, MatchKind::Macro { .. }),
        has_source: found.location.source.is_some(),
        has_cause: found.kind.source_id().is_some(),
        line: line_of(found.location),
    }
}

#[inline(always)]
pub(crate) fn number_of_state(state: StateRef<'_>) -> i32
    ensures { result ≡ state_number (state_view state.entry) }
{
    match state {
        StateRef::Unspecified => 0,
        StateRef::Set => 1,
        StateRef::Unset => 2,
        StateRef::Value(_) => 3,
    }
}

// A text of an answer of the engine, if it is not the pattern, and if the answer has it.
#[inline(always)]
pub(crate) fn text_of<'a>(held: &'a SourcedEngine, found: Match<'a>, which: i32) -> Option<&'a [u8]>
    ensures { ¬ (which ≡ pos 3) → option_map (λ text. text.now) result
        ≡ text_told held.now (match_view found.entry) which }
{
    match which {
        0 => Some(found.assignment.name.as_str().as_bytes()),
        1 => Some(found.assignment.state.as_bstr()?.as_bytes()),
        2 => Some(held.source(found.location.source?)),
        4 => Some(held.labelled().name_of(found.kind.source_id()?)?.as_bytes()),
        _ => None,
    }
}
