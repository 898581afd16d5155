//! An answer as a row of numbers.

ghost use Rattle.std.specs.Prelude.{◌≡◌, is_some, option_map, unwrap_or, if◌then◌else◌};
ghost use Rattle.gix_attributes.specs.Matches.{match_view};
ghost use Rattle.yektrod.specs.RowsTold.{none, row_with};
ghost use Rattle.yektrod.specs.Sourced.{list_number};
ghost use Rattle.yektrod.specs.inner.TextViews.{texts_view};

use crate::answers::number_of_state;
use crate::row_texts::RowTexts;
use crate::sourced::list_index;
use gix_attributes::search::{AttributeId, Match, MatchKind, MatchLocation};

/// What a number is that is missing.
pub const NONE: usize = usize::MAX;

/// An answer. It has no padding and no `bool`, so any bytes are a row.
#[repr(C)]
#[derive(Clone, Copy, Default)]
pub struct Row {
    /// The state: 0 if the attribute is unspecified, 1 if it is set, 2 if it is unset, 3 if it has a value.
    pub state: i32,
    /// The sum of 1 if the attribute is a macro, 2 if the answer has a source, and 4 if the body of a macro has the attribute.
    pub flags: u32,
    /// The number of the line, from 1, and 0 without a source.
    pub line: usize,
    /// The index of the list that decides, from 0, and `NONE` without a source.
    pub list: usize,
    /// The number of the attribute, and `NONE` if the selected text is no known name.
    pub name: usize,
    /// The number of the macro whose body has the attribute, and `NONE` without one.
    pub cause: usize,
    /// Where its texts begin in the buffer, in bytes.
    pub at: usize,
    /// The length of the name in bytes.
    pub name_length: usize,
    /// The length of the value, and 0 without one.
    pub value_length: usize,
    /// The length of the source, and 0 without one.
    pub source_length: usize,
    /// The length of the pattern, and 0 without a source.
    pub pattern_length: usize,
    /// The length of the name of the macro whose body has the attribute, and 0 without one.
    pub cause_length: usize,
}

impl Row {
    /// The row of an answer for the attribute with this number, whose texts begin there in the buffer.
    #[inline(always)]
    pub(crate) fn of(
        found: Match<'_>,
        number: Option<AttributeId>,
        texts: RowTexts<'_>,
        at: usize,
    ) -> Row
        ensures { result ≡ row_with (texts_view texts.entry) (option_map (λ id. id.0) number) at
            (match_view found.entry) }
    {
        let cause = found.kind.source_id();
        Row {
            state: number_of_state(found.assignment.state),
            flags: u32::from(matches!(found.kind, MatchKind::Macro { .. }))
                + 2 * u32::from(found.location.source.is_some())
                + 4 * u32::from(cause.is_some()),
            line: line_of(found.location),
            list: list_of(found.location),
            name: number_or_none(number),
            cause: number_or_none(cause),
            at,
            name_length: texts.name.len(),
            value_length: texts.value.len(),
            source_length: texts.source.len(),
            pattern_length: texts.pattern.len(),
            cause_length: texts.cause.len(),
        }
    }
}

#[inline(always)]
pub(crate) fn line_of(location: MatchLocation<'_>) -> usize
    ensures { result
        ≡ (if is_some location.entry.source then location.entry.sequence_number else 0) }
{
    if location.source.is_some() {
        location.sequence_number
    } else {
        0
    }
}

#[inline(always)]
fn list_of(location: MatchLocation<'_>) -> usize
    ensures { result ≡ unwrap_or (option_map (λ label. list_number label.now)
        location.entry.source) none }
{
    location.source.map_or(NONE, list_index)
}

#[inline(always)]
fn number_or_none(id: Option<AttributeId>) -> usize
    ensures { result ≡ unwrap_or (option_map (λ id. id.0) id) none }
{
    id.map_or(NONE, |id| id.0)
}
