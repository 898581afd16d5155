//! The texts of an answer, and how they are laid into a buffer.

ghost use Rattle.std.specs.Prelude.{◌≡◌, ◌⊎◌, ◌<◌, ◌++◌, [], drop, length, option_map, pos, unwrap_or};
ghost use Rattle.attr_glob.specs.Patterns.{mark_where};
ghost use Rattle.gix_attributes.specs.Matches.{match_view};
ghost use Rattle.yektrod.specs.inner.Laid.{IsLaidBehind};
ghost use Rattle.yektrod.specs.Rows.{pattern_text};
ghost use Rattle.yektrod.specs.RowsTold.{full_text, texts_told};
ghost use Rattle.yektrod.specs.Told.{text_told};
ghost use Rattle.yektrod.specs.Statuses.{status_done, status_no_room};
ghost use Rattle.yektrod.specs.inner.TextViews.{marked_text, texts_view};

use crate::answers::text_of;
use crate::sourced::SourcedEngine;
use crate::status::{DONE, NO_ROOM};
use attr_glob::pattern::Mode;
use bitflags::Flags;
use gix_attributes::search::Match;

/// The texts of an answer. One that is missing is empty.
#[derive(Clone, Copy)]
pub struct RowTexts<'a> {
    /// The name of the attribute.
    pub name: &'a [u8],
    /// The value.
    pub value: &'a [u8],
    /// The source of the list.
    pub source: &'a [u8],
    /// The pattern.
    pub pattern: MarkedText<'a>,
    /// The name of the macro whose body has the attribute.
    pub cause: &'a [u8],
}

impl<'a> RowTexts<'a> {
    /// The texts of an answer.
    #[inline(always)]
    pub fn of(held: &'a SourcedEngine, found: Match<'a>) -> RowTexts<'a>
        ensures { texts_view result ≡ texts_told held.now (match_view found.entry) }
    {
        RowTexts {
            name: text_or_empty(held, found, 0),
            value: text_or_empty(held, found, 1),
            source: text_or_empty(held, found, 2),
            pattern: MarkedText::of_pattern(found).unwrap_or(MarkedText::plain(b"")),
            cause: text_or_empty(held, found, 4),
        }
    }

    /// Lays the texts behind what is laid, one after the other, as far as they fit, and returns the length of all.
    #[inline(always)]
    pub fn lay(self, buffer: &mut [u8], at: usize) -> usize
        ensures { IsLaidBehind buffer.old at (full_text (texts_view self.entry)) buffer.new result }
    {
        let at = lay(buffer, at, self.name);
        let at = lay(buffer, at, self.value);
        let at = lay(buffer, at, self.source);
        let at = self.pattern.lay(buffer, at);
        lay(buffer, at, self.cause)
    }
}

/// A text with the marks of a pattern around it, as a file writes it. Any other text has none.
#[derive(Clone, Copy)]
pub struct MarkedText<'a> {
    is_negative: bool,
    is_absolute: bool,
    text: &'a [u8],
    must_be_dir: bool,
}

impl<'a> MarkedText<'a> {
    /// A text without marks.
    pub fn plain(text: &'a [u8]) -> MarkedText<'a>
        ensures { marked_text result ≡ text.now }
    {
        MarkedText {
            is_negative: false,
            is_absolute: false,
            text,
            must_be_dir: false,
        }
    }

    /// The text of the pattern of an answer, and none without a source.
    #[inline(always)]
    pub fn of_pattern(found: Match<'a>) -> Option<MarkedText<'a>>
        ensures { option_map marked_text result
            ≡ option_map (λ _. pattern_text (match_view found.entry))
            (match_view found.entry).origin.source }
    {
        found.location.source?;
        Some(MarkedText {
            is_negative: found.pattern.is_negative(),
            is_absolute: found.pattern.mode.contains(Mode::ABSOLUTE),
            text: &found.pattern.text,
            must_be_dir: found.pattern.mode.contains(Mode::MUST_BE_DIR),
        })
    }

    /// The length of the text in bytes.
    #[inline(always)]
    pub fn len(self) -> usize
        ensures { result ≡ length (marked_text self.entry) }
    {
        usize::from(self.is_negative)
            + usize::from(self.is_absolute)
            + self.text.len()
            + usize::from(self.must_be_dir)
    }

    /// Lays the text behind what is laid, as far as it fits, and returns the length of both.
    #[inline(always)]
    pub fn lay(self, buffer: &mut [u8], at: usize) -> usize
        ensures { IsLaidBehind buffer.old at (marked_text self.entry) buffer.new result }
    {
        let at = lay_mark(buffer, at, self.is_negative, b'!');
        let at = lay_mark(buffer, at, self.is_absolute, b'/');
        let at = lay(buffer, at, self.text);
        lay_mark(buffer, at, self.must_be_dir, b'/')
    }

    /// Copies the text to the front of `to`, if there is room for it, and says how long it is.
    pub fn copy(self, to: &mut [u8], needed: &mut usize) -> i32
        ensures done { result ≡ status_done → to.new
            ≡ marked_text self.entry ++ drop (length (marked_text self.entry)) to.old }
        ensures short { result ≡ status_no_room →
            length to.old < length (marked_text self.entry) }
        ensures failed { ¬ (result ≡ status_done) → to.new ≡ to.old }
        ensures needed { needed.new ≡ length (marked_text self.entry) }
        ensures status { (result ≡ status_done) ⊎ (result ≡ status_no_room) }
    {
        *needed = self.len();
        if to.len() < *needed {
            return NO_ROOM;
        }
        self.lay(to, 0);
        DONE
    }
}

#[inline(always)]
fn lay_mark(buffer: &mut [u8], at: usize, is_there: bool, mark: u8) -> usize
    ensures { IsLaidBehind buffer.old at (mark_where is_there mark) buffer.new result }
{
    if is_there {
        lay(buffer, at, &[mark])
    } else {
        at
    }
}

#[inline(always)]
fn text_or_empty<'a>(held: &'a SourcedEngine, found: Match<'a>, which: i32) -> &'a [u8]
    ensures { ¬ (which ≡ pos 3) → result.now
        ≡ unwrap_or (text_told held.now (match_view found.entry) which) [] }
{
    text_of(held, found, which).unwrap_or(b"")
}

// Lays a text behind what is laid, if there is room for it, and returns the length of both.
#[inline(always)]
fn lay(buffer: &mut [u8], at: usize, text: &[u8]) -> usize
    ensures { IsLaidBehind buffer.old at text.now buffer.new result }
{
    if text.is_empty() {
        return at;
    }
    let end = at.saturating_add(text.len());
    if end <= buffer.len() {
        buffer[at..end].copy_from_slice(text);
    }
    end
}
