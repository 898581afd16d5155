//! Keys of lines, and the codes by which they are sorted: 0 past the end of a text, 1 at the end of a whole text, and else
//! the value of a byte plus 2.

ghost use Rattle.std.specs.Prelude.{◌≡◌, ◌≢◌, ◌<◌, ◌≤◌, Bool, false, length, map, true, nat_eq, slice_get, slice_index, take};
ghost use Rattle.std.specs.Cmp.Lexicographic.{slice_cmp};
ghost use Rattle.std.specs.Bool.{OnFalse};
ghost use Rattle.std.specs.List.{starts_with};
ghost use Rattle.std.specs.Ordering.{nat_cmp};
ghost use Rattle.attr_keys.specs.inner.Cases.{byte_in_case, keys_seen, seen_keys, seen_text, text_standing};
ghost use Rattle.attr_keys.specs.shared.Codes.{codes_of, row_codes};
ghost use Rattle.attr_keys.specs.shared.Meeting.{content_met, directed, has_content, is_end, is_whole_row, key_content, text_has};
ghost use Rattle.attr_keys.specs.shared.Rows.{IsCommon, is_up_to};

use std::cmp::Ordering;

/// The text of a path that a key is compared with.
#[derive(Clone, Copy, Debug)]
pub enum Subject {
    /// The base name of the path: what follows its last slash.
    Name,
    /// The base name, from its last byte on.
    End,
    /// The whole path.
    Path,
    /// No text: the line may match any path.
    Anything,
    /// No text: the line matches no path.
    Nothing,
}

/// What a path needs if a line may match it: its subject begins with the key's text or, if `is_whole` is set, is this text. With
/// the subject `End` it ends with the text.
#[derive(Clone, Copy, Debug)]
pub struct Key<'a> {
    /// The text of a path that has to have the key.
    pub subject: Subject,
    /// The bytes that the subject begins with or, of an `End`, ends with.
    pub text: &'a [u8],
    /// Whether the subject has no other bytes.
    pub is_whole: bool,
}

/// The texts of a path, by which lines are looked up.
#[derive(Clone, Copy)]
pub struct Texts<'a> {
    /// The base name of a path.
    pub name: &'a [u8],
    /// The path.
    pub path: &'a [u8],
    /// Whether ASCII letters match regardless of case.
    pub fold: bool,
}

impl Texts<'_> {
    /// Whether the texts have the key.
    #[inline(always)]
    pub fn have(self, key: Key<'_>) -> bool
        ensures { result ≡ content_met
            self.entry.fold self.entry.name.now self.entry.path.now (key_content key.entry) }
    {
        match key.subject {
            Subject::Name => has_text(self.fold, false, self.name, key),
            Subject::End => has_text(self.fold, true, self.name, key),
            Subject::Path => has_text(self.fold, false, self.path, key),
            Subject::Anything => true,
            Subject::Nothing => false,
        }
    }
}

/// A line, by its key.
pub trait Keyed {
    ghost use Rattle.attr_keys.specs.shared.KeyContents.{KeyContent};
    ghost use Rattle.attr_keys.specs.shared.Meeting.{key_content};

    // What the key of the line says.
    ghost content: { Self → KeyContent };

    /// The key of the line, which borrows its text from there.
    fn key(&self) -> Key<'_>
        ensures { key_content result ≡ content self.now };
}

/// How texts are read.
#[derive(Clone, Copy)]
pub struct View {
    /// Whether letters are taken in lower case.
    pub fold: bool,
    /// Whether texts are read from their last bytes on.
    pub from_end: bool,
}

/// Lines, and how the texts of their keys are read.
#[derive_where(Clone, Copy)]
pub struct Keys<'a, K> {
    /// The lines.
    pub lines: &'a [K],
    /// How the texts of their keys are read.
    pub view: View,
}

// The text of the key of a line, as it stands there, and whether it is whole. Without such a line there is no text.
#[inline(always)]
fn parts<K: Keyed>(lines: &[K], row: usize) -> (&[u8], bool)
    ensures text { result.0.now ≡ text_standing (slice_get (map K.content lines.now) row) }
    ensures is_whole { result.1 ≡ is_whole_row (slice_get (map K.content lines.now) row) }
    ensures codes { (fold from_end : Bool) →
        codes_of fold (directed from_end result.0.now) result.1
        ≡ row_codes (seen_keys fold from_end (map K.content lines.now)) row }
{
    match lines.get(row) {
        Some(line) => {
            let key = line.key();
            (key.text, key.is_whole)
        }
        None => (&[], false),
    }
}

// A byte, in lower case if `fold` is set.
fn in_case(fold: bool, byte: u8) -> u8
    ensures { result ≡ byte_in_case fold byte }
{
    if fold {
        byte.to_ascii_lowercase()
    } else {
        byte
    }
}

// The byte at an offset, from the end if `from_end` is set.
#[inline(always)]
fn byte_at(from_end: bool, text: &[u8], offset: usize) -> u8
    requires { offset < length text.now }
    ensures { result ≡ slice_index (directed from_end text.now) offset }
{
    if from_end {
        text[text.len() - 1 - offset]
    } else {
        text[offset]
    }
}

/// The first code of a text, and 0 if it has none. A whole text has one more code than bytes.
#[inline(always)]
pub fn first_code(view: View, text: &[u8], is_whole: bool) -> u16
    ensures { result
        ≡ slice_index (codes_of view.fold (directed view.from_end text.now) is_whole) 0 }
{
    if !text.is_empty() {
        return u16::from(seen_byte(view, text, 0)) + 2;
    }
    if is_whole { 1 } else { 0 }
}

/// The first code of the key of a line, and 0 if there is no such line.
pub fn first_row_code<K: Keyed>(keys: Keys<'_, K>, row: usize) -> u16
    ensures { result ≡ slice_index (row_codes (keys_seen K.content keys.entry) row) 0 }
{
    let (text, is_whole) = parts(keys.lines, row);
    first_code(keys.view, text, is_whole)
}

/// How the codes of the keys of two lines are ordered.
pub fn row_order<K: Keyed>(keys: Keys<'_, K>, row: usize, other: usize) -> Ordering
    ensures { result ≡ slice_cmp nat_cmp (row_codes (keys_seen K.content keys.entry) row)
        (row_codes (keys_seen K.content keys.entry) other) }
{
    let (text, is_whole) = parts(keys.lines, row);
    let (other_text, other_is_whole) = parts(keys.lines, other);
    text_order(keys.view, text, other_text).then(is_whole.cmp(&other_is_whole))
}

/// Whether the codes of the key of a line are not after those of a text.
pub fn is_row_up_to<K: Keyed>(
    keys: Keys<'_, K>,
    row: usize,
    text: &[u8],
    is_text_whole: bool,
) -> bool
    ensures { result ≡ is_up_to
        (codes_of false (seen_text keys.entry.view text.now) is_text_whole)
        (row_codes (keys_seen K.content keys.entry) row) }
{
    let (part, is_whole) = parts(keys.lines, row);
    let order = text_order(keys.view, text, part);
    !order.then(is_text_whole.cmp(&is_whole)).is_lt()
}

/// The bytes of a text that the key of a line has in common with it, up to the first that differs. The text doesn't have the key.
pub fn common<'a, K: Keyed>(keys: Keys<'_, K>, row: usize, text: &'a [u8]) -> &'a [u8]
    requires { text_has (seen_text keys.view text.now)
        (slice_get (keys_seen K.content keys) row) ≡ false }
    ensures { IsCommon (seen_text keys.entry.view text.now)
        (row_codes (keys_seen K.content keys.entry) row)
        (seen_text keys.entry.view result.now) }
{
    let (part, _) = parts(keys.lines, row);
    cut(keys.view.from_end, text, common_len(keys.view, text, part))
}

// How many bytes a text and a part of a line have in common, as they are read.
fn common_len(view: View, text: &[u8], part: &[u8]) -> usize
    ensures text { result ≤ length text.now }
    ensures part { result ≤ length part.now }
    ensures same { take result (seen_text view text.now)
        ≡ take result (seen_text view part.now) }
    ensures apart { result < length text.now → result < length part.now
        → slice_index (seen_text view text.now) result
        ≢ slice_index (seen_text view part.now) result }
{
    let mut len = 0;
    while len < text.len() && len < part.len() {
        if seen_byte(view, text, len) != seen_byte(view, part, len) {
            return len;
        }
        len += 1;
    }
    len
}

// How two texts are ordered, as they are read.
#[inline(always)]
fn text_order(view: View, text: &[u8], other: &[u8]) -> Ordering
    ensures { result ≡ slice_cmp nat_cmp (seen_text view text.now) (seen_text view other.now) }
{
    if !view.fold && !view.from_end {
        return text.cmp(other);
    }
    seen_order(view, text, other)
}

// The same, byte by byte.
#[inline(never)]
fn seen_order(view: View, text: &[u8], other: &[u8]) -> Ordering
    ensures { result ≡ slice_cmp nat_cmp (seen_text view text.now) (seen_text view other.now) }
{
    for offset in 0..text.len().min(other.len()) {
        let byte = seen_byte(view, text, offset);
        let other_byte = seen_byte(view, other, offset);
        if byte != other_byte {
            return byte.cmp(&other_byte);
        }
    }
    text.len().cmp(&other.len())
}

// The byte at an offset of a text, as it is read.
#[inline(always)]
fn seen_byte(view: View, text: &[u8], offset: usize) -> u8
    requires { offset < length text.now }
    ensures { result ≡ slice_index (seen_text view text.now) offset }
{
    in_case(view.fold, byte_at(view.from_end, text, offset))
}

/// Whether the key of a line begins with that of another one. It may also say so of another key.
pub fn may_begin_with<K: Keyed>(keys: Keys<'_, K>, row: usize, other: usize) -> bool
    ensures { OnFalse result (starts_with nat_eq (row_codes (keys_seen K.content keys.entry) row)
        (row_codes (keys_seen K.content keys.entry) other) ≡ false) }
{
    let (text, _) = parts(keys.lines, row);
    let (other_text, _) = parts(keys.lines, other);
    has_part(keys.view, text, other_text)
}

// So many first bytes of a text, or last ones.
#[inline(always)]
fn cut(from_end: bool, text: &[u8], len: usize) -> &[u8]
    requires { len ≤ length text.now }
    ensures { directed from_end result.now ≡ take len (directed from_end text.now) }
{
    if from_end {
        &text[text.len() - len..]
    } else {
        &text[..len]
    }
}

/// Whether a text has the key of a line.
#[inline(always)]
pub fn has_row_key<K: Keyed>(keys: Keys<'_, K>, row: usize, text: &[u8]) -> bool
    ensures { result ≡ text_has (seen_text keys.entry.view text.now)
        (slice_get (keys_seen K.content keys.entry) row) }
{
    let (part, is_whole) = parts(keys.lines, row);
    if is_whole && part.len() != text.len() {
        return false;
    }
    has_part(keys.view, text, part)
}

// Whether a text has a key, as both are read. A key of an end is read from its last byte on.
#[inline(always)]
fn has_text(fold: bool, from_end: bool, text: &[u8], key: Key<'_>) -> bool
    requires { is_end key.subject ≡ from_end }
    ensures { result ≡ has_content fold (directed from_end text.now) (key_content key.entry) }
{
    if key.is_whole && key.text.len() != text.len() {
        return false;
    }
    has_part(View { fold, from_end }, text, key.text)
}

// Whether a text begins with another one or, if it is read from its end, ends with it, as both are read.
#[inline(always)]
fn has_part(view: View, text: &[u8], part: &[u8]) -> bool
    ensures { result ≡ starts_with nat_eq (seen_text view text.now) (seen_text view part.now) }
{
    if text.len() < part.len() {
        return false;
    }
    let own = cut(view.from_end, text, part.len());
    if view.fold {
        own.eq_ignore_ascii_case(part)
    } else {
        part == own
    }
}
