//! The lines of an attributes file, and the assignments in a line.
ghost use Rattle.std.specs.Prelude.{◌≡◌, ◌<◌, ◌≤◌, List, [], ◌∷◌, Option, Some, MatchOption, OnSome, IfNone, IfSome, is_none, IfOk, not, ◌||◌, length, take, position};
ghost use Rattle.std.specs.Iterator.{YieldsFirstBy, item_count, at_most};
ghost use Rattle.std.specs.Cow.{cow_slice_items};
ghost use Rattle.std.specs.List.{position_or_len, starts_with};
ghost use Rattle.std.specs.Option.{ForSome};
ghost use Rattle.std.specs.Result.{result_map_both};
ghost use Rattle.bstr.specs.BStr.{bstr_bytes};
ghost use Rattle.attr_text.specs.Items.{is_blank, is_equals, after_blanks, checked_name, with_state, state_from, words, item_of, items_of};
ghost use Rattle.attr_lists.specs.LineResults.{byte_order_marks, without_front, is_macro_definition, macro_of, target_of, parts_of, result_of, results_of};
ghost use Rattle.attr_text.specs.Names.{is_reserved_name};
ghost use Rattle.attr_text.specs.TextViews.{name_text, state_view};
ghost use Rattle.attr_lists.specs.LineViews.{refusal_view, item_view, target_view, line_view, IsOver, Yields};
ghost use Rattle.attr_lists.specs.inner.ParseSteps.{IsFirst, Reports, ReportsKind, ReadsLine, ReadsFirst};

use attr_glob::Pattern;
use attr_glob::quote::ansi_c::{UndoError, undo};
use attr_text::state::ValueRef;
use attr_text::{AssignmentRef, Name, NameRef, StateRef, name};
use bstr::{BStr, ByteSlice};
use std::alloc::{AllocError, Global};
use std::borrow::CowSlice;
use std::marker::Model;

/// The target of a line's assignments.
#[derive(PartialEq, Eq, PartialOrd, Ord, Hash, Debug, Drop)]
pub enum Kind {
    /// The paths that the pattern matches.
    Pattern(Pattern),
    /// The macro with this name, which the line defines.
    Macro(Name),
}

/// Why a line of an attributes file has no assignments.
#[derive(Debug, Drop, thiserror::Error)]
pub enum Error {
    /// The line defines a macro, and its name is invalid or reserved (gitattributes, "Defining macro attributes").
    #[error("Macro in line {line} has an invalid name")]
    MacroName {
        /// The number of the line, from 1.
        line: usize,
        /// The bytes of the name, after `[attr]`.
        input: Vec<u8>,
    },
    /// The line's pattern begins with `!`, which is forbidden (gitattributes).
    #[error("Line {line} has a negative pattern, for literal characters use \\!")]
    NegativePattern {
        /// The number of the line, from 1.
        line: usize,
        /// The pattern text, with its `!`.
        input: Vec<u8>,
    },
    /// Memory ran out. The iterator ends after this.
    #[error("out of memory")]
    OutOfMemory,
}

impl From<AllocError> for Error {
    ghost use Rattle.attr_lists.specs.declared.parse.Error.TheVariants.{OutOfMemory};

    ghost from_gives = { λ _ e. e ≡ OutOfMemory };

    fn from(_refused: AllocError) -> Error {
        Error::OutOfMemory
    }
}

impl Kind {
    /// A copy with a pattern or a name of its own.
    ///
    /// # Errors
    ///
    /// If memory runs out.
    pub fn clone(&self, alloc: Global) -> Result<Kind, AllocError>
        ensures { IfOk result (λ copy. target_view copy ≡ target_view self.now) }
    {
        match self {
            Kind::Pattern(pattern) => Ok(Kind::Pattern(pattern.clone(alloc)?)),
            Kind::Macro(name) => Ok(Kind::Macro(name.clone(alloc)?)),
        }
    }
}

/// Why an item of a line is no assignment.
#[derive(Debug, Drop, thiserror::Error)]
pub enum AttrError<'a> {
    /// The name, which is invalid (gitattributes).
    #[error("Attribute has non-ascii characters or starts with '-'")]
    InvalidName(BStr<'a>),
    /// The name, which begins with `builtin_` and so is reserved for built-in attributes (gitattributes).
    #[error("Attribute name uses the reserved 'builtin_' prefix")]
    Reserved(BStr<'a>),
}

/// An iterator over the items in a text: for each word its assignment, or why it is none. Spaces, tabs and carriage
/// returns separate words. The iterator continues after an error, and takes no memory.
#[derive(Drop)]
pub struct Iter<'a> {
    text: &'a [u8],
}

/// An iterator over the lines of an attributes file: for each its target, its items and its number from 1, or why it is
/// refused. It continues after a refused line, and ends after memory ran out.
#[derive(Drop)]
pub struct Lines<'a> {
    lines: bstr::Lines<'a>,
    line_no: usize,
    alloc: Global,
}

impl<'a> Model for Iter<'a> {
    ghost use Rattle.std.specs.Prelude.{List, Result};
    ghost use Rattle.attr_text.specs.Items.{Refusal, items_of};
    ghost use Rattle.attr_text.specs.declared.assignment.Assignment.{Assignment};

    ghost Value = { List (Result Assignment Refusal) };

    ghost view = { λ s. items_of s.text.now };
}

impl<'a> Iter<'a> {
    /// The items in `input`. Their names and values are slices of it.
    pub fn new(input: BStr<'a>) -> Iter<'a>
        ensures { result ≡ items_of (bstr_bytes input.entry) }
    {
        Iter {
            text: input.as_bytes(),
        }
    }

    /// The name and the state of the next item. The name is not checked.
    pub(crate) fn next_parts(&mut self) -> Option<(&'a [u8], StateRef<'a>)>
        ensures none { IfNone result ((self.old ≡ []) × (self.new ≡ [])) }
        ensures some { IfSome result (λ parts. self.old
            ≡ with_state (checked_name parts.0.now) (state_view parts.1) ∷ self.new) }
    {
        match first_word(self.text) {
            None => {
                self.text = b"";
                None
            }
            Some((word, equals, rest)) => {
                self.text = rest;
                Some(parts_of(word, equals))
            }
        }
    }
}

impl<'a> Iterator for Iter<'a> {
    type Item = Result<AssignmentRef<'a>, AttrError<'a>>;

    ghost next_gives = { YieldsFirstBy item_view (λ items. items) };

    ghost remaining = { item_count (λ items. items) };

    fn next(&mut self) -> Option<Result<AssignmentRef<'a>, AttrError<'a>>> {
        let (name, state) = self.next_parts()?;
        Some(assign(name, state))
    }
}

// The first word of a text, the offset of the first `=` in the word, and the text after it.
#[tactic(auto, using(crate::proofs::WordRules::words))]
fn first_word<'a>(text: &'a [u8]) -> Option<(&'a [u8], Option<usize>, &'a [u8])>
    ensures word { MatchOption result (words text.now ≡ []) (λ p. words text.now
        ≡ p.0.now ∷ words p.2.now) }
    ensures equals { IfSome result (λ p. p.1 ≡ position is_equals p.0.now) }
{
    let text = after_blanks(text);
    if text.is_empty() {
        return None;
    }
    let (end, equals) = first_end(text);
    let (word, rest) = text.split_at(end);
    Some((word, equals, rest))
}

// The offset of the first blank, and that of the first `=` before it. Each byte is looked at once.
#[tactic(auto, using(crate::proofs::WordRules::word_ends))]
fn first_end(text: &[u8]) -> (usize, Option<usize>)
    ensures end { result.0 ≡ position_or_len is_blank text.now }
    ensures equals { result.1 ≡ position is_equals (take result.0 text.now) }
    ensures inside { result.0 ≤ length text.now }
{
    let stop = first_stop(text);
    let end = stop + first_blank(&text[stop..]);
    if stop < end {
        (end, Some(stop))
    } else {
        (end, None)
    }
}

// The offset of the first byte at which a name ends: a blank, or the `=` before a value.
fn position_of_stop(text: &[u8]) -> Option<usize>
    ensures { result ≡ position (λ b. is_blank b || is_equals b) text.now }
{
    text.iter().position(|b| is_blank(*b) || *b == b'=')
}

#[tactic(auto, using(attr_text::proofs::ForCallers::offset_of_first, attr_text::proofs::ForCallers::offset_in_text))]
fn first_stop(text: &[u8]) -> usize
    ensures { IsFirst (λ b. is_blank b || is_equals b) text.now result }
{
    position_of_stop(text).unwrap_or(text.len())
}

// Whether the byte separates the items of a line.
fn is_blank(b: u8) -> bool
    ensures { result ≡ is_blank b }
{
    b == b' ' || b == b'\t' || b == b'\r'
}

fn position_of_other(text: &[u8]) -> Option<usize>
    ensures { result ≡ position (λ b. not (is_blank b)) text.now }
{
    text.iter().position(|b| !is_blank(*b))
}

fn position_of_blank(text: &[u8]) -> Option<usize>
    ensures { result ≡ position is_blank text.now }
{
    text.iter().position(|b| is_blank(*b))
}

#[tactic(auto, using(attr_text::proofs::ForCallers::offset_of_first, attr_text::proofs::ForCallers::offset_in_text))]
fn first_not_blank(text: &[u8]) -> usize
    ensures { IsFirst (λ b. not (is_blank b)) text.now result }
{
    position_of_other(text).unwrap_or(text.len())
}

#[tactic(auto, using(attr_text::proofs::ForCallers::offset_of_first, attr_text::proofs::ForCallers::offset_in_text))]
fn first_blank(text: &[u8]) -> usize
    ensures { IsFirst is_blank text.now result }
{
    position_of_blank(text).unwrap_or(text.len())
}

fn after_blanks(text: &[u8]) -> &[u8]
    ensures { result.now ≡ after_blanks text.now }
{
    &text[first_not_blank(text)..]
}

// The name, which is not checked, and the state of a word whose first `=` has this offset.
#[tactic(auto, using(crate::proofs::ListLemmas::position_inside))]
fn parts_of<'a>(word: &'a [u8], equals: Option<usize>) -> (&'a [u8], StateRef<'a>)
    requires { equals ≡ position is_equals word.now }
    ensures { with_state (checked_name result.0.now) (state_view result.1) ≡ item_of word.now }
{
    let name = &word[..equals.unwrap_or(word.len())];
    match name.first() {
        Some(b'-') => (&name[1..], StateRef::Unset),
        Some(b'!') => (&name[1..], StateRef::Unspecified),
        _ => (name, state_from(word, equals)),
    }
}

fn assign<'a>(name: &'a [u8], state: StateRef<'a>) -> Result<AssignmentRef<'a>, AttrError<'a>>
    ensures { item_view result ≡ with_state (checked_name name.now) (state_view state.entry) }
{
    match check_attr(name) {
        Ok(name) => Ok(AssignmentRef { name, state }),
        Err(e) => Err(e),
    }
}

fn state_from<'a>(word: &'a [u8], equals: Option<usize>) -> StateRef<'a>
    requires { ForSome equals (λ i. i < length word.now) }
    ensures { state_view result ≡ state_from word.now equals }
{
    match equals {
        None => StateRef::Set,
        Some(i) => StateRef::Value(ValueRef::from_bytes(&word[i + 1..])),
    }
}

// The name, if it is valid and not reserved.
pub(crate) fn check_attr<'a>(attr: &'a [u8]) -> Result<NameRef<'a>, AttrError<'a>>
    ensures { result_map_both name_text refusal_view result ≡ checked_name attr.now }
{
    match NameRef::try_from(BStr::new(attr)) {
        Err(name::Error::InvalidName(input)) => Err(AttrError::InvalidName(input)),
        Ok(name) => {
            if is_reserved(attr) {
                Err(AttrError::Reserved(BStr::new(attr)))
            } else {
                Ok(name)
            }
        }
    }
}

/// Whether the name is reserved for built-in attributes: it begins with `builtin_` (gitattributes). Most names are told apart by
/// their first byte, without a comparison of slices.
pub(crate) fn is_reserved(name: &[u8]) -> bool
    ensures { result ≡ is_reserved_name name.now }
{
    !name.is_empty() && name[0] == b'b' && name.starts_with(b"builtin_")
}

/// The lines of an attributes file, in order (gitattributes). A byte order mark at the start is skipped. Blank lines
/// and comments are skipped but counted.
pub fn parse(alloc: Global, bytes: &[u8]) -> Lines<'_>
    ensures { result.results ≡ results_of bytes.now }
{
    Lines::new(alloc, bytes)
}

impl<'a> Model for Lines<'a> {
    ghost use Rattle.std.specs.Prelude.{◌+◌, ◌^◌, ◌<◌, length};
    ghost use Rattle.attr_lists.specs.LineResults.{Unread, unread_from};

    ghost Value = { Unread };

    ghost view = { λ s. unread_from (s.line_no + 1) s.lines };

    ghost invariant = { λ s. s.line_no + length s.lines < 2 ^ 64 };
}

impl<'a> Lines<'a> {
    /// The lines of the bytes, in order. A byte order mark at the start is skipped. Blank lines and comments are
    /// skipped but counted.
    pub fn new(alloc: Global, bytes: &'a [u8]) -> Lines<'a>
        ensures { result.results ≡ results_of bytes.now }
    {
        Lines {
            lines: without_mark(bytes).lines(),
            line_no: 0,
            alloc,
        }
    }

    // The result of the next line that is not skipped.
    fn next_result(&mut self) -> Option<Result<(Kind, Iter<'a>, usize), Error>>
        ensures read { ReadsFirst self.old.results result self.new.results }
        ensures fewer { MatchOption result (self.new.lines ≡ 0)
            (λ _. self.new.lines < self.old.lines) }
    {
        while let Some(found) = self.read_line() {
            if let Some(found) = found {
                return Some(found);
            }
        }
        None
    }

    // The result of the next line, if there is a line, and if it is not skipped.
    fn read_line(&mut self) -> Option<Option<Result<(Kind, Iter<'a>, usize), Error>>>
        ensures end { IfNone result ((self.old.results ≡ []) × IsOver self.new) }
        ensures read { IfSome result (λ line. ReadsLine self.old.results line self.new.results) }
        ensures fewer { OnSome result (self.new.lines < self.old.lines) }
    {
        let line = self.lines.next()?;
        self.line_no += 1;
        Some(parse_line(self.alloc, line, self.line_no))
    }

    // Skips all lines that are left.
    fn finish(&mut self)
        ensures { IsOver self.new }
    {
        let nothing: &[u8] = b"";
        self.lines = nothing.lines();
        self.line_no = 0;
    }
}

impl<'a> Iterator for Lines<'a> {
    type Item = Result<(Kind, Iter<'a>, usize), Error>;

    ghost next_gives = { Yields };

    ghost remaining = { λ unread. at_most unread.lines };

    fn next(&mut self) -> Option<Result<(Kind, Iter<'a>, usize), Error>> {
        let line = self.next_result()?;
        if is_out_of_memory(&line) {
            self.finish();
            return Some(line);
        }
        Some(line)
    }
}

// Whether memory ran out.
fn is_out_of_memory<'a>(line: &Result<(Kind, Iter<'a>, usize), Error>) -> bool
    ensures { result ≡ is_none (line_view line.now) }
{
    match line {
        Err(Error::OutOfMemory) => true,
        Err(Error::MacroName { .. }) => false,
        Err(Error::NegativePattern { .. }) => false,
        Ok(_) => false,
    }
}

const UTF_8_MARK: &[u8] = b"\xEF\xBB\xBF";

const UTF_32_BE_MARK: &[u8] = b"\0\0\xFE\xFF";

const UTF_32_LE_MARK: &[u8] = b"\xFF\xFE\0\0";

const UTF_16_LE_MARK: &[u8] = b"\xFF\xFE";

const UTF_16_BE_MARK: &[u8] = b"\xFE\xFF";

// The bytes after the byte order mark. The marks of UTF-32 come first, since one of them begins with one of UTF-16.
fn without_mark(bytes: &[u8]) -> &[u8]
    ensures { result.now ≡ without_front byte_order_marks bytes.now }
{
    if let Some(rest) = bytes.strip_prefix(UTF_8_MARK) {
        rest
    } else if let Some(rest) = bytes.strip_prefix(UTF_32_BE_MARK) {
        rest
    } else if let Some(rest) = bytes.strip_prefix(UTF_32_LE_MARK) {
        rest
    } else if let Some(rest) = bytes.strip_prefix(UTF_16_LE_MARK) {
        rest
    } else if let Some(rest) = bytes.strip_prefix(UTF_16_BE_MARK) {
        rest
    } else {
        bytes
    }
}

// The result of a line, none if it is blank or a comment.
fn parse_line<'a>(
    alloc: Global,
    line: &'a [u8],
    line_number: usize,
) -> Option<Result<(Kind, Iter<'a>, usize), Error>>
    ensures { Reports result (result_of line.now line_number) }
{
    let text = after_blanks(line);
    if text.is_empty() || text[0] == b'#' {
        return None;
    }
    let Ok((pattern_text, items)) = split_text(alloc, text) else {
        return Some(Err(Error::OutOfMemory));
    };
    match kind_of(alloc, &pattern_text, line_number) {
        Ok(None) => None,
        Ok(Some(kind)) => Some(Ok((kind, Iter::new(BStr::new(items)), line_number))),
        Err(e) => Some(Err(e)),
    }
}

// A line's pattern text, and the text of its items. A pattern text with damaged quotes is read as it is. If memory to
// undo quotes runs out, that is an error: the text is not read as it is.
fn split_text<'a>(alloc: Global, text: &'a [u8]) -> Result<(CowSlice<'a, u8>, &'a [u8]), AllocError>
    ensures { IfOk result (λ parts. (cow_slice_items parts.0, parts.1.now) ≡ parts_of text.now) }
{
    match undo(alloc, BStr::new(text)) {
        Ok((plain, taken)) => Ok((plain, &text[taken..])),
        Err(UndoError::OutOfMemory) => Err(AllocError),
        Err(_) => {
            let (pattern_text, items) = text.split_at(first_blank(text));
            Ok((CowSlice::Borrowed(pattern_text), items))
        }
    }
}

const MACRO_PREFIX: &[u8] = b"[attr]";

// Whether the pattern text defines a macro. Most texts are told apart by their first byte, without a comparison of slices.
fn is_macro(pattern_text: &[u8]) -> bool
    ensures { result ≡ is_macro_definition pattern_text.now }
{
    pattern_text.len() > MACRO_PREFIX.len()
        && pattern_text[0] == b'['
        && pattern_text.starts_with(MACRO_PREFIX)
}

// The target of a line with this pattern text, none if the text is no pattern.
fn kind_of(alloc: Global, pattern_text: &[u8], line: usize) -> Result<Option<Kind>, Error>
    ensures { ReportsKind result (target_of pattern_text.now line) }
{
    if is_macro(pattern_text) {
        return macro_of(alloc, &pattern_text[MACRO_PREFIX.len()..], line);
    }
    let Some(pattern) = Pattern::from_bytes(alloc, pattern_text)? else {
        return Ok(None);
    };
    if pattern.is_negative() {
        return Err(Error::NegativePattern {
            line,
            input: Vec::from_slice(alloc, pattern_text)?,
        });
    }
    Ok(Some(Kind::Pattern(pattern)))
}

fn macro_of(alloc: Global, name: &[u8], line: usize) -> Result<Option<Kind>, Error>
    ensures { ReportsKind result (Some (macro_of (checked_name name.now) name.now line)) }
{
    match check_attr(name) {
        Ok(name) => Ok(Some(Kind::Macro(name.to_owned(alloc)?))),
        Err(_) => Err(Error::MacroName {
            line,
            input: Vec::from_slice(alloc, name)?,
        }),
    }
}
