//! The parser of scripts: the records `add`, `pop`, `names` and `ask`, one after the other.

ghost use Rattle.std.specs.Prelude.{◌≡◌, ◌≤◌, ◌==◌, [], true, false, Some, None, IfOk, length, position, option_map, if◌then◌else◌};
ghost use Rattle.std.specs.Char.{is_ascii_digit};
ghost use Rattle.std.specs.List.{list_all};
ghost use Rattle.std.specs.Option.{option_copied};
ghost use Rattle.std.specs.Str.{is_utf8};
ghost use Rattle.gix_attributes.specs.LinesJoined.{line_feed};
ghost use Rattle.check_attr.specs.inner.ScriptParts.{IsFirstRecord, IsNumberBefore, choice_of, cases, directory_flags, forms, macro_flags, split_once, split_at, if_text, is_number, digits_value, most_digits, number_before, root_length, root_of, addition_of, add_record, names_record, ask_record, text_lines, ◌then◌};
ghost use Rattle.check_attr.specs.inner.ScriptViews.{lines_view, part_view, record_view, with_rest};

use bstr::BStr;
use gix_attributes::engine;
use gix_attributes::engine::Addition;
use gix_attributes::glob::pattern::Case;
use std::alloc::{AllocError, Global};

// How many digits a number may have. A longer number is malformed.
const MOST_DIGITS: usize = 8;

/// The form in which the answers for a path are written.
#[derive(Clone, Copy)]
pub enum Form {
    /// A line for each answer, as `git check-attr` writes it.
    Line,
    /// Fields that NUL ends, as `git check-attr -z` writes them.
    Zero,
    /// A line with the source, line and pattern that decided, and the macro.
    Origin,
}

/// A record of a script. It borrows from the script's bytes.
#[derive(Drop)]
pub enum Record<'a> {
    /// Adds a list.
    Add(Addition<'a>),
    /// Removes the last list.
    Pop,
    /// Selects attributes, or all of them if there is no name.
    Names(Vec<&'a str>),
    /// Looks up the attributes of a path.
    Ask(Question<'a>),
}

/// The path that an `ask` record looks up.
#[derive(Clone, Copy)]
pub struct Question<'a> {
    /// The form of the answers.
    pub form: Form,
    /// What the engine is asked.
    pub asked: engine::Question<'a>,
}

/// Parses the first record, and returns it with the bytes after it, or none if it is malformed.
///
/// A count of lines or bytes in the record reserves no memory.
///
/// # Errors
///
/// `AllocError` if the list of names could not grow.
#[tactic(auto, using(crate::proofs::SpellingLemmas::first_record))]
pub fn record_of(alloc: Global, bytes: &[u8]) -> Result<Option<(Record<'_>, &[u8])>, AllocError>
    ensures { IfOk result (λ read.
        IsFirstRecord bytes.now (option_map (with_rest record_view) read)) }
{
    if bytes.starts_with(b"ask ") {
        return Ok(ask_record(&bytes[4..]));
    }
    if bytes.starts_with(b"add ") {
        return Ok(add_record(&bytes[4..]));
    }
    if bytes.starts_with(b"pop\n") {
        return Ok(Some((Record::Pop, &bytes[4..])));
    }
    if bytes.starts_with(b"names ") {
        return names_record(alloc, &bytes[6..]);
    }
    Ok(None)
}

fn add_record(bytes: &[u8]) -> Option<(Record<'_>, &[u8])>
    ensures { option_map (with_rest record_view) result ≡ add_record bytes.now }
{
    let (allow_macros, rest) = macro_flag(bytes)?;
    let (source_len, rest) = number_before(b' ', rest)?;
    let (root_len, rest) = root_length(rest)?;
    let (buffer_len, rest) = number_before(b'\n', rest)?;
    addition_of(allow_macros, source_len, root_len, buffer_len, rest)
}

// An addition whose parts have these lengths in bytes.
fn addition_of(
    allow_macros: bool,
    source_len: usize,
    root_len: Option<usize>,
    buffer_len: usize,
    bytes: &[u8],
) -> Option<(Record<'_>, &[u8])>
    ensures { option_map (with_rest record_view) result
        ≡ addition_of allow_macros source_len root_len buffer_len bytes.now }
{
    let (source, rest) = split_text(source_len, bytes)?;
    let (root, rest) = root_of(root_len, rest)?;
    let (buffer, rest) = rest.split_at_checked(buffer_len)?;
    let [b'\n', rest @ ..] = rest else {
        return None;
    };
    let addition = Addition {
        allow_macros,
        source,
        root,
        buffer,
    };
    Some((Record::Add(addition), rest))
}

fn ask_record(bytes: &[u8]) -> Option<(Record<'_>, &[u8])>
    ensures { option_map (with_rest record_view) result ≡ ask_record bytes.now }
{
    let (form, rest) = form_of(bytes)?;
    let (case, rest) = case_of(rest)?;
    let (is_dir, rest) = directory_flag(rest)?;
    let (path_len, rest) = number_before(b'\n', rest)?;
    let (path, rest) = rest.split_at_checked(path_len)?;
    let [b'\n', rest @ ..] = rest else {
        return None;
    };
    let asked = engine::Question {
        path: BStr::from(path),
        case,
        is_dir,
    };
    Some((Record::Ask(Question { form, asked }), rest))
}

fn names_record(alloc: Global, bytes: &[u8]) -> Result<Option<(Record<'_>, &[u8])>, AllocError>
    ensures { IfOk result (λ read.
        option_map (with_rest record_view) read ≡ names_record bytes.now) }
{
    let Some((count, rest)) = number_before(b'\n', bytes) else {
        return Ok(None);
    };
    let read = text_lines(alloc, count, rest)?;
    Ok(read.map(|(lines, rest)| (Record::Names(lines), rest)))
}

fn macro_flag(bytes: &[u8]) -> Option<(bool, &[u8])>
    ensures { option_map (with_rest (λ b. b)) result ≡ choice_of macro_flags bytes.now }
{
    match bytes {
        [b'm', b' ', rest @ ..] => Some((true, rest)),
        [b'-', b' ', rest @ ..] => Some((false, rest)),
        _ => None,
    }
}

fn root_length(bytes: &[u8]) -> Option<(Option<usize>, &[u8])>
    ensures { option_map (with_rest (λ n. n)) result ≡ root_length bytes.now }
{
    if bytes.starts_with(b"- ") {
        return Some((None, &bytes[2..]));
    }
    let (length, rest) = number_before(b' ', bytes)?;
    Some((Some(length), rest))
}

fn root_of(length: Option<usize>, bytes: &[u8]) -> Option<(Option<&str>, &[u8])>
    ensures { option_map (with_rest option_copied) result ≡ root_of length bytes.now }
{
    match length {
        None => Some((None, bytes)),
        Some(length) => {
            let (root, rest) = split_text(length, bytes)?;
            Some((Some(root), rest))
        }
    }
}

fn text_lines(
    alloc: Global,
    count: usize,
    bytes: &[u8],
) -> Result<Option<(Vec<&str>, &[u8])>, AllocError>
    ensures { IfOk result (λ read.
        option_map (with_rest lines_view) read ≡ text_lines count bytes.now) }
{
    let mut lines = Vec::new(alloc);
    let mut rest = bytes;
    while lines.len() < count {
        let Some((line, others)) = text_line(rest) else {
            return Ok(None);
        };
        lines.push(line)?;
        rest = others;
    }
    Ok(Some((lines, rest)))
}

fn text_line(bytes: &[u8]) -> Option<(&str, &[u8])>
    ensures { option_map (with_rest part_view) result
        ≡ (split_once line_feed bytes.now then if_text) }
{
    let (line, rest) = split_once(b'\n', bytes)?;
    Some((as_text(line)?, rest))
}

fn form_of(bytes: &[u8]) -> Option<(Form, &[u8])>
    ensures { option_map (with_rest (λ f. f)) result ≡ choice_of forms bytes.now }
{
    match bytes {
        [b'l', b' ', rest @ ..] => Some((Form::Line, rest)),
        [b'z', b' ', rest @ ..] => Some((Form::Zero, rest)),
        [b'o', b' ', rest @ ..] => Some((Form::Origin, rest)),
        _ => None,
    }
}

fn case_of(bytes: &[u8]) -> Option<(Case, &[u8])>
    ensures { option_map (with_rest (λ c. c)) result ≡ choice_of cases bytes.now }
{
    match bytes {
        [b's', b' ', rest @ ..] => Some((Case::Sensitive, rest)),
        [b'i', b' ', rest @ ..] => Some((Case::Fold, rest)),
        _ => None,
    }
}

fn directory_flag(bytes: &[u8]) -> Option<(Option<bool>, &[u8])>
    ensures { option_map (with_rest (λ d. d)) result ≡ choice_of directory_flags bytes.now }
{
    match bytes {
        [b'd', b' ', rest @ ..] => Some((Some(true), rest)),
        [b'f', b' ', rest @ ..] => Some((Some(false), rest)),
        [b'u', b' ', rest @ ..] => Some((None, rest)),
        _ => None,
    }
}

// The bytes before the first separator, and those after it.
fn split_once(separator: u8, bytes: &[u8]) -> Option<(&[u8], &[u8])>
    ensures { option_map (with_rest part_view) result ≡ split_once separator bytes.now }
{
    let offset = position_of(separator, bytes)?;
    Some((&bytes[..offset], &bytes[offset + 1..]))
}

fn position_of(separator: u8, bytes: &[u8]) -> Option<usize>
    ensures { result ≡ position (λ b. b == separator) bytes.now }
{
    bytes.iter().position(|byte| *byte == separator)
}

// The first `count` bytes as text, and those after them.
fn split_text(count: usize, bytes: &[u8]) -> Option<(&str, &[u8])>
    ensures { option_map (with_rest part_view) result ≡ (split_at count bytes.now then if_text) }
{
    let (part, rest) = bytes.split_at_checked(count)?;
    Some((as_text(part)?, rest))
}

fn as_text(bytes: &[u8]) -> Option<&str>
    ensures { option_copied result ≡ if is_utf8 bytes.now then Some bytes.now else None }
{
    str::from_utf8(bytes).ok()
}

// A number, and the bytes after the separator that ends it. It stays a call, since its loops take twice the instructions inside
// a function that has many results to set.
#[inline(never)]
#[tactic(auto, using(crate::proofs::SpellingLemmas::number_spelled))]
fn number_before(separator: u8, bytes: &[u8]) -> Option<(usize, &[u8])>
    ensures value { option_map (with_rest (λ n. n)) result ≡ number_before separator bytes.now }
    ensures spelled { is_ascii_digit separator ≡ false →
        IsNumberBefore separator bytes.now (option_map (with_rest (λ n. n)) result) }
{
    let (word, rest) = split_once(separator, bytes)?;
    let number = number_of(word)?;
    Some((number, rest))
}

fn number_of(word: &[u8]) -> Option<usize>
    ensures { result ≡ if is_number word.now then Some (digits_value word.now) else None }
{
    match word {
        [] | [b'0', _, ..] => None,
        _ if word.len() > MOST_DIGITS => None,
        _ => digits_value(word),
    }
}

fn digits_value(word: &[u8]) -> Option<usize>
    requires { length word.now ≤ most_digits }
    ensures { result
        ≡ if list_all is_ascii_digit word.now then Some (digits_value word.now) else None }
{
    let mut value = 0;
    for digit in word {
        if !digit.is_ascii_digit() {
            return None;
        }
        value = 10 * value + usize::from(*digit - b'0');
    }
    Some(value)
}
