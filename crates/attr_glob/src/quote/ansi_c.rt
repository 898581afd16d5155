//! Git's C-style quoting: a text in double quotes, with a backslash in front of each escape (gitattributes page:
//! patterns that begin with a double quote).

ghost use Rattle.std.specs.Prelude.{ℕ, ◌≡◌, ◌↔◌, ◌≤◌, ◌<◌, length, List, Option, Some, Ok, Err, IfOk, IfErr, IsErrOf, Contains, position};
ghost use Rattle.std.specs.Cow.{cow_slice_items, IsOwnedSlice};
ghost use Rattle.bstr.specs.BStr.{bstr_bytes};
ghost use Rattle.attr_glob.specs.declared.quote.ansi_c.UndoError.TheVariants.{OutOfMemory};
ghost use Rattle.attr_wildmatch.specs.Bytes.{backslash};
ghost use Rattle.attr_glob.specs.Quotes.{letter_byte, digits_byte, escaped, HoldsEscape, IsQuoted, IsUnclosed, IsBadEscape, BeginsQuoted, is_mark, undone, not_quoted, unclosed, bad_escape};
ghost use Rattle.attr_glob.specs.Refusals.{IsRefusal};

use bstr::BStr;
use std::alloc::{AllocFailed, Global};
use std::borrow::CowSlice;
use thiserror::Error;

/// Why a text can't be undone.
#[derive(Debug, Drop, Error)]
pub enum UndoError {
    /// The text doesn't begin with a quote.
    #[error("not quoted")]
    NotQuoted,
    /// The text ends before a closing quote.
    #[error("unclosed quote")]
    Unclosed,
    /// The backslash at this offset, counted from 0 in the whole text, begins no escape.
    #[error("bad escape at {0}")]
    BadEscape(usize),
    /// There was no memory for the plain bytes.
    #[error("out of memory")]
    OutOfMemory,
}

impl<T: Drop> From<AllocFailed<T>> for UndoError {
    ghost from_gives = { λ _ e. e ≡ OutOfMemory };

    fn from(_refused: AllocFailed<T>) -> UndoError {
        UndoError::OutOfMemory
    }
}

/// The plain bytes of the quoted text at the start of `input`, and how many bytes of `input` it takes, both quotes
/// included. What follows the closing quote isn't read.
///
/// The bytes are borrowed, and no memory is taken, if there is no backslash between the quotes.
///
/// # Errors
///
/// `NotQuoted` if the text begins with no quote, `BadEscape` if a backslash before the closing quote begins no escape,
/// else `Unclosed` if there is no closing quote, and `OutOfMemory` if memory runs out.
pub fn undo<'a>(alloc: Global, input: BStr<'a>) -> Result<(CowSlice<'a, u8>, usize), UndoError>
    ensures value { IfOk result (λ r.
        undone (bstr_bytes input.entry) ≡ Ok (cow_slice_items r.0, r.1)) }
    ensures quoted { IfOk result (λ r.
        IsQuoted (bstr_bytes input.entry) (cow_slice_items r.0) r.1) }
    ensures inside { IfOk result (λ r. r.1 ≤ length (bstr_bytes input.entry)) }
    ensures refused { IfErr result (IsRefusal (bstr_bytes input.entry)) }
    ensures memory { IsErrOf result OutOfMemory → Contains (bstr_bytes input.entry) backslash }
    ensures lent { IfOk result (λ r. IsOwnedSlice r.0 ↔ HoldsEscape (bstr_bytes input.entry)) }
{
    let text = input.as_bytes();
    let [b'"', tail @ ..] = text else {
        return Err(UndoError::NotQuoted);
    };
    let Some(front_len) = first_mark(tail) else {
        return Err(UndoError::Unclosed);
    };
    if tail[front_len] == b'"' {
        return Ok((CowSlice::Borrowed(&tail[..front_len]), front_len + 2));
    }
    let (plain, taken) = undo_escapes(alloc, text)?;
    Ok((CowSlice::Owned(plain), taken))
}

/// A law: `undone`, which computes the result, agrees with the relations over the whole text. It has a result if and
/// only if that result's relation is true.
pub fn undone_as_spelled()
    ensures quoted { (text plain : List ℕ) (taken : ℕ) →
        (undone text ≡ Ok (plain, taken)) ↔ IsQuoted text plain taken }
    ensures not_quoted { (text : List ℕ) → (undone text ≡ Err not_quoted) ↔ ¬ (BeginsQuoted text) }
    ensures unclosed { (text : List ℕ) → (undone text ≡ Err unclosed) ↔ IsUnclosed text }
    ensures bad_escape { (text : List ℕ) (offset : ℕ) →
        (undone text ≡ Err (bad_escape offset)) ↔ IsBadEscape text offset }
{}

// The offset of the first quote or backslash.
fn first_mark(bytes: &[u8]) -> Option<usize>
    ensures { result ≡ position is_mark bytes.now }
{
    bytes
        .iter()
        .position(|byte| *byte == b'"' || *byte == b'\\')
}

// The same as `undo`, for a text with a backslash after its quote. The plain bytes are a copy.
fn undo_escapes(alloc: Global, text: &[u8]) -> Result<(Vec<u8>, usize), UndoError>
    requires { HoldsEscape text.now }
    ensures value { IfOk result (λ r. undone text.now ≡ Ok (r.0.items, r.1)) }
    ensures refused { IfErr result (IsRefusal text.now) }
{
    let mut plain = Vec::new(alloc);
    let mut offset = 1;
    while offset < text.len() {
        match text[offset] {
            b'"' => return Ok((plain, offset + 1)),
            b'\\' => {
                let Some((byte, len)) = escape(&text[offset + 1..]) else {
                    return Err(UndoError::BadEscape(offset));
                };
                plain.push(byte)?;
                offset += 1 + len;
            }
            byte => {
                plain.push(byte)?;
                offset += 1;
            }
        }
    }
    Err(UndoError::Unclosed)
}

// The byte of the escape that follows a backslash, and how many bytes the escape takes there.
fn escape(tail: &[u8]) -> Option<(u8, usize)>
    ensures { result ≡ escaped tail.now }
{
    match letter(*tail.first()?) {
        Some(byte) => Some((byte, 1)),
        None => digits(tail).map(|byte| (byte, 3)),
    }
}

// The byte that three octal digits after a backslash spell.
fn digits(tail: &[u8]) -> Option<u8>
    ensures { result ≡ digits_byte tail.now }
{
    match tail {
        [
            high @ b'0'..=b'3',
            middle @ b'0'..=b'7',
            low @ b'0'..=b'7',
            ..
        ] => { Some((high - b'0') * 64 + (middle - b'0') * 8 + (low - b'0')) }
        _ => None,
    }
}

// The byte that a letter after a backslash spells.
fn letter(first: u8) -> Option<u8>
    ensures { result ≡ letter_byte first }
{
    match first {
        b'a' => Some(0x07),
        b'b' => Some(0x08),
        b't' => Some(b'\t'),
        b'n' => Some(b'\n'),
        b'v' => Some(0x0b),
        b'f' => Some(0x0c),
        b'r' => Some(b'\r'),
        b'"' | b'\\' => Some(first),
        _ => None,
    }
}
