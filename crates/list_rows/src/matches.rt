//! The answers of rows about matching: the texts that a pattern takes, and the lines that are tried.

use crate::answer::Answer;
use crate::fault::Fault;
use crate::patterns::list_of;
use crate::row::Row;
use attr_glob::Pattern;
use attr_glob::pattern::{Case, base_name_offset};
use attr_glob::search::pattern::Index;
use attr_glob::token::Tokens;
use attr_glob::wildmatch::{MatchBuffers, count};
use bstr::BStr;
use std::alloc::{AllocError, Global};

/// Whether a pattern's text matches a value, and the number of pairs that are visited. The tokens that are kept of the text have
/// to answer the same: there are none where a bracket isn't closed, and it matches nothing then.
fn counted(
    alloc: Global,
    text: &[u8],
    value: &[u8],
    case: Case,
    buffers: &mut MatchBuffers,
) -> Result<(bool, u128), Fault> {
    let mut kept = (false, 0);
    if let Some(tokens) = Tokens::read(alloc, text)? {
        buffers.reserve(tokens.row_len())?;
        kept = tokens.count(value, case, buffers);
        // Once there is room for the tokens, nothing takes memory.
        let is_refused = buffers.reserve(tokens.row_len()).is_err();
        if is_refused || tokens.matches(value, case, buffers) != kept.0 {
            return Err(Fault::Changed);
        }
    }
    if kept != count(alloc, text, value, case)? {
        return Err(Fault::OtherTokens);
    }
    Ok(kept)
}

// What is counted of the pattern, the value and the case in the first fields.
fn counted_of(row: &Row, alloc: Global) -> Result<(bool, u128), Fault> {
    let (text, value, case) = (row.bytes(0), row.bytes(1), row.case(2)?);
    counted(alloc, text, value, case, &mut MatchBuffers::new(alloc))
}

/// Whether a pattern's text matches a value.
pub fn wildmatch(row: &Row, answer: &mut Answer) -> Result<(), Fault> {
    let (matched, _) = counted_of(row, answer.alloc)?;
    answer.flag(matched)
}

/// Whether a pattern's text matches a value, and the number of pairs that are visited if that is less than the least or more than
/// the most.
pub fn pairs(row: &Row, answer: &mut Answer) -> Result<(), Fault> {
    let (least, most) = (row.number(3)? as u128, row.number(4)? as u128);
    let (matched, pairs) = counted_of(row, answer.alloc)?;
    answer.flag(matched)?;
    if pairs < least || most < pairs {
        answer.shown(pairs)?;
    }
    Ok(())
}

/// How many tokens a text has, and whether it has none.
pub fn token_count(row: &Row, answer: &mut Answer) -> Result<(), Fault> {
    let Some(tokens) = Tokens::read(answer.alloc, row.bytes(0))? else {
        return answer.text("-");
    };
    answer.shown(tokens.len())?;
    answer.flag(tokens.is_empty())
}

const SHORT_BYTES: [u8; 3] = *b"ab/";

// 1 + 3 + 9 + 27 + 81 values of at most four bytes
const SHORT_VALUES: usize = 121;

/// Which values of at most four bytes `a`, `b` and `/` a pattern's text matches, with blanks between them. Both cases have to
/// answer the same.
pub fn short_values(row: &Row, answer: &mut Answer) -> Result<(), Fault> {
    let (alloc, text) = (answer.alloc, row.bytes(0));
    let (mut taken, mut value) = (Vec::new(alloc), Vec::new(alloc));
    let mut buffers = MatchBuffers::new(alloc);
    for number in 0..SHORT_VALUES {
        value.clear();
        push_short_value(number, &mut value)?;
        let (exact, _) = counted(alloc, text, &value, Case::Sensitive, &mut buffers)?;
        let (folded, _) = counted(alloc, text, &value, Case::Fold, &mut buffers)?;
        if folded != exact {
            return answer.text("another case");
        }
        if exact {
            taken.extend_from_slice(if value.is_empty() { b"nothing" } else { &value })?;
            taken.push(b' ')?;
        }
    }
    answer.bytes(taken.trim_ascii())
}

// The value of this number, the shorter ones first.
fn push_short_value(number: usize, value: &mut Vec<u8>) -> Result<(), AllocError> {
    let mut left = number;
    for _ in 0..4 {
        if left > 0 {
            left -= 1;
            value.push(SHORT_BYTES[left % 3])?;
            left /= 3;
        }
    }
    Ok(())
}

/// Whether a pattern matches a path, which is a `file`, a `directory` or not known to be either. The kept tokens have to match
/// it, too. Where bytes alone decide, that takes no memory.
pub fn path(row: &Row, answer: &mut Answer) -> Result<(), Fault> {
    let (path, case) = (row.bytes(1), row.case(2)?);
    let is_dir = match row.text(3) {
        "directory" => Some(true),
        "file" => Some(false),
        _ => None,
    };
    let Some(pattern) = Pattern::from_bytes(answer.alloc, row.bytes(0))? else {
        return Err(Fault::NotARow);
    };
    let offset = base_name_offset(path);
    let matched = pattern
        .matches_repo_relative_path(answer.alloc, BStr::new(path), offset, is_dir, case)
        .or(Err(Fault::CallOutOfMemory))?;
    let is_of_kind = pattern.takes_kind(is_dir);
    if matched != (is_of_kind && kept_matches(answer.alloc, &pattern, path, case)?) {
        return Err(Fault::OtherTokens);
    }
    answer.flag(matched)
}

// Whether the kept tokens of a pattern match a path.
fn kept_matches(
    alloc: Global,
    pattern: &Pattern,
    path: &[u8],
    case: Case,
) -> Result<bool, AllocError> {
    let tokens = pattern.kept_tokens(alloc)?;
    let part = pattern.matched_part(path, base_name_offset(path));
    pattern.matches_part(tokens.as_ref(), part, case, &mut MatchBuffers::new(alloc))
}

/// The indexes of the lines of a file that are tried for a path, last to first.
pub fn candidates(row: &Row, answer: &mut Answer) -> Result<(), Fault> {
    let (alloc, path, case) = (answer.alloc, row.bytes(1), row.case(2)?);
    let list = list_of(alloc, row.bytes(0), "", None)?;
    let index = Box::new(alloc, Index::of(alloc, &list)?)?;
    if !index.is_of(&list) {
        return answer.text("another index");
    }
    let found = index.candidates(alloc, &list, BStr::new(path), base_name_offset(path), case)?;
    answer.words(&found)
}

/// Whether the index of a file is of its list, and whether it is of the list of another file.
pub fn is_of_list(row: &Row, answer: &mut Answer) -> Result<(), Fault> {
    let alloc = answer.alloc;
    let list = list_of(alloc, row.bytes(0), "", None)?;
    let other = list_of(alloc, row.bytes(1), "", None)?;
    let index = Box::new(alloc, Index::of(alloc, &list)?)?;
    answer.flag(index.is_of(&list))?;
    answer.flag(index.is_of(&other))
}
