//! The answers of rows about patterns: their parts, quotes, and the bases of lists.

use crate::answer::Answer;
use crate::fault::{Fault, expect_equal};
use crate::row::Row;
use attr_glob::Pattern;
use attr_glob::pattern::{base_name, base_name_offset};
use attr_glob::quote::ansi_c::{UndoError, undo};
use attr_glob::search::pattern::List;
use attr_lists::types::Attributes;
use bitflags::Flags;
use bstr::BStr;
use std::alloc::{AllocError, Global};
use std::borrow::CowSlice;

/// Of a pattern in a file: its text, the bits of its mode, the offset of its first wildcard, whether it is negative, and the
/// text that it is written as. A copy is made, which has to be equal.
pub fn pattern(row: &Row, answer: &mut Answer) -> Result<(), Fault> {
    let Some(pattern) = Pattern::from_bytes(answer.alloc, row.bytes(0))? else {
        return answer.text("none");
    };
    answer.bytes(&pattern.text)?;
    answer.shown(pattern.mode.bits())?;
    answer.index(pattern.first_wildcard_pos)?;
    answer.flag(pattern.is_negative())?;
    let copy = pattern.clone(answer.alloc)?;
    answer.bytes(&copy.write_text(answer.alloc)?)?;
    expect_equal(&copy, &pattern)
}

/// Of a path: the offset of its base name, and that name.
pub fn base_name_of(row: &Row, answer: &mut Answer) -> Result<(), Fault> {
    let path = row.bytes(0);
    let offset = base_name_offset(path);
    answer.index(offset)?;
    answer.bytes(base_name(path, offset))
}

/// Of a quoted text: whether it is lent or copied, its plain bytes, and how many bytes are taken; or why it is refused. A text
/// without a backslash takes no memory.
pub fn quote(row: &Row, answer: &mut Answer) -> Result<(), Fault> {
    match undo(answer.alloc, BStr::new(row.bytes(0))) {
        Ok((plain, taken)) => {
            let is_lent = matches!(&plain, CowSlice::Borrowed(_));
            answer.text(if is_lent { "lent" } else { "owned" })?;
            answer.bytes(plain.as_slice())?;
            answer.shown(taken)
        }
        Err(UndoError::OutOfMemory) => Err(Fault::CallOutOfMemory),
        Err(refused) => answer.shown(refused),
    }
}

/// The list of a source below a root, in a box: a proof drops a box by one call.
pub fn list_of(
    alloc: Global,
    bytes: &[u8],
    source: &str,
    root: Option<&str>,
) -> Result<Box<List<Attributes>>, AllocError> {
    let source = String::from_str(alloc, source)?;
    let (list, _) = List::from_bytes(alloc, bytes, source, root, Attributes)?;
    Ok(Box::new(alloc, list)?)
}

const LINES: &[u8] = b"x\n\ny";

/// Of a source and its root: the source and the base of the list. A copy is made, which has to be equal.
pub fn base(row: &Row, answer: &mut Answer) -> Result<(), Fault> {
    let list = list_of(answer.alloc, LINES, row.text(0), row.optional(1))?;
    let copy = Box::new(answer.alloc, list.clone(answer.alloc)?)?;
    expect_equal(&*copy, &*list)?;
    answer.text(list.source.as_deref().unwrap_or("-"))?;
    answer.bytes(list.base.as_deref().unwrap_or(b"-"))
}

/// Of a path below the base of a list: what is behind the base, and the offset of the base name in that.
pub fn below_base(row: &Row, answer: &mut Answer) -> Result<(), Fault> {
    let list = list_of(answer.alloc, LINES, row.text(0), row.optional(1))?;
    let (path, case) = (row.bytes(2), row.case(3)?);
    let offset = base_name_offset(path);
    match list.strip_base_handle_recompute_basename_pos(BStr::new(path), offset, case) {
        Some((rest, offset)) => {
            answer.bytes(rest.as_bytes())?;
            answer.index(offset)
        }
        None => answer.text("-"),
    }
}
