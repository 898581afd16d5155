//! The answers of rows about names, and about the items and lines of attributes files.

use crate::answer::Answer;
use crate::fault::{Fault, expect_equal};
use crate::row::Row;
use attr_glob::search::Pattern;
use attr_glob::search::pattern::Mapping;
use attr_lists::parse::{AttrError, Error, Iter, Kind, parse};
use attr_lists::types::{AttributeId, Attributes, Dropped, TrackedAssignment, Value};
use attr_text::{AssignmentRef, NameRef, StateRef, name};
use bitflags::Flags;
use bstr::BStr;
use std::alloc::{AllocError, Global};
use std::fmt::Write;

/// An owned copy of a borrowed value, and a copy of that, have to be equal to it.
macro_rules! expect_copied {
    ($alloc:expr, $borrowed:expr) => {{
        let owned = $borrowed.to_owned($alloc)?;
        expect_equal(&owned.as_ref(), &$borrowed)?;
        expect_equal(&owned.clone($alloc)?, &owned)?;
    }};
}

/// Whether a text is a valid name, and of one that is not what is refused.
pub fn name(row: &Row, answer: &mut Answer) -> Result<(), Fault> {
    match NameRef::try_from(BStr::new(row.bytes(0))) {
        Ok(name) if name.as_str() != row.text(0) => answer.text("another name"),
        Ok(name) => {
            expect_copied!(answer.alloc, name);
            answer.text("valid")
        }
        Err(name::Error::InvalidName(input)) => {
            answer.text("refused")?;
            answer.bytes(input.as_bytes())
        }
    }
}

/// The items of a text, each as it is printed, or the text of its error. Copies of an item, its name and its state are made,
/// which have to be equal.
pub fn items(row: &Row, answer: &mut Answer) -> Result<(), Fault> {
    let mut out = String::new(answer.alloc);
    push_items(Iter::new(BStr::new(row.bytes(0))), &mut out)?;
    answer.text(&out)
}

fn push_items(items: Iter<'_>, out: &mut String) -> Result<(), Fault> {
    for item in items {
        match item {
            Ok(item) => push_item(item, out)?,
            Err(error) => write!(out, "[{error}]")?,
        }
    }
    Ok(())
}

fn push_item(item: AssignmentRef<'_>, out: &mut String) -> Result<(), Fault> {
    let alloc = *out.allocator();
    expect_copied!(alloc, item);
    expect_copied!(alloc, item.name);
    expect_state_copied(alloc, item.state)?;
    Ok(write!(out, "[{item}]")?)
}

// It stands apart from `push_item`, as a proof of all four copies at once takes longer.
fn expect_state_copied(alloc: Global, state: StateRef<'_>) -> Result<(), Fault> {
    expect_copied!(alloc, state);
    if let StateRef::Value(value) = state {
        expect_copied!(alloc, value);
    }
    Ok(())
}

/// Of each item of a text its name, whether it is set, unset and unspecified, and its value.
pub fn states(row: &Row, answer: &mut Answer) -> Result<(), Fault> {
    for item in Iter::new(BStr::new(row.bytes(0))) {
        let item = item.or(Err(Fault::NotARow))?;
        answer.text(item.name.as_str())?;
        answer.flag(item.state.is_set())?;
        answer.flag(item.state.is_unset())?;
        answer.flag(item.state.is_unspecified())?;
        answer.bytes(item.state.as_bstr().map_or(b"-", |value| value.as_bytes()))?;
    }
    Ok(())
}

/// Each line of a file that has a result: its number, its pattern's text or its macro's name, and its items. Of a line that is
/// refused it is why, and what. No line follows one that finds no memory. Nothing is asked for before the first line that has a
/// result, so a file without one takes no memory.
pub fn lines(row: &Row, answer: &mut Answer) -> Result<(), Fault> {
    let (mut out, mut is_refused) = (String::new(answer.alloc), false);
    for line in parse(answer.alloc, row.bytes(0)) {
        if is_refused {
            return Err(Fault::Changed);
        }
        is_refused = matches!(line, Err(Error::OutOfMemory));
        push_line(line, &mut out)?;
    }
    if is_refused {
        return Err(Fault::CallOutOfMemory);
    }
    answer.text(&out)
}

fn push_line(line: Result<(Kind, Iter<'_>, usize), Error>, out: &mut String) -> Result<(), Fault> {
    match line {
        Ok((kind, items, number)) => {
            write!(out, "{number} ")?;
            push_kind(&kind, out)?;
            push_items(items, out)?;
            Ok(out.push(';')?)
        }
        Err(error) => Ok(push_refused(&error, out)?),
    }
}

fn push_kind(kind: &Kind, out: &mut String) -> Result<(), Fault> {
    expect_equal(&kind.clone(*out.allocator())?, kind)?;
    match kind {
        Kind::Pattern(pattern) => write!(out, "pattern {} ", BStr::new(&pattern.text))?,
        Kind::Macro(name) => write!(out, "macro {} ", name.as_str())?,
    }
    Ok(())
}

fn push_refused(error: &Error, out: &mut String) -> Result<(), AllocError> {
    match error {
        Error::NegativePattern { input, .. } | Error::MacroName { input, .. } => {
            write!(out, "{error} ({});", BStr::new(input.as_slice()))
        }
        Error::OutOfMemory => write!(out, "{error};"),
    }
}

/// The lines of a file that its list keeps, and those that it drops. A copy of each line is made, which has to be equal.
pub fn kept(row: &Row, answer: &mut Answer) -> Result<(), Fault> {
    let (mappings, dropped) = Attributes.bytes_to_patterns(answer.alloc, row.bytes(0), "")?;
    expect_copies(answer.alloc, &mappings)?;
    let mut out = String::new(answer.alloc);
    for mapping in mappings.iter() {
        push_mapping(mapping, &mut out)?;
    }
    answer.text(&out)?;
    push_dropped(&dropped, answer)
}

/// Copies of the lines of a list have to be equal to them.
pub fn expect_copies(alloc: Global, mappings: &[Mapping<Value>]) -> Result<(), Fault> {
    for mapping in mappings {
        expect_equal(&mapping.value.clone(alloc)?, &mapping.value)?;
    }
    Ok(())
}

/// How many lines of a file its list keeps, and how many it drops.
pub fn kept_counts(row: &Row, answer: &mut Answer) -> Result<(), Fault> {
    let (mappings, dropped) = Attributes.bytes_to_patterns(answer.alloc, row.bytes(0), "")?;
    answer.shown(mappings.len())?;
    answer.shown(dropped.len())
}

/// The items of a line, in its order.
pub fn items_of(line: &Value) -> &[TrackedAssignment] {
    match line {
        Value::MacroAssignments { assignments, .. } => assignments,
        Value::Assignments(assignments) => assignments,
    }
}

// The number of a line, the text of its pattern, the bits of the mode, the offset of the first wildcard, and the items that
// have no number.
fn push_mapping(mapping: &Mapping<Value>, out: &mut String) -> Result<(), AllocError> {
    let (number, pattern) = (mapping.sequence_number, &mapping.pattern);
    let (text, mode) = (BStr::new(&pattern.text), pattern.mode.bits());
    let wildcard = pattern.first_wildcard_pos;
    write!(out, "{number} {text} {mode} {wildcard:?}")?;
    for item in items_of(&mapping.value) {
        if item.id == AttributeId::default() {
            write!(out, " {}", item.inner.as_ref())?;
        }
    }
    out.push(';')
}

/// Adds a field with the dropped lines: of each its number, and why it is.
pub fn push_dropped(dropped: &[Dropped], answer: &mut Answer) -> Result<(), Fault> {
    let mut out = String::new(answer.alloc);
    for line in dropped {
        write!(out, "{} {:?};", line.line, line.reason)?;
    }
    answer.text(&out)
}
