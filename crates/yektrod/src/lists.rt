//! Lists are added and removed.

ghost use Rattle.std.specs.Prelude.{◌≡◌, ◌⊎◌, ◌↔◌, IsUtf8, MatchOption, None, Some, false, length, option_map};
ghost use Rattle.std.specs.Option.{option_copied};
ghost use Rattle.gix_attributes.specs.EngineStates.{with_addition, with_list_below, without_last};
ghost use Rattle.attr_glob.specs.Views.{base_bytes};
ghost use Rattle.gix_attributes.specs.KeptLists.{dropped_lines};
ghost use Rattle.yektrod.specs.Held.{HasNoList, dropped_held, held, sourced};
ghost use Rattle.yektrod.specs.Directories.{is_part, names_directory};
ghost use Rattle.yektrod.specs.Passed.{ReadsRoot, passed_file, passed_root};
ghost use Rattle.yektrod.specs.Places.{passed_list};
ghost use Rattle.yektrod.specs.Rows.{dropped_row, reason_code};
ghost use Rattle.yektrod.specs.Sourced.{added_list_view};
ghost use Rattle.yektrod.specs.Statuses.{status_done, status_missing, status_no_list, status_no_memory, status_shut, status_unreadable};

use crate::slot::Slot;
use crate::sourced::SourcedList;
use crate::status::{DONE, MISSING, NO_LIST, NO_MEMORY, SHUT, UNREADABLE};
use gix_attributes::glob::search::pattern::{base_of, base_of_directory};
use gix_attributes::search::DropReason;
use std::alloc::{AllocError, Global};

/// A line that was dropped of the last list that was added.
#[repr(C)]
#[derive(Clone, Copy)]
pub struct DroppedRow {
    /// The number of the line, from 1.
    pub line: usize,
    /// Why: 1 for the name of a macro, 2 for a pattern that begins with `!`, 3 for a name that is invalid, 4 for a reserved one.
    pub reason: i32,
}

/// Adds the list of an attributes file as the last one, and says how many lines were dropped of it.
#[unsafe(no_mangle)]
pub extern "C" fn yektrod_add(
    alloc: Global,
    slot: &mut Slot,
    bytes: &[u8],
    source: &[u8],
    root: &[u8],
    has_root: bool,
    allow_macros: bool,
    dropped: &mut usize,
) -> i32
    ensures done { result ≡ status_done → held slot.new ≡ option_map (with_addition
        (passed_file bytes.now source.now root.now has_root allow_macros)) (held slot.old) }
    ensures dropped { result ≡ status_done → dropped.new ≡ length (dropped_lines bytes.now) }
    ensures failed { ¬ (result ≡ status_done) → sourced slot.new ≡ sourced slot.old }
    ensures kept { ¬ (result ≡ status_done) → dropped.new ≡ dropped.old }
    ensures shut { result ≡ status_shut ↔ (held slot.old ≡ None) }
    ensures unreadable { result ≡ status_unreadable ↔ (¬ (held slot.old ≡ None)
        × ¬ (IsUtf8 source.now × ReadsRoot has_root root.now)) }
    ensures status { (result ≡ status_done) ⊎ (result ≡ status_no_memory)
        ⊎ (result ≡ status_shut) ⊎ (result ≡ status_unreadable) }
{
    if !slot.live {
        return SHUT;
    }
    let Ok(text) = str::from_utf8(source) else {
        return UNREADABLE;
    };
    let Some(root) = root_of(root, has_root) else {
        return UNREADABLE;
    };
    let Ok(base) = base_of(alloc, text, root) else {
        return NO_MEMORY;
    };
    let added = list_of(allow_macros, source, &base, bytes);
    let held = slot.handle.engine();
    match held.add(alloc, added) {
        Ok(()) => {
            *dropped = held.labelled().dropped().len();
            DONE
        }
        Err(_) => NO_MEMORY,
    }
}

// The root that is passed, if there is one: none if it is no UTF-8.
fn root_of(root: &[u8], has_root: bool) -> Option<Option<&str>>
    ensures { MatchOption result (¬ ReadsRoot has_root root.now) (λ text.
        ReadsRoot has_root root.now × (option_copied text ≡ passed_root has_root root.now)) }
{
    if !has_root {
        return Some(None);
    }
    match str::from_utf8(root) {
        Ok(text) => Some(Some(text)),
        Err(_) => None,
    }
}

/// Where a list applies, and what is told as its source, as C passes them.
#[repr(C)]
#[derive(Clone, Copy)]
pub struct Place<'a> {
    /// The directory below which it applies, without a slash at either end. If it is empty, the list applies to all paths.
    pub directory: &'a [u8],
    /// What is told as its source.
    pub source: &'a [u8],
}

/// Adds the list of an attributes file as the last one, below a directory of any bytes. Says its index, and how many lines were dropped
/// of it.
#[unsafe(no_mangle)]
pub extern "C" fn yektrod_add_in(
    alloc: Global,
    slot: &mut Slot,
    bytes: &[u8],
    place: &Place<'_>,
    allow_macros: bool,
    list: &mut usize,
    dropped: &mut usize,
) -> i32
    ensures done { result ≡ status_done → held slot.new ≡ option_map (with_list_below
        (passed_list bytes.now place.now allow_macros)) (held slot.old) }
    ensures list { result ≡ status_done →
        option_map (λ content. length content.state.lists) (held slot.old) ≡ Some list.new }
    ensures dropped { result ≡ status_done → dropped.new ≡ length (dropped_lines bytes.now) }
    ensures failed { ¬ (result ≡ status_done) → sourced slot.new ≡ sourced slot.old }
    ensures kept { ¬ (result ≡ status_done) →
        (list.new ≡ list.old) × (dropped.new ≡ dropped.old) }
    ensures shut { result ≡ status_shut ↔ (held slot.old ≡ None) }
    ensures unreadable { result ≡ status_unreadable ↔ (¬ (held slot.old ≡ None)
        × (names_directory place.now.directory.now ≡ false)) }
    ensures status { (result ≡ status_done) ⊎ (result ≡ status_no_memory)
        ⊎ (result ≡ status_shut) ⊎ (result ≡ status_unreadable) }
{
    if !slot.live {
        return SHUT;
    }
    if !names_directory(place.directory) {
        return UNREADABLE;
    }
    let Ok(base) = base_of_directory(alloc, place.directory) else {
        return NO_MEMORY;
    };
    let added = list_of(allow_macros, place.source, &base, bytes);
    let held = slot.handle.engine();
    let index = held.num_lists();
    match held.add(alloc, added) {
        Ok(()) => {
            *list = index;
            *dropped = held.labelled().dropped().len();
            DONE
        }
        Err(_) => NO_MEMORY,
    }
}

// Whether the bytes name a directory of a repository: they are empty, or parts with a slash between each two. No part is empty, `.`
// or `..`.
fn names_directory(bytes: &[u8]) -> bool
    ensures { result ≡ names_directory bytes.now }
{
    bytes.is_empty() || bytes.split(|byte| *byte == b'/').all(names_part)
}

fn names_part(part: &[u8]) -> bool
    ensures { result ≡ is_part part.now }
{
    part.len() > 2 || part.iter().any(|byte| *byte != b'.')
}

// The list with these parts.
fn list_of<'a>(
    allow_macros: bool,
    source: &'a [u8],
    base: &'a Option<Vec<u8>>,
    buffer: &'a [u8],
) -> SourcedList<'a>
    ensures { added_list_view result ≡ record {
      allow_macros = allow_macros;
      source = source.now;
      base = base_bytes base.now;
      buffer = buffer.now;
    } }
{
    let base = base.as_deref();
    SourcedList {
        allow_macros,
        source,
        base,
        buffer,
    }
}

/// Removes the last list.
#[unsafe(no_mangle)]
pub extern "C" fn yektrod_pop(slot: &mut Slot) -> i32
    ensures done { result ≡ status_done → held slot.new ≡ option_map without_last (held slot.old) }
    ensures failed { ¬ (result ≡ status_done) → sourced slot.new ≡ sourced slot.old }
    ensures shut { result ≡ status_shut ↔ (held slot.old ≡ None) }
    ensures no_list { result ≡ status_no_list ↔ HasNoList slot.old }
    ensures status { (result ≡ status_done) ⊎ (result ≡ status_shut) ⊎ (result ≡ status_no_list) }
{
    if !slot.live {
        return SHUT;
    }
    if slot.handle.engine().pop() {
        DONE
    } else {
        NO_LIST
    }
}

/// Tells which line was dropped, by its number among those that were, from 0.
#[unsafe(no_mangle)]
pub extern "C" fn yektrod_dropped(slot: &mut Slot, i: usize, line: &mut DroppedRow) -> i32
    ensures done { result ≡ status_done →
        option_map dropped_row (dropped_held slot.old i) ≡ Some line.new }
    ensures failed { ¬ (result ≡ status_done) → line.new ≡ line.old }
    ensures same { sourced slot.new ≡ sourced slot.old }
    ensures shut { result ≡ status_shut ↔ (held slot.old ≡ None) }
    ensures missing { result ≡ status_missing ↔ (¬ (held slot.old ≡ None)
        × (dropped_held slot.old i ≡ None)) }
    ensures status { (result ≡ status_done) ⊎ (result ≡ status_shut) ⊎ (result ≡ status_missing) }
{
    if !slot.live {
        return SHUT;
    }
    let Some(dropped) = slot.handle.engine().labelled().dropped().get(i).copied() else {
        return MISSING;
    };
    *line = DroppedRow {
        line: dropped.line,
        reason: reason_number(dropped.reason),
    };
    DONE
}

fn reason_number(reason: DropReason) -> i32
    ensures { result ≡ reason_code reason }
{
    match reason {
        DropReason::MacroName => 1,
        DropReason::NegativePattern => 2,
        DropReason::InvalidName => 3,
        DropReason::Reserved => 4,
    }
}
