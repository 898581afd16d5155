//! The lines of an attributes file as the mappings of a list.

ghost use Rattle.std.specs.Prelude.{◌≡◌, ◌||◌, map, Ok, IfOk};
ghost use Rattle.std.specs.Result.{result_map_both};
ghost use Rattle.attr_glob.specs.Patterns.{all_flags};
ghost use Rattle.attr_glob.specs.Views.{mode_bits, pattern_view};
ghost use Rattle.attr_text.specs.Items.{checked_name, with_state};
ghost use Rattle.attr_text.specs.Names.{is_valid_name};
ghost use Rattle.attr_text.specs.TextViews.{state_view};
ghost use Rattle.attr_lists.specs.LineViews.{target_view, line_view};
ghost use Rattle.attr_lists.specs.inner.LineSteps.{given_by, forgotten, item_name, item_names, kept_line_view, numbered_items, target_id, target_names, target_pattern, IsLineReadWith};
ghost use Rattle.attr_lists.specs.inner.NameSteps.{InsertsNames, ReadsWithNames};
ghost use Rattle.attr_lists.specs.ListViews.{entry_view, entries_view};
ghost use Rattle.attr_lists.specs.Numbers.{names_of, numbered, numbered_item};
ghost use Rattle.attr_lists.specs.shared.MacroNumbers.{defines_macros};
ghost use Rattle.attr_lists.specs.shared.Reading.{IsReadWith, ReadsNumbered};
ghost use Rattle.attr_lists.specs.KeptLists.{IsReadAs, tracked, reason_of, items_read, line_read, defines_no_macro, macro_valid, macros_valid};

use crate::name_table::name_set::NameSet;
use crate::parse::{AttrError, Error, Iter, Kind, parse};
use crate::types::{Assignments, AttributeId, DropReason, Dropped, TrackedAssignment, Value};
use attr_glob::pattern::Mode;
use attr_glob::search::pattern::Mapping;
use attr_glob::{Pattern, search};
use attr_text::{Assignment, NameRef, StateRef};
use bitflags::Flags;
use bstr::BStr;
use smallvec::SmallVec;
use std::alloc::{AllocError, Global};

/// The kind of list that is read from attributes files: its values are the assignments of the lines.
#[derive(Clone, Copy, PartialEq, Eq, PartialOrd, Ord, Hash, Debug, Default)]
pub struct Attributes;

impl search::Pattern for Attributes {
    type Value = Value;

    type Dropped = Dropped;

    ghost reads = { λ parse bytes source mappings dropped. IsReadAs bytes mappings dropped };

    // The path of the file changes nothing in the lines.
    fn bytes_to_patterns(
        &self,
        alloc: Global,
        bytes: &[u8],
        _source: &str,
    ) -> Result<(Vec<Mapping<Value>>, Vec<Dropped>), AllocError> {
        let mut names = NameSet::new(alloc);
        let (mut mappings, dropped) = read_buffer(alloc, &mut names, bytes, true)?;
        forget_all_numbers(&mut mappings);
        Ok((mappings, dropped))
    }
}

fn forget_all_numbers(mappings: &mut [Mapping<Value>])
    ensures { entries_view mappings.new ≡ map forgotten (entries_view mappings.old) }
{
    for mapping in mappings.iter_mut() {
        forget_numbers(mapping);
    }
}

// Takes the numbers from a line, as before it is numbered.
fn forget_numbers(mapping: &mut Mapping<Value>)
    ensures { entry_view mapping.new ≡ forgotten (entry_view mapping.old) }
{
    match &mut mapping.value {
        Value::MacroAssignments { id, assignments } => {
            *id = AttributeId::default();
            forget_ids(assignments);
        }
        Value::Assignments(assignments) => forget_ids(assignments),
    }
}

fn forget_ids(items: &mut [TrackedAssignment])
    ensures { items.new ≡ map (λ item. tracked item.inner) items.old }
{
    for item in items.iter_mut() {
        item.id = AttributeId::default();
    }
}

/// Reads a buffer as the mappings of a list, and returns them with the dropped lines. Lines that define a macro are left out unless
/// macros are allowed. The lines have the numbers of their names, among which new ones are inserted. A line that is dropped or left out
/// numbers none.
///
/// # Errors
///
/// If memory runs out. Some of the names may have been inserted then.
pub(crate) fn read_buffer(
    alloc: Global,
    names: &mut NameSet,
    bytes: &[u8],
    allow_macros: bool,
) -> Result<(Vec<Mapping<Value>>, Vec<Dropped>), AllocError>
    ensures { ReadsWithNames result (λ r. IsReadWith allow_macros bytes.now
        names.old names.new r.0.items r.1.items) names.old names.new }
{
    let mut mappings = Vec::new(alloc);
    let mut dropped = Vec::new(alloc);
    for line in parse(alloc, bytes) {
        let count = names.len();
        match read_line(alloc, names, line)? {
            Ok(mapping) => {
                if is_kept(allow_macros, &mapping) {
                    mappings.push(mapping)?;
                } else {
                    drop(mapping);
                    names.truncate(count);
                }
            }
            Err(line) => {
                names.truncate(count);
                dropped.push(line)?;
            }
        }
    }
    mappings.shrink_to_fit();
    Ok((mappings, dropped))
}

// Whether the line defines no macro, or macros are allowed.
fn is_kept(allow_macros: bool, mapping: &Mapping<Value>) -> bool
    ensures { result ≡ (allow_macros || defines_no_macro (entry_view mapping.now)) }
{
    allow_macros || defines_no_macro(mapping)
}

// The mapping of a line, or the line as a dropped one, of whose names some may have been inserted.
fn read_line(
    alloc: Global,
    names: &mut NameSet,
    line: Result<(Kind, Iter<'_>, usize), Error>,
) -> Result<Result<Mapping<Value>, Dropped>, AllocError>
    ensures { ReadsWithNames result (λ read. IsLineReadWith names.old names.new
        (line_view line.entry) (kept_line_view read)) names.old names.new }
{
    match line {
        Ok((kind, items, number)) => read_given(alloc, names, kind, items, number),
        Err(Error::MacroName { line, .. }) => Ok(Err(Dropped {
            line,
            reason: DropReason::MacroName,
        })),
        Err(Error::NegativePattern { line, .. }) => Ok(Err(Dropped {
            line,
            reason: DropReason::NegativePattern,
        })),
        Err(Error::OutOfMemory) => Err(AllocError),
    }
}

fn read_given(
    alloc: Global,
    names: &mut NameSet,
    kind: Kind,
    items: Iter<'_>,
    line: usize,
) -> Result<Result<Mapping<Value>, Dropped>, AllocError>
    ensures { ReadsWithNames result (λ read. ReadsNumbered names_of numbered
        (line_read (Ok (given_by kind items.entry line))) names.old names.new
        (kept_line_view read)) names.old names.new }
{
    let id = number_macro(alloc, names, &kind)?;
    match read_items(alloc, names, items)? {
        Ok(assignments) => Ok(Ok(Mapping {
            pattern: pattern_of(alloc, kind)?,
            value: match id {
                Some(id) => Value::MacroAssignments { id, assignments },
                None => Value::Assignments(assignments),
            },
            sequence_number: line,
        })),
        Err(reason) => Ok(Err(Dropped { line, reason })),
    }
}

// The number of the macro that a line defines, if it defines one.
fn number_macro(
    alloc: Global,
    names: &mut NameSet,
    kind: &Kind,
) -> Result<Option<AttributeId>, AllocError>
    ensures inserted { InsertsNames result
        (target_names (target_view kind.now)) names.old names.new }
    ensures id { IfOk result (λ id. id ≡ target_id names.new (target_view kind.now)) }
{
    match kind {
        Kind::Pattern(_) => Ok(None),
        Kind::Macro(name) => Ok(Some(AttributeId(names.number(alloc, name.as_str())?))),
    }
}

// The numbered assignments of a line, or why one of its items is refused. Of its names some may have been inserted then.
fn read_items(
    alloc: Global,
    names: &mut NameSet,
    mut items: Iter<'_>,
) -> Result<Result<Assignments, DropReason>, AllocError>
    ensures { ReadsWithNames result (λ read. ReadsNumbered item_names numbered_items
        (items_read items.entry) names.old names.new
        (result_map_both (λ a. a.items) (λ reason. reason) read)) names.old names.new }
{
    let mut assignments = SmallVec::new(alloc);
    while let Some((name, state)) = items.next_parts() {
        match read_item(alloc, names, name, state)? {
            Ok(assignment) => assignments.push(assignment)?,
            Err(reason) => return Ok(Err(reason)),
        }
    }
    Ok(Ok(assignments))
}

fn read_item(
    alloc: Global,
    names: &mut NameSet,
    name: &[u8],
    state: StateRef<'_>,
) -> Result<Result<TrackedAssignment, DropReason>, AllocError>
    ensures { ReadsWithNames result (λ read. ReadsNumbered item_name numbered_item
        (result_map_both tracked reason_of
        (with_state (checked_name name.now) (state_view state.entry)))
        names.old names.new read) names.old names.new }
{
    match names.number_item(alloc, name)? {
        Ok(number) => Ok(Ok(TrackedAssignment {
            id: AttributeId(number),
            inner: Assignment {
                name: names.share(number)?,
                state: names.state(alloc, state)?,
            },
        })),
        Err(AttrError::InvalidName(_)) => Ok(Err(DropReason::InvalidName)),
        Err(AttrError::Reserved(_)) => Ok(Err(DropReason::Reserved)),
    }
}

// The pattern of a line. That of a line that defines a macro matches no path (own).
fn pattern_of(alloc: Global, kind: Kind) -> Result<Pattern, AllocError>
    ensures { IfOk result (λ pattern. pattern_view pattern ≡ target_pattern (target_view kind)) }
{
    match kind {
        Kind::Pattern(pattern) => Ok(pattern),
        Kind::Macro(name) => Ok(Pattern {
            text: Vec::from_slice(alloc, name.as_str().as_bytes())?,
            mode: macro_mode(),
            first_wildcard_pos: None,
        }),
    }
}

// The bits of the five flags.
const ALL_BITS: u32 = 0b1_1111;

// The mode of the pattern of a line that defines a macro, all five flags: it matches no path (own).
fn macro_mode() -> Mode
    ensures { mode_bits result ≡ all_flags }
{
    Mode::from_bits_retain(ALL_BITS)
}

/// Whether a line defines a macro.
pub fn defines_macros(mappings: &[Mapping<Value>]) -> bool
    ensures { result ≡ defines_macros (entries_view mappings.now) }
{
    !mappings.iter().all(|mapping| defines_no_macro(mapping))
}

/// Whether the line defines no macro.
pub(crate) fn defines_no_macro(mapping: &Mapping<Value>) -> bool
    ensures { result ≡ defines_no_macro (entry_view mapping.now) }
{
    match &mapping.value {
        Value::MacroAssignments { .. } => false,
        Value::Assignments(_) => true,
    }
}

/// Whether each macro that the mappings define has a valid name. Mappings that are read from a buffer define no
/// others, but a program can build mappings that do.
pub fn macros_valid(mappings: &[Mapping<Value>]) -> bool
    ensures { result ≡ macros_valid (entries_view mappings.now) }
{
    mappings.iter().all(|mapping| macro_valid(mapping))
}

fn macro_valid(mapping: &Mapping<Value>) -> bool
    ensures { result ≡ macro_valid (entry_view mapping.now) }
{
    defines_no_macro(mapping) || is_valid_name(&mapping.pattern.text)
}

fn is_valid_name(text: &[u8]) -> bool
    ensures { result ≡ is_valid_name text.now }
{
    NameRef::try_from(BStr::new(text)).is_ok()
}
