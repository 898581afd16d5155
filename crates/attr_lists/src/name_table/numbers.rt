//! The numbers in the lines of a list, and the macros that the lines define.
ghost use Rattle.std.specs.Prelude.{◌≡◌, [], ◌∷◌, true, map, IfOk, OnOk, IsTrue};
ghost use Rattle.attr_text.specs.Names.{is_valid_name};
ghost use Rattle.attr_lists.specs.KeptLists.{macro_valid, macros_valid};
ghost use Rattle.attr_lists.specs.Definitions.{macros_defined};
ghost use Rattle.attr_lists.specs.inner.Registered.{numbered_body};
ghost use Rattle.attr_lists.specs.inner.NameSteps.{InsertsNames};
ghost use Rattle.attr_lists.specs.ListViews.{entry_view, entries_view};
ghost use Rattle.attr_lists.specs.Numbers.{names_of, names_in, numbered_item, numbered, numbered_lines};

use crate::name_table::name_set::NameSet;
use crate::types::{Assignments, AttributeId, Metadata, TrackedAssignment, Value, cloned};
use attr_glob::Pattern;
use attr_glob::search::pattern::Mapping;
use bstr::ByteSlice;
use std::alloc::{AllocError, Global};
use std::rc::Rc;

/// Numbers the lines of a list: its items, and the macros that it defines. New names are inserted, and get the next numbers.
///
/// # Errors
///
/// If memory runs out. Some of the names may have been inserted then, and some of the lines numbered.
pub(super) fn number_list(
    alloc: Global,
    names: &mut NameSet,
    mappings: &mut [Mapping<Value>],
) -> Result<(), AllocError>
    requires { macros_valid (entries_view mappings.old) ≡ true }
    ensures inserted { InsertsNames result
        (names_in (entries_view mappings.old)) names.old names.new }
    ensures numbered { OnOk result (entries_view mappings.new
        ≡ numbered_lines names.new (entries_view mappings.old)) }
{
    for mapping in mappings.iter_mut() {
        number_line(alloc, names, mapping)?;
    }
    Ok(())
}

// Numbers the macro that a line defines before its items.
fn number_line(
    alloc: Global,
    names: &mut NameSet,
    mapping: &mut Mapping<Value>,
) -> Result<(), AllocError>
    requires { macro_valid (entry_view mapping.old) ≡ true }
    ensures inserted { InsertsNames result
        (names_of (entry_view mapping.old)) names.old names.new }
    ensures numbered { OnOk result
        (entry_view mapping.new ≡ numbered names.new (entry_view mapping.old)) }
{
    match &mut mapping.value {
        Value::MacroAssignments { id, assignments } => {
            *id = AttributeId(names.number(alloc, macro_name(&mapping.pattern))?);
            number_items(alloc, names, assignments)
        }
        Value::Assignments(assignments) => number_items(alloc, names, assignments),
    }
}

fn number_items(
    alloc: Global,
    names: &mut NameSet,
    items: &mut [TrackedAssignment],
) -> Result<(), AllocError>
    ensures inserted { InsertsNames result
        (map (λ item. item.inner.name) items.old) names.old names.new }
    ensures numbered { OnOk result (items.new ≡ map (numbered_item names.new) items.old) }
{
    for item in items.iter_mut() {
        number_item(alloc, names, item)?;
    }
    Ok(())
}

// Numbers an item. Its name takes the text that the names have of it, so that all lists share one.
fn number_item(
    alloc: Global,
    names: &mut NameSet,
    item: &mut TrackedAssignment,
) -> Result<(), AllocError>
    ensures inserted { InsertsNames result
        (item.old.inner.name ∷ []) names.old names.new }
    ensures numbered { OnOk result (item.new ≡ numbered_item names.new item.old) }
{
    let number = names.number(alloc, item.inner.name.as_str())?;
    item.inner.name = names.share(number)?;
    item.id = AttributeId(number);
    Ok(())
}

/// The macros that numbered lines define, line by line, each with a copy of its body, which its definition and the list share.
///
/// # Errors
///
/// If memory runs out.
pub(super) fn macros_of(
    alloc: Global,
    mappings: &[Mapping<Value>],
) -> Result<Vec<Rc<Metadata>>, AllocError>
    ensures { IfOk result (λ macros.
        map numbered_body macros.items ≡ macros_defined (entries_view mappings.now)) }
{
    let mut macros = Vec::new(alloc);
    for mapping in mappings {
        if let Value::MacroAssignments { id, assignments } = &mapping.value {
            macros.push(shared_macro(alloc, *id, assignments)?)?;
        }
    }
    Ok(macros)
}

// The macro with this number and a copy of this body.
fn shared_macro(
    alloc: Global,
    id: AttributeId,
    body: &Assignments,
) -> Result<Rc<Metadata>, AllocError>
    ensures id { IfOk result (λ defined. defined.value.id ≡ id) }
    ensures body { IfOk result (λ defined.
        defined.value.macro_attributes.items ≡ body.now.items) }
{
    let metadata = Metadata {
        id,
        macro_attributes: cloned(body)?,
    };
    Ok(Rc::new(alloc, metadata)?)
}

// The name of the macro that a line defines, which is the text of its pattern.
fn macro_name(pattern: &Pattern) -> &str
    requires { IsTrue (is_valid_name pattern.now.text.items) }
    ensures { result.now ≡ pattern.now.text.items }
{
    match pattern.text.as_slice().to_str() {
        Ok(name) => name,
        Err(_) => unreachable!(),
    }
}
