//! The numbers of the names that are macros.

ghost use Rattle.std.specs.Prelude.{◌≡◌, [], OnOk, map};
ghost use Rattle.std.specs.Bool.{OnFalse};
ghost use Rattle.attr_lists.specs.inner.EntryViews.{definitions_at};
ghost use Rattle.attr_lists.specs.inner.Registered.{ListsBodies, numbered_body};
ghost use Rattle.attr_lists.specs.shared.MacroNumbers.{KeepsNumbers, RemovesUndefined};

use crate::name_table::entry::NameEntry;
use crate::types::Metadata;
use std::alloc::AllocError;
use std::collections::BTreeSet;
use std::rc::Rc;

/// Inserts the numbers of the macros of a list.
///
/// # Errors
///
/// If memory runs out. Some of the numbers may have been inserted then.
pub(super) fn insert_macros(
    macros: &mut BTreeSet<usize>,
    list: &[Rc<Metadata>],
) -> Result<(), AllocError>
    ensures kept { KeepsNumbers macros.old macros.new }
    ensures listed { OnOk result (ListsBodies macros.new (map numbered_body list.now)) }
{
    for known in list {
        macros.insert(known.id.0)?;
    }
    Ok(())
}

/// Removes the numbers of the macros of a list, if no definition is left.
pub(super) fn remove_macros(
    entries: &[NameEntry],
    macros: &mut BTreeSet<usize>,
    list: &[Rc<Metadata>],
)
    ensures { RemovesUndefined entries.now macros.old macros.new }
{
    for known in list {
        let number = known.id.0;
        if !is_defined(entries, number) {
            macros.remove(&number);
        }
    }
}

// Whether the name with this number has a definition.
fn is_defined(entries: &[NameEntry], number: usize) -> bool
    ensures { OnFalse result (definitions_at entries.now number ≡ []) }
{
    match entries.get(number) {
        Some(entry) => entry.is_defined(),
        None => false,
    }
}
