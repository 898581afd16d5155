//! The entries of names: their definitions as macros.
ghost use Rattle.std.specs.Prelude.{◌≡◌, ◌≤◌, ◌==◌, not, filter, ◌++◌, [], ◌∷◌, ℕ, length, map, option_map, IfOk, IfSome, OnOk, OnErr};
ghost use Rattle.std.specs.Bool.{OnFalse};
ghost use Rattle.std.specs.List.{remove_range};
ghost use Rattle.std.specs.List.Sorted.{IsNonDecreasingBy};
ghost use Rattle.attr_lists.specs.Definitions.{definition_of, of_other_lists, last_body, last_defined};
ghost use Rattle.attr_lists.specs.inner.EntrySteps.{DefinesMacros, RemovesFrom, RemovesListed};
ghost use Rattle.attr_lists.specs.inner.EntryViews.{definitions_view, all_definitions, definitions_at, AreAllInOrder, AreEntries, AreInListOrder, IsEntry};
ghost use Rattle.attr_lists.specs.inner.Registered.{numbered_body};

use crate::types::{AttributeId, Metadata};
use std::alloc::{AllocError, Global};
use std::rc::Rc;

/// The definitions of a name.
#[derive(Debug, Drop)]
pub(super) struct NameEntry {
    // The metadata without a definition: no body.
    undefined: Metadata,
    // The latest is the last.
    definitions: Vec<Definition>,
}

/// A definition of a macro.
#[derive(Clone, Debug, Drop)]
struct Definition {
    // The list id of its list.
    list_id: usize,
    // The macro, which is shared with the list.
    metadata: Rc<Metadata>,
}

impl NameEntry {
    fn of(alloc: Global, number: usize) -> NameEntry
        ensures entry { IsEntry number result }
        ensures definitions { definitions_view result ≡ [] }
    {
        NameEntry {
            undefined: Metadata::of(alloc, AttributeId(number)),
            definitions: Vec::new(alloc),
        }
    }

    /// The number, and the body of the last definition.
    pub(super) fn metadata(&self) -> &Metadata
        ensures id { (number : ℕ) → IsEntry number self.now → result.now.id.0 ≡ number }
        ensures body { (number : ℕ) → IsEntry number self.now →
            result.now.macro_attributes.items ≡ last_body (definitions_view self.now) }
    {
        match self.definitions.last() {
            Some(definition) => definition.metadata.as_ref(),
            None => &self.undefined,
        }
    }

    /// The last definition, if there is one.
    pub(super) fn definition(&self) -> Option<&Rc<Metadata>>
        ensures id { (number : ℕ) → IsEntry number self.now →
            IfSome result (λ known. known.now.value.id.0 ≡ number) }
        ensures body { option_map (λ known. known.now.value.macro_attributes.items) result
            ≡ last_defined (definitions_view self.now) }
    {
        let definition = self.definitions.last()?;
        Some(&definition.metadata)
    }

    /// Whether there is a definition.
    pub(super) fn is_defined(&self) -> bool
        ensures { OnFalse result (definitions_view self.now ≡ []) }
    {
        !self.definitions.is_empty()
    }

    // Adds a definition.
    fn define(&mut self, list_id: usize, metadata: Rc<Metadata>) -> Result<(), AllocError>
        ensures ok { OnOk result (definitions_view self.new
            ≡ definitions_view self.old
            ++ definition_of list_id metadata.value.macro_attributes.items ∷ []) }
        ensures err { OnErr result (definitions_view self.new ≡ definitions_view self.old) }
        ensures entry { IsEntry metadata.value.id.0 self.old →
            IsEntry metadata.value.id.0 self.new }
    {
        self.definitions.push(Definition { list_id, metadata })?;
        Ok(())
    }

    // Removes the definitions of a list. They stand next to one another, since definitions are in the order of list ids.
    fn remove(&mut self, list_id: usize)
        requires { AreInListOrder (definitions_view self.old) }
        ensures { RemovesFrom list_id self.old self.new }
    {
        let (start, end) = run_of(&self.definitions, list_id);
        self.definitions.drain(start..end);
    }

    fn clone(&self, alloc: Global) -> Result<NameEntry, AllocError>
        ensures definitions { IfOk result (λ copy. definitions_view copy
            ≡ definitions_view self.now) }
        ensures entry { IfOk result (λ copy.
            (number : ℕ) → IsEntry number self.now → IsEntry number copy) }
    {
        Ok(NameEntry {
            undefined: self.undefined.clone(alloc)?,
            definitions: self.definitions.clone()?,
        })
    }
}

// The indices where the definitions of a list begin and end, if list ids don't fall.
fn run_of(definitions: &[Definition], list_id: usize) -> (usize, usize)
    requires { IsNonDecreasingBy (λ d. d.list_id) definitions.now }
    ensures order { result.0 ≤ result.1 }
    ensures end { result.1 ≤ length definitions.now }
    ensures others { remove_range definitions.now result.0 result.1
        ≡ filter (λ d. not (d.list_id == list_id)) definitions.now }
{
    let start = definitions.partition_point(|definition| definition.list_id < list_id);
    let end = definitions.partition_point(|definition| definition.list_id <= list_id);
    (start, end)
}

/// Appends entries without a definition, until there are `count`.
pub(super) fn extend(
    alloc: Global,
    entries: &mut Vec<NameEntry>,
    count: usize,
) -> Result<(), AllocError>
    requires { length entries.old.items ≤ count }
    ensures ok { OnOk result (length entries.new.items ≡ count) }
    ensures more { length entries.old.items ≤ length entries.new.items }
    ensures definitions { (number : ℕ) → definitions_at entries.new.items number
        ≡ definitions_at entries.old.items number }
    ensures entries { AreEntries entries.old.items → AreEntries entries.new.items }
{
    for number in entries.len()..count {
        entries.push(NameEntry::of(alloc, number))?;
    }
    Ok(())
}

/// Adds the macros of a list to the definitions of their names.
#[tactic(auto, using(crate::proofs::EntryLemmas::define_list_step))]
pub(super) fn define_list(
    entries: &mut [NameEntry],
    list_id: usize,
    list: &[Rc<Metadata>],
) -> Result<(), AllocError>
    ensures { DefinesMacros result list_id
        (map numbered_body list.now) entries.old entries.new }
{
    for known in list {
        define(entries, list_id, known)?;
    }
    Ok(())
}

fn define(entries: &mut [NameEntry], list_id: usize, known: &Rc<Metadata>) -> Result<(), AllocError>
    ensures { DefinesMacros result list_id
        (numbered_body known.now ∷ []) entries.old entries.new }
{
    let own = known.id.0;
    if own >= entries.len() {
        return Ok(());
    }
    let metadata = known.clone()?;
    entries[own].define(list_id, metadata)?;
    Ok(())
}

/// Removes all definitions of a list that is partly added. This looks at all names.
pub(super) fn take_back(entries: &mut [NameEntry], list_id: usize)
    ensures definitions { all_definitions entries.new
        ≡ map (of_other_lists list_id) (all_definitions entries.old) }
    ensures entries { AreEntries entries.old → AreEntries entries.new }
{
    for entry in entries.iter_mut() {
        entry
            .definitions
            .retain(|definition| definition.list_id != list_id);
    }
}

/// Removes the definitions that a list has of the names of these macros. This takes a step for each macro, and moves the
/// definitions of later lists.
pub(super) fn remove_list(entries: &mut [NameEntry], list_id: usize, list: &[Rc<Metadata>])
    requires { AreAllInOrder entries.old }
    ensures { RemovesListed list_id (map numbered_body list.now) entries.old entries.new }
{
    for known in list {
        let number = known.id.0;
        if number < entries.len() {
            entries[number].remove(list_id);
        }
    }
}

/// A copy of the entries.
pub(super) fn clone_entries(
    alloc: Global,
    entries: &[NameEntry],
) -> Result<Vec<NameEntry>, AllocError>
    ensures definitions { IfOk result (λ copy. all_definitions copy.items
        ≡ all_definitions entries.now) }
    ensures entries { IfOk result (λ copy. AreEntries entries.now → AreEntries copy.items) }
{
    let mut copy = Vec::new(alloc);
    for entry in entries {
        copy.push(entry.clone(alloc)?)?;
    }
    Ok(copy)
}
