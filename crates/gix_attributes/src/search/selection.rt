//! The names that an outcome looks for, with their numbers, and the bodies in which it differs from a collection.

ghost use Rattle.std.specs.Prelude.{◌≡◌, ◌↔◌, ◌<◌, ◌++◌, ⊤, ℕ, List, IsTrue, All, IfOk, OnOk, MatchOption, length, map};
ghost use Rattle.std.specs.Rc.{rc_str_bytes};
ghost use Rattle.gix_attributes.specs.Contents.{bodies_of, looked_up, names_selected};
ghost use Rattle.gix_attributes.specs.inner.BodiesMade.{AreMade};
ghost use Rattle.gix_attributes.specs.inner.Consistency.{AreEmptyElsewhere};
ghost use Rattle.gix_attributes.specs.inner.Needed.{flags_of, numbers_of};
ghost use Rattle.gix_attributes.specs.Selection.{selection_view};
ghost use Rattle.attr_search.specs.shared.BodyChanges.{changed_bodies, sized_bodies};
ghost use Rattle.attr_search.specs.shared.Slotted.{bodies_view};

use crate::search::collection::MetadataCollection;
use crate::search::selected_name::SelectedName;
use crate::search::{Metadata, TrackedAssignment};
use attr_search::bodies::{BodyChange, body_at};
use attr_search::wanted::WantedFlags;
use std::alloc::{AllocError, Global};
use std::collections::BTreeSet;
use std::rc::{Rc, RcStr};

/// Looks up the numbers of names.
pub(crate) fn look_up(
    alloc: Global,
    collection: &MetadataCollection,
    names: &[&str],
) -> Result<Vec<SelectedName>, AllocError>
    ensures { IfOk result (λ selected. selection_view selected.items
        ≡ looked_up collection.now.names (map (λ name. name.now) names.now)) }
{
    let mut selected = Vec::new(alloc);
    for name in names {
        let number = collection.number_of(name);
        let text = text_of(alloc, &selected, name)?;
        selected.push(SelectedName::new(text, number))?;
    }
    Ok(selected)
}

// The text of a name, which shares that of the last selected name if this is the same.
fn text_of(alloc: Global, selected: &[SelectedName], name: &str) -> Result<RcStr, AllocError>
    ensures { IfOk result (λ text. rc_str_bytes text ≡ name.now) }
{
    match selected.last() {
        Some(last) if last.name.as_str() == name => last.name.clone(),
        _ => RcStr::from_str(alloc, name),
    }
}

/// Looks up the numbers of selected names again.
pub(crate) fn look_up_again(
    alloc: Global,
    collection: &MetadataCollection,
    selected: &[SelectedName],
) -> Result<Vec<SelectedName>, AllocError>
    ensures { IfOk result (λ again. selection_view again.items
        ≡ looked_up collection.now.names (names_selected (selection_view selected.now))) }
{
    let mut again = Vec::new(alloc);
    for wanted in selected {
        let number = collection.number_of(wanted.name.as_str());
        again.push(wanted.with_number(number)?)?;
    }
    Ok(again)
}

/// A copy of selected names.
pub(crate) fn copy_of(
    alloc: Global,
    selected: &[SelectedName],
) -> Result<Vec<SelectedName>, AllocError>
    ensures { IfOk result (λ copy. selection_view copy.items ≡ selection_view selected.now) }
{
    let mut copy = Vec::new(alloc);
    for wanted in selected {
        copy.push(wanted.with_number(wanted.number)?)?;
    }
    Ok(copy)
}

/// For each number below the count, whether it is wanted: all are if nothing is selected.
pub(crate) fn flags(
    alloc: Global,
    selected: &[SelectedName],
    count: usize,
) -> Result<WantedFlags, AllocError>
    requires { All (λ s. MatchOption s.number ⊤ (λ n. n < count)) selected.now }
    ensures { IfOk result (λ flags. flags ≡ flags_of (selection_view selected.now) count) }
{
    let mut flags = WantedFlags::all_or_none(alloc, count, selected.is_empty());
    for wanted in selected {
        if let Some(number) = wanted.number {
            flags.set(number)?;
        }
    }
    Ok(flags)
}

/// The numbers of selected names, of those that have one.
pub(crate) fn numbers(alloc: Global, selected: &[SelectedName]) -> Result<Vec<usize>, AllocError>
    ensures { IfOk result (λ numbers. numbers.items ≡ numbers_of selected.now) }
{
    let mut numbers = Vec::new(alloc);
    for wanted in selected {
        if let Some(number) = wanted.number {
            numbers.push(number)?;
        }
    }
    Ok(numbers)
}

/// The changes that make bodies those of a collection, if there are as many. The bodies of other numbers than these are empty, so
/// that macros alone are changed.
pub(crate) fn body_changes(
    alloc: Global,
    bodies: &[Option<Rc<Metadata>>],
    macros: &BTreeSet<usize>,
    collection: &MetadataCollection,
) -> Result<Vec<BodyChange>, AllocError>
    requires { AreEmptyElsewhere macros.now (bodies_view bodies.now) }
    ensures numbers { IfOk result (λ changes.
        All (λ change. change.number < length collection.now.names) changes.items) }
    ensures made { IfOk result (λ changes. changed_bodies changes.items
        (sized_bodies (length collection.now.names) (bodies_view bodies.now))
        ≡ bodies_of collection.now) }
{
    let mut changes = Vec::new(alloc);
    push_changes(macros, collection, &mut changes)?;
    push_changes(collection.macros(), collection, &mut changes)?;
    Ok(changes)
}

// Pushes changes to the collection's bodies of these numbers, of those that it has.
fn push_changes(
    numbers: &BTreeSet<usize>,
    collection: &MetadataCollection,
    changes: &mut Vec<BodyChange>,
) -> Result<(), AllocError>
    ensures numbers { OnOk result (
        All (λ change. change.number < length collection.now.names) changes.old.items →
        All (λ change. change.number < length collection.now.names) changes.new.items) }
    ensures made { OnOk result ((bodies : List (List TrackedAssignment)) (done : List ℕ) →
        AreMade collection.now bodies done changes.old.items →
        AreMade collection.now bodies (done ++ numbers.now.keys) changes.new.items) }
{
    for number in numbers.iter() {
        if *number < collection.len() {
            changes.push(BodyChange {
                number: *number,
                body: collection.share_definition(*number)?,
            })?;
        }
    }
    Ok(())
}

/// Whether the bodies are those of a collection.
pub(crate) fn are_bodies_of(
    bodies: &[Option<Rc<Metadata>>],
    collection: &MetadataCollection,
) -> bool
    requires { length bodies.now ≡ length collection.now.names }
    ensures { IsTrue result ↔ (bodies_view bodies.now ≡ bodies_of collection.now) }
{
    for number in 0..bodies.len() {
        if !is_same(body_at(bodies, number), collection.body(number).as_slice()) {
            return false;
        }
    }
    true
}

fn is_same(body: &[TrackedAssignment], other: &[TrackedAssignment]) -> bool
    ensures { IsTrue result ↔ (body.now ≡ other.now) }
{
    body == other
}
