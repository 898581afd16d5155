//! The attributes that the answers for selected ones depend on.

ghost use Rattle.std.specs.Prelude.{◌≡◌, ℕ, true, ◌<◌, ◌++◌, [], All, OnOk, IfOk, length, map};
ghost use Rattle.std.specs.List.{Contains};
ghost use Rattle.std.specs.List.Sorted.{IsNonDecreasingBy};
ghost use Rattle.gix_attributes.specs.inner.Consistency.{AreEmptyElsewhere};
ghost use Rattle.gix_attributes.specs.inner.Needed.{AreClosedBut, AreOwnersOf, AreOwnersSet, HasOwners, IsClosedOver, IsFlagSet, IsMarked, SetsOnly, body_item, items_with};
ghost use Rattle.attr_search.specs.shared.Slotted.{bodies_view};

use crate::search::{Metadata, TrackedAssignment};
use attr_search::bodies::body_at;
use attr_search::wanted::WantedFlags;
use std::alloc::{AllocError, Global};
use std::collections::BTreeSet;
use std::rc::Rc;

/// An item of a macro's body: its attribute, and the macro.
#[derive(Clone, Copy)]
pub(crate) struct BodyItem {
    attribute: usize,
    owner: usize,
}

/// For each attribute the macros whose bodies have an item of it.
#[derive(Drop)]
pub(crate) struct Owners {
    // The items of all bodies, in the order of their attributes.
    items: Vec<BodyItem>,
}

impl Owners {
    /// The owners of the items of bodies, of which those of other numbers than the macros' are empty.
    ///
    /// # Errors
    ///
    /// If memory runs out.
    pub(crate) fn of(
        alloc: Global,
        bodies: &[Option<Rc<Metadata>>],
        macros: &BTreeSet<usize>,
    ) -> Result<Owners, AllocError>
        requires { AreEmptyElsewhere macros.now (bodies_view bodies.now) }
        ensures { IfOk result
            (λ owners. AreOwnersOf (bodies_view bodies.now) owners.items.items) }
    {
        let mut items = Vec::new(alloc);
        push_bodies(bodies, macros, &mut items)?;
        items.sort_unstable_by_key(|item| item.attribute);
        Ok(Owners { items })
    }

    /// Sets the flag of each macro whose body has an item of an attribute whose flag is set, until there are no more. The stack has
    /// the attributes whose flags are set. It costs what is set, however macros name each other.
    ///
    /// # Errors
    ///
    /// If memory runs out.
    pub(crate) fn mark_all(
        &self,
        flags: &mut WantedFlags,
        stack: &mut Vec<usize>,
    ) -> Result<(), AllocError>
        requires order { IsNonDecreasingBy (λ i. i.attribute) self.now.items.items }
        requires within { All (λ i. i.owner < length flags.old) self.now.items.items }
        requires stacked { All (IsFlagSet flags.old) stack.old.items }
        requires pending { AreClosedBut stack.old.items flags.old self.now.items.items }
        ensures count { OnOk result (length flags.new ≡ length flags.old) }
        ensures kept { OnOk result ((a : ℕ) → IsFlagSet flags.old a → IsFlagSet flags.new a) }
        ensures closed { OnOk result (AreClosedBut [] flags.new self.now.items.items) }
        ensures only { OnOk result (SetsOnly
            flags.old flags.new (IsClosedOver self.now.items.items)) }
    {
        while let Some(attribute) = stack.pop() {
            mark_owners(items_of(&self.items, attribute), flags, stack)?;
        }
        Ok(())
    }
}

// Pushes the items of the bodies of macros.
fn push_bodies(
    bodies: &[Option<Rc<Metadata>>],
    macros: &BTreeSet<usize>,
    items: &mut Vec<BodyItem>,
) -> Result<(), AllocError>
    ensures { OnOk result (items.new.items
        ≡ items.old.items ++ items_with (bodies_view bodies.now) macros.now.keys) }
{
    for number in macros.iter() {
        push_items(body_at(bodies, *number), *number, items)?;
    }
    Ok(())
}

// Pushes the items of the body of a macro.
fn push_items(
    body: &[TrackedAssignment],
    owner: usize,
    items: &mut Vec<BodyItem>,
) -> Result<(), AllocError>
    ensures { OnOk result (items.new.items
        ≡ items.old.items ++ map (body_item owner) body.now) }
{
    for item in body {
        items.push(BodyItem {
            attribute: item.id.0,
            owner,
        })?;
    }
    Ok(())
}

// The items of an attribute, if items are in the order of their attributes.
fn items_of(items: &[BodyItem], attribute: usize) -> &[BodyItem]
    requires { IsNonDecreasingBy (λ i. i.attribute) items.now }
    ensures all { All (λ i. i.attribute ≡ attribute → Contains result.now i) items.now }
    ensures within { All (Contains items.now) result.now }
    ensures same { All (λ i. i.attribute ≡ attribute) result.now }
{
    let start = items.partition_point(|item| item.attribute < attribute);
    let rest = &items[start..];
    let len = rest.partition_point(|item| item.attribute <= attribute);
    &rest[..len]
}

// Sets the flag of an attribute, and pushes the attribute if it was not set.
fn mark(attribute: usize, flags: &mut WantedFlags, stack: &mut Vec<usize>) -> Result<(), AllocError>
    requires { attribute < length flags.old }
    ensures marked { OnOk result (IsMarked flags.old stack.old.items flags.new stack.new.items) }
    ensures set { OnOk result (IsFlagSet flags.new attribute) }
    ensures only { OnOk result (SetsOnly flags.old flags.new (λ has. has attribute ≡ true)) }
{
    if !flags.has(attribute) {
        flags.set(attribute)?;
        stack.push(attribute)?;
    }
    Ok(())
}

// Marks the macros of items.
fn mark_owners(
    items: &[BodyItem],
    flags: &mut WantedFlags,
    stack: &mut Vec<usize>,
) -> Result<(), AllocError>
    requires { All (λ i. i.owner < length flags.old) items.now }
    ensures marked { OnOk result (IsMarked flags.old stack.old.items flags.new stack.new.items) }
    ensures set { OnOk result (AreOwnersSet flags.new items.now) }
    ensures only { OnOk result (SetsOnly flags.old flags.new (HasOwners items.now)) }
{
    for item in items {
        mark(item.owner, flags, stack)?;
    }
    Ok(())
}
