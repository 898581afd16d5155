//! What attributes are as macros: their definitions, by number. A definition is shared with the collection by a count.

ghost use Rattle.std.specs.Prelude.{◌≡◌, ◌<◌, [], All, OnErr, OnOk, length, slice_index_or};
ghost use Rattle.attr_search.specs.shared.BodyChanges.{changed_bodies, sized_bodies};
ghost use Rattle.attr_search.specs.shared.Slotted.{bodies_view};

use attr_lists::types::{Metadata, TrackedAssignment};
use std::alloc::{AllocError, Global};
use std::rc::Rc;

/// The definition that an attribute gets in place of its own, if it gets one.
#[derive(Drop)]
pub struct BodyChange {
    pub number: usize,
    pub body: Option<Rc<Metadata>>,
}

/// The body of the attribute with this number, which is empty if it is no macro.
pub fn body_of(bodies: &[Option<Rc<Metadata>>], number: usize) -> &[TrackedAssignment]
    requires { number < length bodies.now }
    ensures { result.now ≡ slice_index_or (bodies_view bodies.now) number [] }
{
    match &bodies[number] {
        Some(known) => known.macro_attributes.as_slice(),
        None => &[],
    }
}

/// The same, and empty past the last attribute.
pub fn body_at(bodies: &[Option<Rc<Metadata>>], number: usize) -> &[TrackedAssignment]
    ensures { result.now ≡ slice_index_or (bodies_view bodies.now) number [] }
{
    match bodies.get(number) {
        Some(_) => body_of(bodies, number),
        None => &[],
    }
}

/// Makes as many places as the count: the last ones go, or ones without a definition come after the others.
///
/// # Errors
///
/// If memory runs out. The bodies are as they were then.
pub fn resize(bodies: &mut Vec<Option<Rc<Metadata>>>, count: usize) -> Result<(), AllocError>
    ensures ok { OnOk result (
        bodies_view bodies.new.items ≡ sized_bodies count (bodies_view bodies.old.items)) }
    ensures refused { OnErr result (bodies.new.items ≡ bodies.old.items) }
{
    let before = bodies.len();
    for _ in before..count {
        if bodies.push(None).is_err() {
            bodies.truncate(before);
            return Err(AllocError);
        }
    }
    bodies.truncate(count);
    Ok(())
}

/// Changes bodies, one after the other.
pub fn change(bodies: &mut Vec<Option<Rc<Metadata>>>, changes: Vec<BodyChange>)
    requires { All (λ change. change.number < length bodies.old.items) changes.items }
    ensures { bodies_view bodies.new.items
        ≡ changed_bodies changes.items (bodies_view bodies.old.items) }
{
    for change in changes {
        bodies[change.number] = change.body;
    }
}
