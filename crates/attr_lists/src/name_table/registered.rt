//! The lists that are registered, each with the macros that it defines, line by line.
ghost use Rattle.std.specs.Prelude.{◌≡◌, [], ◌≢◌, ◌↔◌, ◌∷◌, ℕ, List, map, None, All, MatchOption, IfSome, IsTrue};
ghost use Rattle.attr_lists.specs.Definitions.{bodies_named};
ghost use Rattle.attr_lists.specs.ListViews.{entry_view, entries_view};
ghost use Rattle.attr_lists.specs.inner.NameSteps.{has_name_at};
ghost use Rattle.attr_lists.specs.inner.Registered.{AgreesOn, AreAscending, Defines, IsAbove, IsIndexOf, numbered_body, registered_views};

use crate::name_table::name_set::NameSet;
use crate::types::{Metadata, TrackedAssignment, Value};
use attr_glob::search::pattern::Mapping;
use std::rc::Rc;

/// A list that is registered.
#[derive(Clone, Debug, Drop)]
pub(super) struct ListMacros {
    /// The id under which it is registered.
    pub(super) list_id: usize,
    /// The macros that its lines define, line by line, which are shared with the definitions of their names.
    pub(super) macros: Vec<Rc<Metadata>>,
}

/// The index of the list that is registered under the list id, if there is one.
pub(super) fn index_of(lists: &[ListMacros], list_id: usize) -> Option<usize>
    requires { AreAscending (registered_views lists.now) }
    ensures { MatchOption result
        (All (λ list. list.list_id ≢ list_id) (registered_views lists.now))
        (IsIndexOf list_id (registered_views lists.now)) }
{
    lists
        .binary_search_by_key(&list_id, |list| list.list_id)
        .ok()
}

/// A list id above those of all lists, which ascend. None if the last one is `usize::MAX`.
pub(super) fn next_id(lists: &[ListMacros]) -> Option<usize>
    requires { AreAscending (registered_views lists.now) }
    ensures { IfSome result (λ list_id. IsAbove list_id (registered_views lists.now)) }
{
    match lists.last() {
        Some(list) => list.list_id.checked_add(1),
        None => Some(0),
    }
}

/// Whether, for each name, the macros are those that the lines define, in their order. Lines that are as registered take a step each.
/// Others take, for each macro and each line that defines one, a step for each macro and each line.
#[tactic(auto, using(crate::proofs::RegisteredLemmas::all_agree))]
pub(super) fn has_lines(names: &NameSet, list: &[Rc<Metadata>], mappings: &[Mapping<Value>]) -> bool
    ensures { IsTrue result ↔ ((name : List ℕ) →
        AgreesOn names.now (map numbered_body list.now) (entries_view mappings.now) name) }
{
    if are_lines_of(names, list, mappings) {
        return true;
    }
    // No name but these has a body.
    for known in list {
        if let Some(name) = names.name(known.id.0)
            && !agrees_on(names, list, mappings, name.as_bytes())
        {
            return false;
        }
    }
    for mapping in mappings {
        if let Some((name, _)) = macro_of(mapping)
            && !agrees_on(names, list, mappings, name)
        {
            return false;
        }
    }
    true
}

// Whether the lines define these macros, in their order and with their bodies. This takes a step for each line.
fn are_lines_of(names: &NameSet, list: &[Rc<Metadata>], mappings: &[Mapping<Value>]) -> bool
    ensures { IsTrue result → (name : List ℕ) →
        AgreesOn names.now (map numbered_body list.now) (entries_view mappings.now) name }
{
    let mut rest = list;
    for mapping in mappings {
        if let Some((name, body)) = macro_of(mapping) {
            let Some((known, others)) = rest.split_first() else {
                return false;
            };
            if !has_number(names, name, known.id.0) || !is_same(&known.macro_attributes, body) {
                return false;
            }
            rest = others;
        }
    }
    rest.is_empty()
}

// Whether the name has the same bodies in the list and in the lines.
fn agrees_on(
    names: &NameSet,
    list: &[Rc<Metadata>],
    mappings: &[Mapping<Value>],
    name: &[u8],
) -> bool
    ensures { IsTrue result ↔ AgreesOn names.now (map numbered_body list.now)
        (entries_view mappings.now) name.now }
{
    let mut rest = mappings;
    for known in list {
        if has_number(names, name, known.id.0) {
            let Some((body, others)) = first_body(name, rest) else {
                return false;
            };
            if !is_same(&known.macro_attributes, body) {
                return false;
            }
            rest = others;
        }
    }
    first_body(name, rest).is_none()
}

// The body in the first line that defines the name, and the lines after it.
fn first_body<'a>(
    name: &[u8],
    mappings: &'a [Mapping<Value>],
) -> Option<(&'a [TrackedAssignment], &'a [Mapping<Value>])>
    ensures { MatchOption result
        (bodies_named name.now (entries_view mappings.now) ≡ [])
        (λ r. bodies_named name.now (entries_view mappings.now)
        ≡ r.0.now ∷ bodies_named name.now (entries_view r.1.now)) }
{
    for (index, mapping) in mappings.iter().enumerate() {
        if let Some((own, body)) = macro_of(mapping)
            && own == name
        {
            return Some((body, &mappings[index + 1..]));
        }
    }
    None
}

// The name and the body of the macro that a line defines, if it defines one.
fn macro_of(line: &Mapping<Value>) -> Option<(&[u8], &[TrackedAssignment])>
    ensures { MatchOption result ((entry_view line.now).macro ≡ None)
        (λ r. Defines (entry_view line.now) r.0.now r.1.now) }
{
    match &line.value {
        Value::MacroAssignments { assignments, .. } => Some((&line.pattern.text, assignments)),
        Value::Assignments(_) => None,
    }
}

// Whether the name has this number.
fn has_number(names: &NameSet, name: &[u8], number: usize) -> bool
    ensures { result ≡ has_name_at names.now name.now number }
{
    match names.name(number) {
        Some(own) => name == own.as_bytes(),
        None => false,
    }
}

// Whether the items are the same.
#[tactic(auto, using(crate::proofs::SameItems::items_decide))]
fn is_same(x: &[TrackedAssignment], y: &[TrackedAssignment]) -> bool
    ensures { IsTrue result ↔ (x.now ≡ y.now) }
{
    x == y
}
