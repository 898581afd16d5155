//! Fields and variants compare in the order in which their types name them: of each two neighbours the first decides. So in each
//! pair of structs here the lesser one has a lesser field, and greater ones behind it.
use super::names::{name_of, set};
use super::patterns::pattern;
use attr_glob::Pattern;
use attr_glob::pattern::Mode;
use attr_glob::search::pattern::{List, Mapping};
use attr_lists::parse::Kind;
use attr_lists::types::{
    AttributeId, Attributes, Match, MatchKind, MatchLocation, Metadata, TrackedAssignment, Value,
};
use attr_text::state::ValueRef;
use attr_text::{State, StateRef};
use gix_attributes::Source;
use smallvec::SmallVec;
use std::alloc::{AllocError, Global};
use std::test::Fail;

/// Whether of two borrowed values and of owned copies the first is less.
macro_rules! are_less {
    ($alloc:expr, $a:expr, $b:expr) => {{
        let copy = $a.to_owned($alloc)?;
        ($a < $b) & (copy < $b.to_owned($alloc)?)
    }};
}

#[test]
fn names_compare_as_their_text(rt: HostRuntime) -> Result<(), Fail> {
    let (a, b) = (name_of("a")?, name_of("b")?);
    assert!(rt; are_less!(rt.alloc(), a, b));
    Ok(())
}

#[test]
fn states_are_ordered(rt: HostRuntime) -> Result<(), AllocError> {
    let value = StateRef::Value(ValueRef::from("a"));
    let states = [StateRef::Set, StateRef::Unset, value, StateRef::Unspecified];
    for (a, b) in states.iter().zip(states.iter().skip(1)) {
        assert!(rt; are_less!(rt.alloc(), *a, *b));
    }
    Ok(())
}

#[test]
fn assignments_are_ordered(rt: HostRuntime) -> Result<(), Fail> {
    let (mut a, b) = (set("a")?, set("b")?);
    a.state = StateRef::Unspecified;
    assert!(rt; are_less!(rt.alloc(), a, b));
    Ok(())
}

#[test]
fn later_sources_take_precedence(rt: HostRuntime) {
    assert!(rt; Source::GitInstallation < Source::System);
    assert!(rt; Source::System < Source::Git);
    assert!(rt; Source::Git < Source::Local);
}

// A pattern of this text without a slash.
fn named(alloc: Global, text: &[u8]) -> Result<Pattern, AllocError> {
    pattern(alloc, text, Mode::NO_SUB_DIR, None)
}

#[test]
fn patterns_are_ordered(rt: HostRuntime) -> Result<(), AllocError> {
    let first = pattern(rt.alloc(), b"a", Mode::NO_SUB_DIR, Some(0))?;
    let second = pattern(rt.alloc(), b"a", Mode::ENDS_WITH, None)?;
    let third = named(rt.alloc(), b"b")?;
    assert!(rt; (first < second) & (second < third));
    Ok(())
}

#[test]
fn kinds_are_ordered(rt: HostRuntime) -> Result<(), Fail> {
    let first = Kind::Pattern(named(rt.alloc(), b"b")?);
    let second = Kind::Macro(name_of("a")?.to_owned(rt.alloc())?);
    assert!(rt; first < second);
    Ok(())
}

fn mapping<V: Drop>(pattern: Pattern, value: V, sequence_number: usize) -> Mapping<V> {
    Mapping {
        pattern,
        value,
        sequence_number,
    }
}

#[test]
fn lines_are_ordered(rt: HostRuntime) -> Result<(), AllocError> {
    let first = mapping(named(rt.alloc(), b"a")?, 1u8, 2);
    let second = mapping(named(rt.alloc(), b"a")?, 2u8, 1);
    let third = mapping(named(rt.alloc(), b"b")?, 0u8, 0);
    assert!(rt; (first < second) & (second < third));
    Ok(())
}

#[test]
fn lists_are_ordered(rt: HostRuntime) -> Result<(), AllocError> {
    let alloc = rt.alloc();
    let mut first = no_lines(alloc);
    first.base = Some(Vec::from_slice(alloc, b"a/")?);
    let mut second = no_lines(alloc);
    second.source = Some(String::from_str(alloc, "a")?);
    let mut third = no_lines(alloc);
    let value = Value::Assignments(SmallVec::new(alloc));
    third.patterns.push(mapping(named(alloc, b"")?, value, 0))?;
    assert!(rt; (first < second) & (second < third));
    Ok(())
}

fn no_lines(alloc: Global) -> List<Attributes> {
    List {
        patterns: Vec::new(alloc),
        source: None,
        base: None,
    }
}

// An item that sets the attribute with this name and number.
fn tracked(alloc: Global, id: usize, name: &str) -> Result<TrackedAssignment, Fail> {
    let (id, inner) = (AttributeId(id), set(name)?.to_owned(alloc)?);
    Ok(TrackedAssignment { id, inner })
}

// By number first.
#[test]
fn items_are_ordered(rt: HostRuntime) -> Result<(), Fail> {
    let item = tracked(rt.alloc(), 1, "b")?;
    let later = tracked(rt.alloc(), 2, "a")?;
    assert!(rt; item < later);
    Ok(())
}

fn macro_line(id: usize, assignments: SmallVec<TrackedAssignment, 3>) -> Value {
    let id = AttributeId(id);
    Value::MacroAssignments { id, assignments }
}

#[test]
fn values_are_ordered(rt: HostRuntime) -> Result<(), Fail> {
    let alloc = rt.alloc();
    let mut items = SmallVec::new(alloc);
    items.push(tracked(alloc, 1, "a")?)?;
    let first = macro_line(1, items);
    let second = macro_line(2, SmallVec::new(alloc));
    let third = Value::Assignments(SmallVec::new(alloc));
    assert!(rt; (first < second) & (second < third));
    Ok(())
}

#[test]
fn macros_are_ordered(rt: HostRuntime) -> Result<(), Fail> {
    let mut first = Metadata::of(rt.alloc(), AttributeId(1));
    let second = Metadata::of(rt.alloc(), AttributeId(2));
    first.macro_attributes.push(tracked(rt.alloc(), 1, "a")?)?;
    assert!(rt; first < second);
    Ok(())
}

#[test]
fn matches_are_ordered(rt: HostRuntime) -> Result<(), Fail> {
    let (a, b) = (named(rt.alloc(), b"a")?, named(rt.alloc(), b"b")?);
    let id = Some(AttributeId(1));
    let least = Match {
        pattern: &a,
        assignment: set("a")?,
        kind: MatchKind::Attribute { macro_id: id },
        location: MatchLocation {
            source: None,
            sequence_number: 2,
        },
    };
    let (mut at, mut kind, mut item, mut pattern) = (least, least, least, least);
    at.location = MatchLocation {
        source: Some("a"),
        sequence_number: 1,
    };
    let parent_macro_id = None;
    kind.kind = MatchKind::Macro { parent_macro_id };
    item.assignment = set("b")?;
    pattern.pattern = &b;
    assert!(rt; (least.kind < kind.kind) & (least.location < at.location));
    assert!(rt; (at < kind) & (kind < item) & (item < pattern));
    Ok(())
}
