//! The modes of patterns, and the order of modes and cases.
use attr_glob::pattern::{Case, Mode};
use bitflags::Flags;
use std::process::Abort;

#[test]
fn orders_modes_and_cases(rt: HostRuntime) {
    let both = Mode::NO_SUB_DIR.union(Mode::ABSOLUTE);
    assert_eq!(rt; both.bits(), 17);
    assert!(rt; Mode::ABSOLUTE < both);
    assert!(rt; Case::Sensitive < Case::Fold);
}

// A mode has these bits. It is empty without any, and all five are 31.
fn expect_bits(rt: &impl Abort, mode: Mode, bits: u32) {
    assert_eq!(rt;
        (mode.bits(), mode.is_empty(), mode.is_all()),
        (bits, bits == 0, bits == 31)
    );
}

// As the pages of bitflags define them, over the five bits of the modes.
#[test]
fn modes_are_sets(rt: HostRuntime) {
    expect_bits(&rt, Mode::empty(), 0);
    expect_bits(&rt, Mode::all(), 31);
    expect_bits(&rt, Mode::from_bits_truncate(33), 1);
    expect_bits(&rt, Mode::from_bits_retain(33), 33);
    let both = Mode::NO_SUB_DIR.union(Mode::ABSOLUTE);
    let other = Mode::ENDS_WITH.union(Mode::ABSOLUTE);
    expect_bits(&rt, both.intersection(other), 16);
    expect_bits(&rt, both.difference(other), 1);
    expect_bits(&rt, both.symmetric_difference(other), 3);
    expect_bits(&rt, both.complement(), 14);
    assert!(rt; both.contains(Mode::ABSOLUTE) && !both.contains(other));
    assert!(rt; both.intersects(other) && !both.intersects(Mode::ENDS_WITH));
}

#[test]
fn modes_have_names(rt: HostRuntime) {
    let (known, unknown) = (Mode::from_bits(31), Mode::from_bits(32));
    assert_eq!(rt; (known, unknown), (Some(Mode::all()), None));
    let (named, unnamed) = (Mode::from_name("ENDS_WITH"), Mode::from_name("ends_with"));
    assert_eq!(rt; (named, unnamed), (Some(Mode::ENDS_WITH), None));
    assert_eq!(rt; Mode::flags().len(), 5);
}

#[test]
fn modes_change(rt: HostRuntime) {
    let mut mode = Mode::NO_SUB_DIR.union(Mode::NEGATIVE);
    expect_bits(&rt, mode, 9);
    assert!(rt; mode.contains(Mode::NEGATIVE));
    mode.insert(Mode::ABSOLUTE);
    mode.remove(Mode::NEGATIVE);
    expect_bits(&rt, mode, 17);
    let mut mode = Mode::from_bits_retain(33);
    mode.insert(Mode::NEGATIVE);
    expect_bits(&rt, mode, 41);
    mode.remove(Mode::NO_SUB_DIR);
    expect_bits(&rt, mode, 40);
    mode.toggle(Mode::MUST_BE_DIR);
    expect_bits(&rt, mode, 44);
    mode.set(Mode::NEGATIVE, false);
    expect_bits(&rt, mode, 36);
    assert!(rt; mode.contains_unknown_bits());
    mode.truncate();
    expect_bits(&rt, mode, Mode::MUST_BE_DIR.bits());
    mode.clear();
    expect_bits(&rt, mode, 0);
}
