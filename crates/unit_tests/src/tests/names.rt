//! Names and states: conversions, order and printed forms.
//!
//! A function that owns a copy takes long to prove, once more for each place where it can end. So the functions that
//! own one end in few places.
use attr_text::state::{Value, ValueRef};
use attr_text::{AssignmentRef, Name, NameRef, StateRef};
use bstr::BStr;
use std::alloc::AllocError;
use std::rc::RcStr;
use std::test::Fail;

/// The name with this text.
pub(super) fn name_of(text: &str) -> Result<NameRef<'_>, Fail> {
    Ok(NameRef::try_from(BStr::from(text))?)
}

/// The item that sets the attribute with this name.
pub(super) fn set(name: &str) -> Result<AssignmentRef<'_>, Fail> {
    let (name, state) = (name_of(name)?, StateRef::Set);
    Ok(AssignmentRef { name, state })
}

#[test]
fn names_are_printed(rt: HostRuntime) -> Result<(), Fail> {
    let borrowed = name_of("diff")?;
    let owned = borrowed.to_owned(rt.alloc())?;
    let text = format!(in rt.alloc(); "{borrowed:?} {owned:?} {}", owned.as_str())?;
    assert_eq!(rt; text.as_str(), "NameRef(\"diff\") Name(\"diff\") diff");
    Ok(())
}

#[test]
fn a_name_is_made_of_a_shared_text(rt: HostRuntime) -> Result<(), Fail> {
    let text = RcStr::from_str(rt.alloc(), "diff")?;
    let name = Name::of(text.clone()?);
    assert_eq!(rt;
        (name.as_ref(), name.as_str(), NameRef::of("diff")),
        (name_of("diff")?, text.as_str(), name_of("diff")?)
    );
    Ok(())
}

#[test]
fn a_value_is_made_of_a_text(rt: HostRuntime) -> Result<(), AllocError> {
    let value = Value::from_str_in(rt.alloc(), "true")?;
    assert!(rt; value.as_ref() == ValueRef::from("true"));
    Ok(())
}

// Rows of `lines/states` say whether a value is set, and what it has.
#[test]
fn a_state_of_bytes_is_a_value(rt: HostRuntime) {
    let value = StateRef::from_bytes(b"true");
    assert!(rt; value == StateRef::Value(ValueRef::from("true")));
    assert!(rt; value == StateRef::Value(ValueRef::from_bytes(b"true")));
    assert!(rt; ValueRef::from("true").as_bstr() == BStr::from("true"));
    let lf = ValueRef::from("lf");
    assert!(rt; ValueRef::from_bytes(b"lf") == lf && lf.as_bstr() == BStr::from("lf"));
}
