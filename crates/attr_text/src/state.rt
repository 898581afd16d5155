//! States of attributes, and the values that they may have.
ghost use Rattle.std.specs.Prelude.{◌≡◌, ℕ, List, Some, nat_eq, refl, IsTrue, IfOk, ◌↔◌, option_map};
ghost use Rattle.std.specs.Ordering.{nat_cmp};
ghost use Rattle.std.specs.Hash as fed;
ghost use Rattle.std.specs.Cmp.Lexicographic.{pointwise, slice_cmp, nat_list_eq_equiv, nat_list_cmp_total, texts_ties, texts_po};
ghost use Rattle.std.specs.Cmp.{partial_equiv_from_equiv};
ghost use Rattle.std.specs.Cmp.Rules.{hashing};
ghost use Rattle.std.proofs.Common.{rules};
ghost use Rattle.bstr.specs.BStr.{bstr_bytes};

use bstr::BStr;
use std::alloc::{AllocError, Global};
use std::cmp::Ordering;
use std::default::MadeWith;
use std::fmt;
use std::hash::{Hash, Hasher};
use std::marker::Model;
use std::rc::RcSlice;

/// The bytes of a value, which need not be UTF-8. Copies share them.
#[derive(Drop)]
pub struct Value {
    bytes: RcSlice<u8>,
}

/// A reference to the bytes of a value, which need not be UTF-8.
#[derive(Clone, Copy, PartialEq, Eq, PartialOrd, Ord, Hash)]
pub struct ValueRef<'a> {
    bytes: &'a [u8],
}

/// The state of an attribute (gitattributes), with a reference to its value.
#[derive(Clone, Copy, PartialEq, Eq, PartialOrd, Ord, Hash, Debug)]
pub enum StateRef<'a> {
    /// The attribute is listed by its name alone.
    Set,
    /// The attribute is listed with a `-` in front.
    Unset,
    /// The attribute is listed with a `=` and these bytes, which may be none. `true` and `false`
    /// are values like others.
    Value(ValueRef<'a>),
    /// The attribute is listed with a `!` in front, or isn't listed.
    Unspecified,
}

/// The state of an attribute (gitattributes), with a value of its own.
#[derive(PartialEq, Eq, PartialOrd, Ord, Hash, Debug, Drop)]
pub enum State {
    /// The attribute is listed by its name alone.
    Set,
    /// The attribute is listed with a `-` in front.
    Unset,
    /// The attribute is listed with a `=` and these bytes, which may be none. `true` and `false`
    /// are values like others.
    Value(Value),
    /// The attribute is listed with a `!` in front, or isn't listed.
    Unspecified,
}

impl Model for Value {
    ghost use Rattle.std.specs.Prelude.{ℕ, List};
    ghost use Rattle.std.specs.Rc.{rc_slice_items};

    ghost Value = { List ℕ };

    ghost view = { λ v. rc_slice_items v.bytes };
}

impl<'a> ValueRef<'a> {
    ghost use Rattle.attr_text.specs.TextViews.{value_bytes};

    /// The bytes as a value.
    pub fn from_bytes(input: &'a [u8]) -> ValueRef<'a>
        ensures { value_bytes result ≡ input.now }
    {
        ValueRef { bytes: input }
    }

    /// The value's bytes.
    pub fn as_bstr(&self) -> BStr<'a>
        ensures { bstr_bytes result ≡ value_bytes self.now }
    {
        BStr::new(self.bytes)
    }

    /// The value with bytes of its own.
    ///
    /// # Errors
    ///
    /// If memory runs out.
    pub fn to_owned(self, alloc: Global) -> Result<Value, AllocError>
        ensures { IfOk result (λ value. value ≡ value_bytes self.entry) }
    {
        Ok(Value {
            bytes: RcSlice::from_slice(alloc, self.bytes)?,
        })
    }
}

impl<'a> From<&'a str> for ValueRef<'a> {
    ghost use Rattle.attr_text.specs.TextViews.{value_bytes};

    ghost from_gives = { λ text value. value_bytes value ≡ text.now };

    fn from(v: &'a str) -> ValueRef<'a> {
        ValueRef {
            bytes: v.as_bytes(),
        }
    }
}

impl<'a> fmt::Debug for ValueRef<'a> {
    fn fmt<W: fmt::Write>(&self, f: &mut fmt::Formatter<W>) -> fmt::Result {
        f.debug_tuple("ValueRef").field(&self.as_bstr()).finish()
    }
}

impl Value {
    ghost use Rattle.attr_text.specs.TextViews.{value_bytes};

    /// A value with a copy of the text's bytes.
    ///
    /// # Errors
    ///
    /// If memory runs out.
    pub fn from_str_in(alloc: Global, text: &str) -> Result<Value, AllocError>
        ensures { IfOk result (λ value. value ≡ text.now) }
    {
        ValueRef::from(text).to_owned(alloc)
    }

    /// A reference to the value.
    pub fn as_ref(&self) -> ValueRef<'_>
        ensures { value_bytes result ≡ self.now }
    {
        ValueRef {
            bytes: self.bytes.as_slice(),
        }
    }

    /// A copy that shares the bytes.
    ///
    /// # Errors
    ///
    /// If there are `usize::MAX` copies already.
    pub fn clone(&self, _alloc: Global) -> Result<Value, AllocError>
        ensures { IfOk result (λ copy. copy ≡ self.now) }
    {
        Clone::clone(self)
    }
}

impl Clone for Value {
    ghost is_clone = { λ s copy. copy ≡ s };

    fn clone(&self) -> Result<Value, AllocError> {
        Ok(Value {
            bytes: self.bytes.clone()?,
        })
    }
}

impl PartialEq for Value {
    ghost eq = { λ x y. pointwise nat_eq x y };

    ghost laws = { partial_equiv_from_equiv nat_list_eq_equiv };

    fn eq(&self, other: &Value) -> bool {
        self.bytes.as_slice() == other.bytes.as_slice()
    }
}

impl Eq for Value {
    ghost laws = { nat_list_eq_equiv };
}

impl PartialOrd for Value {
    ghost partial_cmp = { λ x y. Some (slice_cmp nat_cmp x y) };

    ghost laws = { texts_po };

    fn partial_cmp(&self, other: &Value) -> Option<Ordering> {
        Some(self.cmp(other))
    }
}

impl Ord for Value {
    ghost cmp = { λ x y. slice_cmp nat_cmp x y };

    ghost total = { nat_list_cmp_total };

    ghost matches_partial_cmp = { λ x y. refl };

    ghost matches_eq = { λ x y. texts_ties x y };

    fn cmp(&self, other: &Value) -> Ordering {
        self.bytes.as_slice().cmp(other.bytes.as_slice())
    }
}

impl Hash for Value {
    ghost hash_input = { λ s. fed.slice fed.u8 s };

    ghost respects_eq = { Prim.search (hashing, rules) };

    fn hash<H: Hasher>(&self, state: &mut H) {
        self.bytes.as_slice().hash(state);
    }
}

impl fmt::Debug for Value {
    fn fmt<W: fmt::Write>(&self, f: &mut fmt::Formatter<W>) -> fmt::Result {
        f.debug_tuple("Value")
            .field(&self.as_ref().as_bstr())
            .finish()
    }
}

impl<'a> StateRef<'a> {
    ghost use Rattle.attr_text.specs.TextViews.{state_view};
    ghost use Rattle.attr_text.specs.States.{is_set, value_of};
    ghost use Rattle.attr_text.specs.declared.state.State.TheVariants as owned;

    /// The state with these bytes as its value, whatever they are.
    pub fn from_bytes(input: &'a [u8]) -> StateRef<'a>
        ensures { state_view result ≡ owned.Value input.now }
    {
        StateRef::Value(ValueRef::from_bytes(input))
    }

    /// Whether the attribute is set, with or without a value.
    pub fn is_set(&self) -> bool
        ensures { result ≡ is_set (state_view self.now) }
    {
        matches!(self, StateRef::Set | StateRef::Value(_))
    }

    /// Whether the attribute is unset: listed with a `-`.
    pub fn is_unset(&self) -> bool
        ensures { IsTrue result ↔ (state_view self.now ≡ owned.Unset) }
    {
        matches!(self, StateRef::Unset)
    }

    /// Whether the attribute is unspecified: listed with a `!`, or not listed.
    pub fn is_unspecified(&self) -> bool
        ensures { IsTrue result ↔ (state_view self.now ≡ owned.Unspecified) }
    {
        matches!(self, StateRef::Unspecified)
    }

    /// The bytes of the value, if the state has one.
    pub fn as_bstr(&self) -> Option<BStr<'a>>
        ensures { option_map bstr_bytes result ≡ value_of (state_view self.now) }
    {
        match self {
            StateRef::Value(value) => Some(value.as_bstr()),
            _ => None,
        }
    }

    /// The state with a value of its own.
    ///
    /// # Errors
    ///
    /// If memory runs out.
    pub fn to_owned(self, alloc: Global) -> Result<State, AllocError>
        ensures { IfOk result (λ state. state ≡ state_view self.entry) }
    {
        match self {
            StateRef::Set => Ok(State::Set),
            StateRef::Unset => Ok(State::Unset),
            StateRef::Value(value) => Ok(State::Value(value.to_owned(alloc)?)),
            StateRef::Unspecified => Ok(State::Unspecified),
        }
    }
}

impl State {
    ghost use Rattle.attr_text.specs.TextViews.{state_view};

    /// A reference to the state.
    pub fn as_ref(&self) -> StateRef<'_>
        ensures { state_view result ≡ self.now }
    {
        match self {
            State::Set => StateRef::Set,
            State::Unset => StateRef::Unset,
            State::Value(value) => StateRef::Value(value.as_ref()),
            State::Unspecified => StateRef::Unspecified,
        }
    }

    /// A copy, which shares the bytes of the value.
    ///
    /// # Errors
    ///
    /// If there are `usize::MAX` copies of the value already.
    pub fn clone(&self, _alloc: Global) -> Result<State, AllocError>
        ensures { IfOk result (λ copy. copy ≡ self.now) }
    {
        Clone::clone(self)
    }
}

impl MadeWith<Global> for State {
    ghost use Rattle.attr_text.specs.declared.state.State.TheVariants.{Unspecified};

    ghost is_made_with = { λ state. state ≡ Unspecified };

    fn made_with(_alloc: Global) -> State {
        State::Unspecified
    }
}

impl Clone for State {
    ghost is_clone = { λ s copy. copy ≡ s };

    fn clone(&self) -> Result<State, AllocError> {
        match self {
            State::Set => Ok(State::Set),
            State::Unset => Ok(State::Unset),
            State::Value(value) => Ok(State::Value(Clone::clone(value)?)),
            State::Unspecified => Ok(State::Unspecified),
        }
    }
}
