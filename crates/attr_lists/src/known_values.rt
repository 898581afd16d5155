//! Values that were read lately, so that items share the bytes of their values.

ghost use Rattle.std.specs.Prelude.{[], ◌≡◌, IfOk};
ghost use Rattle.attr_text.specs.TextViews.{state_view, value_bytes};

use crate::last_read::LastRead;
use attr_text::state::{Value, ValueRef};
use attr_text::{State, StateRef};
use std::alloc::{AllocError, Global};

// Longer values are not kept, so that what is known takes no more than some ten KB.
const LONGEST: usize = 1_024;

/// Values that were read lately. Files have few of them, most in many lines and in many files, so most items find theirs.
#[derive(Debug, Drop)]
pub(crate) struct KnownValues {
    values: LastRead<Value>,
}

impl KnownValues {
    /// No values. It takes no memory.
    pub(crate) fn new(alloc: Global) -> KnownValues
        ensures { result.values.items.items ≡ [] }
    {
        KnownValues {
            values: LastRead::new(alloc),
        }
    }

    /// The state, whose value shares its bytes with a known value if that is the same.
    ///
    /// # Errors
    ///
    /// If memory runs out, or if there are `usize::MAX` copies of the known value.
    pub(crate) fn state(&mut self, alloc: Global, state: StateRef<'_>) -> Result<State, AllocError>
        ensures { IfOk result (λ own. own ≡ state_view state.entry) }
    {
        match state {
            StateRef::Value(value) => Ok(State::Value(self.value(alloc, value)?)),
            StateRef::Set => Ok(State::Set),
            StateRef::Unset => Ok(State::Unset),
            StateRef::Unspecified => Ok(State::Unspecified),
        }
    }

    fn value(&mut self, alloc: Global, value: ValueRef<'_>) -> Result<Value, AllocError>
        ensures { IfOk result (λ own. own ≡ value_bytes value.entry) }
    {
        let bytes = value.as_bstr().as_bytes();
        if let Some(known) = self.values.get(bytes)
            && known.as_ref() == value
        {
            return known.clone(alloc);
        }
        let own = value.to_owned(alloc)?;
        if bytes.len() <= LONGEST {
            self.values.keep(bytes, own.clone(alloc)?)?;
        }
        Ok(own)
    }
}
