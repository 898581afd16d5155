//! What C keeps: an engine, or nothing.

ghost use Rattle.std.specs.Prelude.{◌≡◌, false};

use crate::handle::Handle;
use crate::handle::parts::Parts;
use crate::sourced::SourcedEngine;
use std::alloc::Global;
use std::mem::replace;

/// An engine, or nothing. If all bytes are zero, there is none.
#[repr(C)]
pub struct Slot {
    pub(crate) handle: Handle,
    pub(crate) live: bool,
    ghost fits: { handle.is_open ≡ live },
}

// A slot that has an engine can't be dropped, nor overwritten.
impl Drop for Slot {
    fn drop(self)
        requires { self.live ≡ false }
    {
        let Slot { handle: _, live: _ } = self;
    }
}

impl Slot {
    ghost use Rattle.std.specs.Prelude.{None, Some, option_map};
    ghost use Rattle.yektrod.specs.Held.{held, sourced};

    // Puts an engine into a slot that has none.
    pub(crate) fn put(&mut self, engine: Box<SourcedEngine>)
        requires { held self.old ≡ None }
        ensures { sourced self.new ≡ Some engine.value }
    {
        *self = Slot {
            handle: Handle::of_parts(Parts::of(engine)),
            live: true,
        };
    }

    // Takes the engine out of a slot, if it has one.
    pub(crate) fn take(&mut self, alloc: Global) -> Option<Box<SourcedEngine>>
        ensures taken { option_map (λ engine. engine.value) result ≡ sourced self.old }
        ensures left { held self.new ≡ None }
    {
        if !self.live {
            return None;
        }
        let nothing = Slot {
            handle: Handle::shut(alloc),
            live: false,
        };
        Some(replace(self, nothing).into_handle().into_parts().into_box())
    }

    fn into_handle(self) -> Handle
        ensures { result ≡ self.handle }
    {
        let Slot { handle, live: _ } = self;
        handle
    }
}
