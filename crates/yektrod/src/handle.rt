//! An engine on the heap, held as a pointer that C can keep.

ghost use Rattle.std.specs.Prelude.{◌≡◌, Bool, true, false};
ghost use Rattle.std.specs.Borrow.{sem};
ghost use Rattle.yektrod.specs.SourcedContents.{SourcedContent};

pub mod parts;

use crate::sourced::SourcedEngine;
use parts::Parts;
use std::alloc::Global;
use std::marker::Model;
use std::ptr::null_mut;

/// What a box of an engine owns, behind a pointer that names no type, or nothing.
#[repr(C)]
pub struct Handle {
    ptr: *mut u8,
    alloc: Global,
    pub ghost is_open: { Bool },
    pub ghost held: { SourcedContent },
}

// A handle that has an engine can't be dropped: its memory would be lost.
impl Drop for Handle {
    fn drop(self)
        requires { self.is_open ≡ false }
    {
        let Handle { ptr: _, alloc: _ } = self;
    }
}

impl Model for Handle {
    ghost use Rattle.yektrod.specs.Owned.{handle_owns};

    ghost also_owns = { λ h. handle_owns h.is_open h.alloc h.ptr h.held };
}

impl Handle {
    ghost use Rattle.yektrod.specs.inner.Lent.{LendsEngine};

    /// The engine of a handle that has one, in place.
    pub fn engine(&mut self) -> &mut SourcedEngine
        requires { self.old.is_open ≡ true }
        ensures* writes_back { sem 𝓛 (LendsEngine self.entry result) }
        ensures value { result.now ≡ self.old.held }
    {
        unsafe { &mut *(self.ptr as *mut SourcedEngine) }
    }

    /// A handle without an engine.
    pub fn shut(alloc: Global) -> Handle
        ensures { result.is_open ≡ false }
    {
        Handle {
            ptr: null_mut(),
            alloc,
        }
    }

    /// The handle of an engine, whose box was taken apart.
    pub fn of_parts(parts: Parts<SourcedEngine, Global>) -> Handle
        ensures opened { result.is_open ≡ true }
        ensures held { result.held ≡ parts.value }
    {
        let Parts { ptr, alloc } = parts;
        Handle {
            ptr: ptr as *mut u8,
            alloc,
        }
    }

    /// The parts of the box of an engine, of a handle that has one.
    pub fn into_parts(self) -> Parts<SourcedEngine, Global>
        requires { self.is_open ≡ true }
        ensures { result.value ≡ self.held }
    {
        let Handle { ptr, alloc } = self;
        Parts {
            ptr: ptr as *mut SourcedEngine,
            alloc,
        }
    }
}
