//! An engine is made, and freed.

ghost use Rattle.std.specs.Prelude.{◌≡◌, ◌⊎◌, ◌↔◌, None, Some};
ghost use Rattle.gix_attributes.specs.EngineStates.{unasked};
ghost use Rattle.gix_attributes.specs.EngineView.{started};
ghost use Rattle.yektrod.specs.Held.{held, sourced};
ghost use Rattle.yektrod.specs.Statuses.{status_done, status_no_memory, status_shut};

use crate::slot::Slot;
use crate::sourced::SourcedEngine;
use crate::status::{DONE, NO_MEMORY, SHUT};
use std::alloc::Global;

/// Makes an engine with the built-in list, and without a selection. Returns 2 if the slot has one already.
#[unsafe(no_mangle)]
pub extern "C" fn yektrod_open(alloc: Global, slot: &mut Slot) -> i32
    ensures done { result ≡ status_done → held slot.new ≡ Some (unasked started) }
    ensures failed { ¬ (result ≡ status_done) → sourced slot.new ≡ sourced slot.old }
    ensures open_before { result ≡ status_shut ↔ ¬ (held slot.old ≡ None) }
    ensures status { (result ≡ status_done) ⊎ (result ≡ status_no_memory) ⊎ (result ≡ status_shut) }
{
    if slot.live {
        return SHUT;
    }
    let Ok(engine) = SourcedEngine::new(alloc) else {
        return NO_MEMORY;
    };
    let Ok(engine) = Box::new(alloc, engine) else {
        return NO_MEMORY;
    };
    slot.put(engine);
    DONE
}

/// Frees the engine, if the slot has one.
#[unsafe(no_mangle)]
pub extern "C" fn yektrod_close(alloc: Global, slot: &mut Slot)
    ensures { held slot.new ≡ None }
{
    let _engine = slot.take(alloc);
}
