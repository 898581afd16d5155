//! A whole script is played at once.

ghost use Rattle.std.specs.Prelude.{◌≡◌, ◌⊎◌, ◌≤◌, ◌<◌, ℕ, List, None, Some, length};
ghost use Rattle.yektrod.specs.Played.{IsPlayed};
ghost use Rattle.yektrod.specs.Statuses.{status_done, status_malformed, status_no_memory, status_no_room};

use crate::room::Room;
use crate::status::{DONE, MALFORMED, NO_MEMORY, NO_ROOM};
use check_attr::{Fault, play};
use gix_attributes::engine::Engine;
use std::alloc::Global;

/// Plays a script over an engine of its own, and puts what fits of its text to the front of `out`. `written` gets the length of the
/// text, and `malformed` the number of the first malformed record, from 1.
#[unsafe(no_mangle)]
pub extern "C" fn yektrod_run(
    alloc: Global,
    script: &[u8],
    out: &mut [u8],
    written: &mut usize,
    malformed: &mut usize,
) -> i32
    ensures done { result ≡ status_done → (text : List ℕ)
        × IsPlayed script.now None text out.old out.new written.new
        × (length text ≤ length out.old) }
    ensures short { result ≡ status_no_room → (text : List ℕ)
        × IsPlayed script.now None text out.old out.new written.new
        × (length out.old < length text) }
    ensures malformed { result ≡ status_malformed → (text : List ℕ)
        × IsPlayed script.now (Some malformed.new) text out.old out.new written.new }
    ensures well_formed { ¬ (result ≡ status_malformed) → malformed.new ≡ malformed.old }
    ensures refused { result ≡ status_no_memory →
        (out.new ≡ out.old) × (written.new ≡ written.old) }
    ensures status { (result ≡ status_done) ⊎ (result ≡ status_no_memory)
        ⊎ (result ≡ status_no_room) ⊎ (result ≡ status_malformed) }
{
    let Ok(engine) = Engine::new(alloc) else {
        return NO_MEMORY;
    };
    let mut room = Room::new(alloc, out.len());
    let played = play(alloc, script, engine, &mut room);
    let number = match played {
        Ok(()) => None,
        Err(Fault::Record(number)) => Some(number),
        Err(_) => return NO_MEMORY,
    };
    let Ok(needed) = room.copy_to(out) else {
        return NO_MEMORY;
    };
    *written = needed;
    match number {
        Some(number) => {
            *malformed = number;
            MALFORMED
        }
        None if needed > out.len() => NO_ROOM,
        None => DONE,
    }
}
