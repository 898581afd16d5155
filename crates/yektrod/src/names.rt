//! The names of attributes and macros, by their numbers.

ghost use Rattle.std.specs.Prelude.{◌≡◌, ◌⊎◌, ◌↔◌, ◌<◌, ◌++◌, MatchOption, None, Some, drop, length, option_map};
ghost use Rattle.yektrod.specs.Held.{held, name_held, sourced};
ghost use Rattle.yektrod.specs.Statuses.{status_done, status_missing, status_no_room, status_shut};

use crate::row_texts::MarkedText;
use crate::slot::Slot;
use crate::status::{DONE, MISSING, SHUT};
use gix_attributes::search::AttributeId;

/// Says how many names there are. Their numbers are those below.
#[unsafe(no_mangle)]
pub extern "C" fn yektrod_names(slot: &mut Slot, count: &mut usize) -> i32
    ensures done { result ≡ status_done →
        option_map (λ content. length content.state.names) (held slot.old) ≡ Some count.new }
    ensures failed { ¬ (result ≡ status_done) → count.new ≡ count.old }
    ensures same { sourced slot.new ≡ sourced slot.old }
    ensures shut { result ≡ status_shut ↔ (held slot.old ≡ None) }
    ensures status { (result ≡ status_done) ⊎ (result ≡ status_shut) }
{
    if !slot.live {
        return SHUT;
    }
    *count = slot.handle.engine().labelled().num_names();
    DONE
}

/// Copies the name with this number to the front of `to`, and says how long it is.
#[unsafe(no_mangle)]
pub extern "C" fn yektrod_name(
    slot: &mut Slot,
    number: usize,
    to: &mut [u8],
    needed: &mut usize,
) -> i32
    ensures done { result ≡ status_done → MatchOption (name_held slot.old number) ⊥
        (λ name. to.new ≡ name ++ drop (length name) to.old) }
    ensures short { result ≡ status_no_room → MatchOption (name_held slot.old number) ⊥
        (λ name. length to.old < length name) }
    ensures needed { (result ≡ status_done) ⊎ (result ≡ status_no_room) →
        option_map length (name_held slot.old number) ≡ Some needed.new }
    ensures kept { (result ≡ status_shut) ⊎ (result ≡ status_missing) →
        needed.new ≡ needed.old }
    ensures failed { ¬ (result ≡ status_done) → to.new ≡ to.old }
    ensures same { sourced slot.new ≡ sourced slot.old }
    ensures shut { result ≡ status_shut ↔ (held slot.old ≡ None) }
    ensures missing { result ≡ status_missing ↔ (¬ (held slot.old ≡ None)
        × (name_held slot.old number ≡ None)) }
    ensures status { (result ≡ status_done) ⊎ (result ≡ status_shut) ⊎ (result ≡ status_missing)
        ⊎ (result ≡ status_no_room) }
{
    if !slot.live {
        return SHUT;
    }
    match slot.handle.engine().labelled().name_of(AttributeId(number)) {
        Some(name) => MarkedText::plain(name.as_bytes()).copy(to, needed),
        None => MISSING,
    }
}
