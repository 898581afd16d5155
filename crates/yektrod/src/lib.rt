//! The engine for C: a caller keeps it in a struct of its own, and passes texts as pointers with lengths.
//!
//! `include/yektrod.h` declares these functions for C, and `docs/C.md` says what a caller promises.
#![tactic(auto)]

ghost use Rattle.std.specs.Prelude.{◌≡◌, ◌+◌, ◌*◌, ◌^◌};

pub mod answers;
mod handle;
pub mod lists;
pub mod names;
pub mod open;
pub mod questions;
mod room;
pub mod row;
mod row_texts;
pub mod rows;
pub mod script;
pub mod slot;
mod sourced;
mod status;

/// The version, 0.36.0: the major number times 2^16, and the minor number times 2^8, and the patch number.
#[unsafe(no_mangle)]
pub extern "C" fn yektrod_version() -> u32
    ensures { result ≡ 0 * 2 ^ 16 + 36 * 2 ^ 8 + 0 }
{
    0x002400
}
