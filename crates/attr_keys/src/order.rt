//! Rows, which are indexes of lines, in the order of their keys' codes, and the greatest first.

ghost use Rattle.std.specs.Prelude.{◌≡◌, ℕ, OnOk};
ghost use Rattle.std.specs.Bool.{OnTrue};
ghost use Rattle.attr_keys.specs.inner.Cases.{keys_seen};
ghost use Rattle.attr_keys.specs.shared.Rows.{AreInOrder, IsFalling, has_row};

use crate::key::{Keyed, Keys, row_order};
use std::alloc::AllocError;

/// Puts rows into the order of their keys' codes. Rows of equal keys stay in their order.
///
/// # Errors
///
/// If memory runs out. The same rows are there then.
pub fn put_in_order<K: Keyed>(keys: Keys<'_, K>, rows: &mut Vec<usize>) -> Result<(), AllocError>
    ensures rows { (row : ℕ) → has_row rows.new.items row ≡ has_row rows.old.items row }
    ensures order { OnOk result (AreInOrder (keys_seen K.content keys.entry) rows.new.items) }
{
    rows.sort_by(|row, other| row_order(keys, *row, *other))
}

/// Sorts the rows, the greatest first, and removes repeated ones.
pub fn fall(rows: &mut Vec<usize>)
    ensures rows { (row : ℕ) → has_row rows.new.items row ≡ has_row rows.old.items row }
    ensures falling { IsFalling rows.new.items }
{
    if is_falling(rows) {
        return;
    }
    rows.sort_unstable_by(|row, other| other.cmp(row));
    rows.dedup();
}

// Whether each row is below the one before it, as in most files, which go from lines of all paths to those of few.
fn is_falling(rows: &[usize]) -> bool
    ensures { OnTrue result (IsFalling rows.now) }
{
    for index in 1..rows.len() {
        if rows[index - 1] <= rows[index] {
            return false;
        }
    }
    true
}
