//! Both searches, setting by setting.

use crate::lists::Lists;
use crate::parts::{COUNT, SELECTIONS, STARTS, files, short_lists};
use crate::real_search::RealSearch;
use crate::setting::{Setting, Slots, bodies_of};
use anyhow::{Result, ensure};
use attr_vectors::plain::{Item, Row};
use std::alloc::Global;

/// Compares the searches in each small setting, and reports how many settings there are.
///
/// # Errors
/// The first setting in which they differ; memory is refused.
pub(crate) fn compare_all(alloc: Global) -> Result<u64> {
    let bodies = short_lists(alloc)?;
    let files = files(alloc, &bodies)?;
    let mut compared = 0u64;
    for first in bodies.iter() {
        for second in bodies.iter() {
            compared = compared.saturating_add(compare_bodies(alloc, first, second, &files)?);
        }
    }
    Ok(compared)
}

fn compare_bodies<'s, 'r>(
    alloc: Global,
    first: &'s [Item<'static>],
    second: &'s [Item<'static>],
    files: &'s [Vec<Row<'r, 'static>>],
) -> Result<u64> {
    let lists = Lists::new(alloc, &bodies_of(first, second), files)?;
    let mut real = RealSearch::new(alloc, &lists)?;
    let mut compared = 0u64;
    for (wanted, names) in SELECTIONS {
        real.select(names)?;
        for start in STARTS {
            for (file, lines) in files.iter().enumerate() {
                let rows: &'s [Row<'r, 'static>] = lines.as_slice();
                let setting = Setting {
                    first,
                    second,
                    rows,
                    wanted,
                    start,
                };
                let is_same = agrees(alloc, setting, file, &mut real)?;
                ensure!(is_same, "the searches differ\n{}", setting.text(alloc)?);
                compared = compared.saturating_add(1);
            }
        }
    }
    Ok(compared)
}

// Runs both searches, and reports whether they agree and keep their bounds. The real one goes through the list of a file.
fn agrees(
    alloc: Global,
    setting: Setting<'_, '_>,
    file: usize,
    real: &mut RealSearch<'_>,
) -> Result<bool> {
    let (before, mut after) = (setting.begin(), setting.begin());
    let taken = setting.search(alloc, &mut after)?;
    real.begin(setting.start)?;
    let found = real.search(file)?;
    let (wanted, most) = (setting.wanted, setting.work());
    let change = Change {
        before,
        after,
        most,
    };
    Ok(
        real.has(&after)
            && found == change.is_found(wanted)
            && change.allows(taken)
            && (change.was_complete(wanted) || change.allows(real.taken())),
    )
}

/// The slots before a search and after it, and how many items there are.
#[derive(Clone, Copy)]
struct Change {
    before: Slots,
    after: Slots,
    most: u128,
}

impl Change {
    fn is_newly_filled(&self, attribute: usize) -> bool {
        attribute < COUNT && self.before[attribute].is_none() && self.after[attribute].is_some()
    }

    /// Whether a search may have taken so many items: no fewer than there are newly filled slots,
    /// and no more than there are items.
    fn allows(&self, taken: u128) -> bool {
        let filled = (0..COUNT).filter(|attribute| self.is_newly_filled(*attribute));
        filled.count() as u128 <= taken && taken <= self.most
    }

    fn is_found(&self, wanted: &[usize]) -> bool {
        wanted
            .iter()
            .any(|attribute| self.is_newly_filled(*attribute))
    }

    // A search changes nothing then, nor does it count.
    fn was_complete(&self, wanted: &[usize]) -> bool {
        wanted.iter().all(|attribute| matches!(self.before.get(*attribute), Some(Some(_))))
    }
}
