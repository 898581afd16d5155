//! A small setting, and the plain search in it, run with numbers alone.

use crate::parts::{COUNT, START, push_macros, push_rows};
use anyhow::{Result, ensure};
use attr_vectors::plain::{self, Answer, Item, Row, State};
use std::alloc::{AllocError, Global};
use std::fmt::Write;

/// The slots of all attributes, by number.
pub type Slots = [Option<Answer<'static>>; COUNT];

/// The bodies of the first two attributes, the lines of a file, each of which matches, what is looked for, and the slot that is
/// filled before.
#[derive(Clone, Copy)]
pub struct Setting<'s, 'r> {
    pub first: &'s [Item<'static>],
    pub second: &'s [Item<'static>],
    pub rows: &'s [Row<'r, 'static>],
    pub wanted: &'static [usize],
    pub start: Option<usize>,
}

/// The bodies of all attributes, by number. The third has none.
pub(crate) fn bodies_of<'s>(
    first: &'s [Item<'static>],
    second: &'s [Item<'static>],
) -> [&'s [Item<'static>]; COUNT] {
    let third: &'s [Item<'static>] = &[];
    [first, second, third]
}

impl Setting<'_, '_> {
    /// The slots before the search.
    pub(crate) fn begin(&self) -> Slots {
        let mut slots: Slots = [None; COUNT];
        let bodies = bodies_of(self.first, self.second);
        if let Some(attribute) = self.start
            && attribute < COUNT
        {
            let state = State::Unset;
            slots[attribute] = Some(Answer {
                origin: START,
                assignment: Item { attribute, state },
                is_macro: !bodies[attribute].is_empty(),
                cause: None,
            });
        }
        slots
    }

    /// Searches the lines, and reports how many items were taken.
    pub(crate) fn search(&self, alloc: Global, slots: &mut Slots) -> Result<u128> {
        let (lists, bodies) = ([self.rows], bodies_of(self.first, self.second));
        ensure!(
            plain::is_in_range(&lists, &bodies, self.wanted, COUNT),
            "a number is too large"
        );
        Ok(plain::search(alloc, &lists, &bodies, self.wanted, slots)?)
    }

    /// How many items the lines and the bodies have.
    pub(crate) fn work(&self) -> u128 {
        let lines = self.rows.iter().map(|row| row.items.len());
        let counts = lines.chain([self.first.len(), self.second.len()]);
        counts.fold(0, |work: u128, count| work.saturating_add(count as u128))
    }

    /// The setting as attributes files, with the numbers of what is looked for and of what is filled before.
    pub(crate) fn text(&self, alloc: Global) -> Result<String, AllocError> {
        let mut text = String::new(alloc);
        push_macros(&mut text, &bodies_of(self.first, self.second))?;
        push_rows(&mut text, self.rows)?;
        let (wanted, start) = (self.wanted, self.start);
        write!(text, "looked for: {wanted:?}\nfilled before: {start:?}")?;
        Ok(text)
    }
}
