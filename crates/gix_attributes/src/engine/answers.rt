//! An iterator over the answers of an engine.

ghost use Rattle.std.specs.Prelude.{◌≡◌, [], unwrap_or};
ghost use Rattle.std.specs.Iterator.{YieldsFirstBy, item_count};
ghost use Rattle.attr_search.specs.Matches.{match_view};

use crate::engine::Engine;
use crate::search::Match;
use std::marker::Model;

/// An iterator over the answers of an engine, in their order.
#[derive(Drop)]
pub struct Answers<'a> {
    engine: &'a Engine,
    // The number of the next answer.
    next: usize,
}

impl<'a> Model for Answers<'a> {
    ghost use Rattle.std.specs.Prelude.{List, [], drop, unwrap_or};
    ghost use Rattle.attr_search.specs.Slots.{Matched};

    ghost Value = { List Matched };

    ghost view = { λ a. drop a.next (unwrap_or a.engine.now.answers []) };
}

impl<'a> Answers<'a> {
    pub(crate) fn of(engine: &'a Engine) -> Answers<'a>
        ensures { result ≡ unwrap_or engine.now.answers [] }
    {
        Answers { engine, next: 0 }
    }
}

impl<'a> Iterator for Answers<'a> {
    type Item = Match<'a>;

    ghost next_gives = { YieldsFirstBy match_view (λ left. left) };

    ghost remaining = { item_count (λ left. left) };

    fn next(&mut self) -> Option<Match<'a>> {
        let engine = self.engine;
        if self.next >= engine.num_answers() {
            return None;
        }
        let found = engine.answer(self.next)?;
        self.next += 1;
        Some(found)
    }
}
