//! Iterators over the matches of an outcome.

ghost use Rattle.std.specs.Prelude.{◌≡◌, [], ◌∷◌, MatchOption, drop};
ghost use Rattle.std.specs.Rc.{rc_str_bytes};
ghost use Rattle.std.specs.Iterator.{YieldsFirstBy, item_count};
ghost use Rattle.attr_glob.specs.Views.{pattern_view};
ghost use Rattle.gix_attributes.specs.Contents.{found_in, selected_in, unspecified};
ghost use Rattle.attr_search.specs.Matches.{match_view};
ghost use Rattle.attr_search.specs.Matches.{no_pattern};

use crate::search::outcome::Outcome;
use crate::search::selected_name::SelectedName;
use crate::search::{AttributeId, Match, MatchKind, MatchLocation};
use attr_glob::Pattern;
use attr_text::{AssignmentRef, StateRef};
use std::marker::Model;

/// An iterator over the matches of an outcome, by the numbers of their attributes, whatever is selected.
#[derive(Drop)]
pub struct Matches<'a> {
    outcome: &'a Outcome,
    // The first number whose match may be left.
    next: usize,
}

impl<'a> Model for Matches<'a> {
    ghost use Rattle.std.specs.Prelude.{List, drop};
    ghost use Rattle.gix_attributes.specs.Contents.{found_in};
    ghost use Rattle.attr_search.specs.Slots.{Matched};

    ghost Value = { List Matched };

    ghost view = { λ m. found_in (drop m.next m.outcome.now.slots) };
}

impl<'a> Matches<'a> {
    pub(crate) fn of(outcome: &'a Outcome) -> Matches<'a>
        ensures { result ≡ found_in outcome.now.slots }
    {
        Matches { outcome, next: 0 }
    }
}

impl<'a> Iterator for Matches<'a> {
    type Item = Match<'a>;

    ghost next_gives = { YieldsFirstBy match_view (λ left. left) };

    ghost remaining = { item_count (λ left. left) };

    fn next(&mut self) -> Option<Match<'a>> {
        let (next, found) = first_match(self.outcome, self.next)?;
        self.next = next;
        Some(found)
    }
}

// The first match from a number on, and the number after its own.
fn first_match(outcome: &Outcome, from: usize) -> Option<(usize, Match<'_>)>
    ensures { MatchOption result (found_in (drop from outcome.now.slots) ≡ [])
        (λ r. found_in (drop from outcome.now.slots)
        ≡ match_view r.1 ∷ found_in (drop r.0 outcome.now.slots)) }
{
    let Some(id) = outcome.next_found(AttributeId(from)) else {
        return None;
    };
    let Some(found) = outcome.match_by_id(id) else {
        unreachable!()
    };

    // Slots can be counted.
    prove!(id.0 < outcome.len());
    Some((id.0 + 1, found))
}

/// An iterator over the matches of the selected names, in their order. A name that no matching line assigns is
/// unspecified (gitattributes page).
#[derive(Drop)]
pub struct Selected<'a> {
    outcome: &'a Outcome,
    // The index of the next name.
    next: usize,
}

impl<'a> Model for Selected<'a> {
    ghost use Rattle.std.specs.Prelude.{List, drop};
    ghost use Rattle.gix_attributes.specs.Contents.{selected_in};
    ghost use Rattle.attr_search.specs.Slots.{Matched};

    ghost Value = { List Matched };

    ghost view = { λ s. selected_in s.outcome.now.slots (drop s.next s.outcome.now.selection) };
}

impl<'a> Selected<'a> {
    pub(crate) fn of(outcome: &'a Outcome) -> Selected<'a>
        ensures { result ≡ selected_in outcome.now.slots outcome.now.selection }
    {
        Selected { outcome, next: 0 }
    }
}

impl<'a> Iterator for Selected<'a> {
    type Item = Match<'a>;

    ghost next_gives = { YieldsFirstBy match_view (λ left. left) };

    ghost remaining = { item_count (λ left. left) };

    fn next(&mut self) -> Option<Match<'a>> {
        let outcome = self.outcome;
        if self.next >= outcome.selected_len() {
            return None;
        }
        let found = outcome.selected_at(self.next);
        self.next += 1;
        Some(found)
    }
}

/// The match of a name that no matching line assigns: unspecified (gitattributes page), with the empty pattern, no
/// source and line 0 (own).
#[inline(always)]
pub(crate) fn unspecified<'a>(selected: &'a SelectedName, empty: &'a Pattern) -> Match<'a>
    requires { pattern_view empty.now ≡ no_pattern }
    ensures { match_view result ≡ unspecified (rc_str_bytes selected.now.name) }
{
    Match {
        pattern: empty,
        assignment: AssignmentRef {
            name: selected.reported(),
            state: StateRef::Unspecified,
        },
        kind: MatchKind::Attribute { macro_id: None },
        location: MatchLocation {
            source: None,
            sequence_number: 0,
        },
    }
}
