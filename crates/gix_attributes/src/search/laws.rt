//! Laws of all searches. A law is the contract of a function that does nothing.
//!
//! A table gives each attribute the item that decides it. It is stable if each is the earliest item that counts for its
//! attribute, by the gitattributes page. The laws of `attr_table` prove that exactly one table is stable.

ghost use Rattle.std.specs.Prelude.{◌≡◌, ◌↔◌, ℕ, Bool, false, List, ◌∷◌, ◌++◌, Option, All};
ghost use Rattle.attr_wildmatch.specs.declared.case.Case.{Case};
ghost use Rattle.attr_lists.specs.Collections.{Collection};
ghost use Rattle.attr_lists.specs.declared.types.TrackedAssignment.{TrackedAssignment};
ghost use Rattle.attr_table.specs.Cut.{IsSearched, full_answer};
ghost use Rattle.attr_table.specs.Table.{IsStable, Slots, Table};
ghost use Rattle.gix_attributes.specs.Contents.{Content, reset_content, initial_content, wanted_of};
ghost use Rattle.gix_attributes.specs.Lookups.{IsLookedUp, IsSearchedFurther, Lookup, OfTheOnlyTable, ReturnsAnswers, SelectsNoMore, setting_in, with_lists_searched};
ghost use Rattle.gix_attributes.specs.Searching.{KeepsAllButAnswers, answers_in, is_complete, setting_for};
ghost use Rattle.attr_search.specs.ListView.{Listed, rest_for};
ghost use Rattle.attr_search.specs.Settings.{gives, setting_of};
ghost use Rattle.std.specs.Cmp.Lexicographic.{pointwise, slice_cmp};
ghost use Rattle.gix_attributes.specs.SearchViews.{pattern_lists_in};

pub mod registers;

use crate::search::Search;
use attr_glob::search::pattern::List as PatternList;
use attr_lists::types::Attributes;

/// The answers of a search are those of the only stable table of its lists, each with its name: `iter_selected` returns
/// the answer for each selected name, and `iter` all of them without a selection. Stopping early changes no answer.
pub fn answers_are_of_the_only_table()
    ensures { (q : Lookup) (before after : Content) → IsLookedUp q before after →
        OfTheOnlyTable (setting_in q) (ReturnsAnswers q after) }
{}

/// If a search leaves a selected name without an answer, it went to the end: the outcome has the whole table.
pub fn unfinished_searches_leave_the_whole_table()
    ensures { (lists : List Listed) (path : List ℕ) (case : Case) (is_dir : Option Bool)
        (before after : Content) (table : Table) (number : ℕ) →
        (let setting = setting_for lists before path case is_dir in
        IsSearched setting (wanted_of before) (answers_in before) (answers_in after) →
        KeepsAllButAnswers before after → is_complete after ≡ false →
        IsStable setting (answers_in before) table → answers_in after number
        ≡ full_answer setting (answers_in before number) (table number)) }
{}

/// Searches for one path, one after the other, are one search of all lists. Those that were searched first come last.
pub fn further_searches_join()
    ensures { (q : Lookup) (lists : List Listed) (before middle after : Content) →
        IsLookedUp q before middle → IsSearchedFurther q lists middle after →
        IsLookedUp (with_lists_searched lists q) before after }
{}

/// An outcome into which another one was copied returns the same answers, for the names that it selects itself.
pub fn copies_return_the_answers()
    ensures { (q : Lookup) (before after : Content) (names : List (List ℕ)) →
        IsLookedUp q before after → SelectsNoMore q.selected names →
        (let copy = record (initial_content q.known names) { slots = after.slots } in
        OfTheOnlyTable (setting_in q) (ReturnsAnswers (record q { selected = names }) copy)) }
{}

/// A reset leaves what initialising left, however often the outcome was searched since; twice is once.
pub fn resetting_starts_again()
    ensures initialized { (known : Collection) (names : List (List ℕ)) →
        reset_content (initial_content known names) ≡ initial_content known names }
    ensures searched { (before after : Content) → KeepsAllButAnswers before after →
        reset_content after ≡ reset_content before }
    ensures again { (held : Content) → reset_content (reset_content held) ≡ reset_content held }
{}

/// A list of which no line matches a path changes none of its answers.
pub fn silent_lists_change_nothing()
    ensures { (earlier later : List Listed) (silent : Listed)
        (bodies : List (List TrackedAssignment)) (path : List ℕ) (case : Case)
        (is_dir : Option Bool) (wanted : List ℕ) (before after : Slots) →
        All (λ line. gives case is_dir (rest_for case path silent) line ≡ false) silent.lines →
        (let all = setting_of (earlier ++ silent ∷ later) bodies path case is_dir in
        let others = setting_of (earlier ++ later) bodies path case is_dir in
        IsSearched all wanted before after ↔ IsSearched others wanted before after) }
{}

/// Searches compare by their lists alone, one by one in the order of their addition. The list ids under which a collection has
/// registered them, and what a search keeps to find lists and lines, take no part.
pub fn searches_compare_by_their_lists(one: &Search, other: &Search)
    ensures equal { ⟦<Search as PartialEq>⟧.eq one.now other.now
        ≡ pointwise ⟦<PatternList<Attributes> as PartialEq>⟧.eq
        (pattern_lists_in one.now) (pattern_lists_in other.now) }
    ensures order { ⟦<Search as Ord>⟧.cmp one.now other.now
        ≡ slice_cmp ⟦<PatternList<Attributes> as Ord>⟧.cmp
        (pattern_lists_in one.now) (pattern_lists_in other.now) }
{}
