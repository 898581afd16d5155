//! Laws of the lists of a search. A law is the contract of a function that does nothing.

ghost use Rattle.std.specs.Prelude.{◌≡◌};
ghost use Rattle.std.specs.Cmp.Lexicographic.{pointwise, slice_cmp};
ghost use Rattle.attr_search.specs.IndexedLists.{pattern_lists};

use crate::indexed_lists::IndexedLists;
use attr_glob::search::pattern::List;
use attr_lists::types::Attributes;

/// The lists of two searches compare one by one, by what was read of them. Their list ids and their indexes take no part.
pub fn lists_compare_alone(one: &IndexedLists, other: &IndexedLists)
    ensures equal { ⟦<IndexedLists as PartialEq>⟧.eq one.now other.now
        ≡ pointwise ⟦<List<Attributes> as PartialEq>⟧.eq
        (pattern_lists one.now.lists.items) (pattern_lists other.now.lists.items) }
    ensures order { ⟦<IndexedLists as Ord>⟧.cmp one.now other.now
        ≡ slice_cmp ⟦<List<Attributes> as Ord>⟧.cmp
        (pattern_lists one.now.lists.items) (pattern_lists other.now.lists.items) }
{}
