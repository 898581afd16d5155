//! Laws of lists and patterns. A law is the contract of a function that does nothing.

ghost use Rattle.std.specs.Prelude.{◌≡◌, Some, true, false, option_map, string_bytes};
ghost use Rattle.bstr.specs.BStr.{bstr_bytes};
ghost use Rattle.attr_glob.specs.BaseNames.{base_name};
ghost use Rattle.attr_glob.specs.Candidates.{has_macro_mode, is_candidate};
ghost use Rattle.attr_glob.specs.Clones.{IsMappingClone, AreMappingClones};
ghost use Rattle.attr_glob.specs.Paths.{path_matches};
ghost use Rattle.attr_glob.specs.Patterns.{reading};
ghost use Rattle.attr_glob.specs.Views.{base_bytes, pattern_view};

use crate::pattern::{Case, Pattern};
use crate::search;
use crate::search::pattern::{List, Mapping};
use bstr::BStr;

/// If a pattern was read from a text, defines no macro and matches a path, it is a candidate for the path. So a search
/// that tests only candidates finds all patterns that match.
pub fn matching_pattern_is_candidate(
    text: &[u8],
    pattern: &Pattern,
    path: BStr<'_>,
    is_dir: Option<bool>,
    case: Case,
)
    requires read { reading text.now ≡ Some (pattern_view pattern.now) }
    requires no_macro { has_macro_mode (pattern_view pattern.now) ≡ false }
    requires matches { path_matches case (pattern_view pattern.now)
        (bstr_bytes path) is_dir ≡ true }
    ensures { is_candidate case (base_name (bstr_bytes path.entry))
        (pattern_view pattern.now) ≡ true }
{}

/// A copy of a mapping is equal to it, if each copy of a value is.
pub fn mapping_clone_is_equal<V: Clone + PartialEq>(mapping: &Mapping<V>, copy: &Mapping<V>)
    requires values { (x y : V) → V.is_clone x y → V.eq y x ≡ true }
    requires copy { IsMappingClone V.is_clone mapping.now copy.now }
    ensures { ⟦<Mapping<V> as PartialEq>⟧.eq copy.now mapping.now ≡ true }
{}

/// A copy of a list is equal to it, if each copy of a value is.
pub fn list_clone_is_equal<T: search::Pattern + PartialEq>(list: &List<T>, copy: &List<T>)
    requires values { (x y : T.Value) → T.Value.is_clone x y → T.Value.eq y x ≡ true }
    requires patterns { AreMappingClones T.Value.is_clone
        list.now.patterns.items copy.now.patterns.items }
    requires source { option_map string_bytes copy.now.source
        ≡ option_map string_bytes list.now.source }
    requires base { base_bytes copy.now.base ≡ base_bytes list.now.base }
    ensures { ⟦<List<T> as PartialEq>⟧.eq copy.now list.now ≡ true }
{}
