//! What a search looks up in lists: a path.

ghost use Rattle.std.specs.Prelude.{◌≡◌, ℕ, true, IfSome, option_map};
ghost use Rattle.bstr.specs.BStr.{bstr_bytes};
ghost use Rattle.attr_wildmatch.specs.Pairs.{has_pair, holds};
ghost use Rattle.attr_glob.specs.BaseNames.{base_name_offset};
ghost use Rattle.attr_glob.specs.Bases.{rest_below};
ghost use Rattle.attr_glob.specs.Views.{base_bytes};
ghost use Rattle.attr_glob.specs.shared.LineShapes.{folds};

use attr_glob::pairs::Pairs;
use attr_glob::pattern::{Case, base_name_offset};
use attr_glob::search::pattern::List;
use attr_lists::types::Attributes;
use bstr::BStr;

/// A path, and how it is matched.
#[derive(Clone, Copy)]
pub struct PathQuery<'a> {
    /// The path, without a leading slash. Below a list's base it is what follows the base.
    pub path: BStr<'a>,
    /// The offset of the path's base name, as `base_name_offset` returns it.
    pub name_offset: Option<usize>,
    /// Whether the case of ASCII letters matters.
    pub case: Case,
    /// Whether the path is a directory, if that is known.
    pub is_dir: Option<bool>,
    /// The kinds of the pairs in the path, and maybe others.
    pub pairs: Pairs,
    ghost paired: { (k : ℕ) → has_pair k (bstr_bytes path) ≡ true → holds pairs k ≡ true },
    ghost offset: { name_offset ≡ base_name_offset (bstr_bytes path) },
}

impl<'a> PathQuery<'a> {
    /// A query for a path without a leading slash. `is_dir` is whether it is a directory, if that is known.
    pub fn new(path: BStr<'a>, case: Case, is_dir: Option<bool>) -> PathQuery<'a>
        ensures path { bstr_bytes result.path ≡ bstr_bytes path.entry }
        ensures case { result.case ≡ case }
        ensures is_dir { result.is_dir ≡ is_dir }
    {
        let name_offset = base_name_offset(path.as_bytes());
        PathQuery {
            path,
            name_offset,
            case,
            is_dir,
            pairs: Pairs::all(),
        }
    }

    /// The query for what follows the list's base in the path. None if the list doesn't apply to the path.
    pub fn below(self, list: &List<Attributes>) -> Option<PathQuery<'a>>
        ensures path { option_map (λ r. bstr_bytes r.path) result
            ≡ rest_below (base_bytes list.now.base) self.entry.case (bstr_bytes self.entry.path) }
        ensures case { IfSome result (λ r. r.case ≡ self.entry.case) }
        ensures is_dir { IfSome result (λ r. r.is_dir ≡ self.entry.is_dir) }
    {
        let (path, name_offset) = list.strip_base_handle_recompute_basename_pos(
            self.path,
            self.name_offset,
            self.case,
        )?;
        Some(PathQuery {
            path,
            name_offset,
            case: self.case,
            is_dir: self.is_dir,
            pairs: Pairs::all(),
        })
    }

    /// The same query, to be matched against so many lines. If the path is short for them, lines that need other pairs than it has
    /// are passed over.
    pub fn for_lines(mut self, count: usize) -> PathQuery<'a>
        ensures path { result.path ≡ self.entry.path }
        ensures case { result.case ≡ self.entry.case }
        ensures is_dir { result.is_dir ≡ self.entry.is_dir }
    {
        let path = self.path.as_bytes();
        if path.len() / 2 < count {
            self.pairs = Pairs::of(path);
        }
        self
    }

    /// Whether ASCII letters match regardless of case.
    pub fn folds(self) -> bool
        ensures { result ≡ folds self.entry.case }
    {
        match self.case {
            Case::Sensitive => false,
            Case::Fold => true,
        }
    }
}
