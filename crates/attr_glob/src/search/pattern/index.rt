//! The lines of a list as searches read them, and which of them a path has to be matched against.

ghost use Rattle.std.specs.Prelude.{◌≡◌, ◌↔◌, [], IfOk, IsTrue, option_map, string_bytes};
ghost use Rattle.bstr.specs.BStr.{bstr_bytes};
ghost use Rattle.attr_glob.specs.BaseNames.{base_name, base_name_offset};
ghost use Rattle.attr_glob.specs.Candidates.{candidates};
ghost use Rattle.attr_glob.specs.Views.{pattern_view, patterns_of};
ghost use Rattle.attr_glob.specs.Indexed.{indexed_lines, indexed_patterns, listed_lines};
ghost use Rattle.attr_glob.specs.shared.LineShapes.{indexed_keys, shape_reading};
ghost use Rattle.attr_keys.specs.shared.KeyIndexes.{IsKeyIndex};
ghost use Rattle.attr_keys.specs.shared.LineKeys.{shape_content};

use crate::pattern::{Case, Mode, base_name};
use crate::search::pattern::List;
use crate::search::pattern::indexed_line::IndexedLine;
use crate::{Pattern, search};
use attr_keys::key::{Key, Keyed};
use attr_keys::key_index::KeyIndex;
use attr_keys::kinds::Kinds;
use attr_keys::line_key::{Shape, line_key};
use bitflags::Flags;
use bstr::BStr;
use std::alloc::{AllocError, Global};

/// The lines of a list as searches read them and as answers lend them, found by the base names and the paths that they need, so
/// that a search tests only candidates. A candidate is a line whose pattern may match a path with a given base name (own: it
/// changes no answer). An index is made once, and nothing changes it: a search and the outcomes that have answers of the list
/// share it by counting.
#[derive(Debug, Drop)]
pub struct Index {
    /// The lines, in their order.
    pub lines: Vec<IndexedLine>,
    /// The source of the list.
    pub source: Option<String>,
    /// The keys of the lines, by which those are found that may match a path.
    pub keys: KeyIndex,
    ghost keyed: { IsKeyIndex (indexed_keys lines.items) keys },
}

impl Index {
    /// The index of a list. It has a copy of each pattern, and of the source.
    ///
    /// # Errors
    ///
    /// If memory runs out.
    pub fn of<T: search::Pattern>(alloc: Global, list: &List<T>) -> Result<Index, AllocError>
        ensures patterns { IfOk result (λ index.
            indexed_patterns index.lines.items ≡ patterns_of list.now.patterns.items) }
        ensures lines { IfOk result (λ index.
            indexed_lines index.lines.items ≡ listed_lines list.now.patterns.items) }
        ensures source { IfOk result (λ index.
            option_map string_bytes index.source ≡ option_map string_bytes list.now.source) }
    {
        let mut kinds = Kinds::new(alloc, list.patterns.len())?;
        let mut lines = Vec::with_capacity(alloc, list.patterns.len())?;
        for mapping in &list.patterns {
            let line = IndexedLine::of(alloc, mapping)?;
            kinds.push(&line)?;
            lines.push(line)?;
        }
        let keys = KeyIndex::of(alloc, &lines, kinds)?;
        let source = list.source.clone()?;
        Ok(Index {
            lines,
            source,
            keys,
        })
    }

    /// The index of no lines.
    ///
    /// # Errors
    ///
    /// If memory runs out.
    pub fn without_lines(alloc: Global) -> Result<Index, AllocError>
        ensures { IfOk result (λ index. index.lines.items ≡ []) }
    {
        let lines = Vec::new(alloc);
        let keys = KeyIndex::of(alloc, &lines, Kinds::new(alloc, 0)?)?;
        Ok(Index {
            lines,
            source: None,
            keys,
        })
    }

    /// Whether the index was made of a list with the same patterns in the same order.
    pub fn is_of<T: search::Pattern>(&self, list: &List<T>) -> bool
        ensures { IsTrue result
            ↔ (indexed_patterns self.now.lines.items ≡ patterns_of list.now.patterns.items) }
    {
        if self.lines.len() != list.patterns.len() {
            return false;
        }
        for (index, mapping) in list.patterns.iter().enumerate() {
            if !is_same_pattern(&self.lines[index].pattern, &mapping.pattern) {
                return false;
            }
        }
        true
    }

    /// The indexes of the candidates for a path, from 0 in the list, the greatest first. `basename_pos` is the path's
    /// [`base_name_offset`](crate::pattern::base_name_offset). It looks at each line: searches find their lines by keys.
    ///
    /// # Errors
    ///
    /// If memory runs out.
    pub fn candidates<T: search::Pattern>(
        &self,
        alloc: Global,
        list: &List<T>,
        path: BStr<'_>,
        basename_pos: Option<usize>,
        case: Case,
    ) -> Result<Vec<usize>, AllocError>
        requires of { indexed_patterns self.now.lines.items ≡ patterns_of list.now.patterns.items }
        requires offset { basename_pos ≡ base_name_offset (bstr_bytes path) }
        ensures { IfOk result (λ found. let name = base_name (bstr_bytes path.entry) in
            found.items ≡ candidates case name (patterns_of list.now.patterns.items)) }
    {
        let base_name = base_name(path.as_bytes(), basename_pos);
        let mut found = Vec::new(alloc);
        for index in (0..self.lines.len()).rev() {
            if self.lines[index].pattern.is_candidate(base_name, case) {
                found.push(index)?;
            }
        }
        Ok(found)
    }
}

fn is_same_pattern(x: &Pattern, y: &Pattern) -> bool
    ensures { IsTrue result ↔ (pattern_view x.now ≡ pattern_view y.now) }
{
    x == y
}

impl Keyed for IndexedLine {
    ghost use Rattle.attr_glob.specs.shared.LineShapes.{key_of_pattern};

    ghost content = { λ line. key_of_pattern line.pattern };

    #[inline]
    fn key(&self) -> Key<'_> {
        line_key(shape_of(&self.pattern))
    }
}

// The parts of the pattern that decide its key.
#[inline]
fn shape_of(pattern: &Pattern) -> Shape<'_>
    ensures { shape_content result ≡ shape_reading (pattern_view pattern.now) }
{
    let mode = pattern.mode;
    Shape {
        text: &pattern.text,
        wildcard: pattern.first_wildcard_pos,
        is_macro: mode.contains(Mode::MACRO),
        asks_name: pattern.asks_name(),
        is_end: mode.contains(Mode::ENDS_WITH),
    }
}
