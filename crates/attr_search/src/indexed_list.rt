//! A list of a search, with the index of its lines, which is made once.

ghost use Rattle.std.specs.Prelude.{◌≡◌, ◌<◌, [], None, length, false, All, IfOk, OnOk, OnErr, option_map, string_bytes, if◌then◌else◌};
ghost use Rattle.bstr.specs.BStr.{bstr_bytes};
ghost use Rattle.std.specs.List.{list_all};
ghost use Rattle.attr_glob.specs.Paths.{path_matches};
ghost use Rattle.attr_search.specs.inner.EntryAt.{entry_at};
ghost use Rattle.attr_search.specs.inner.Lines.{gives_nothing};
ghost use Rattle.attr_search.specs.inner.Trying.{AreTried};
ghost use Rattle.attr_glob.specs.Views.{base_bytes, patterns_of};
ghost use Rattle.attr_search.specs.inner.DirectoryKeys.{base_directory, keys_of};
ghost use Rattle.attr_lists.specs.Definitions.{HoldsList, IsSoundCollection, RegistersAs};
ghost use Rattle.attr_lists.specs.ListViews.{entries_view, entry_view};
ghost use Rattle.attr_search.specs.shared.ReadLines.{AreRead};
ghost use Rattle.attr_glob.specs.Indexed.{indexed_lines, listed_lines};
ghost use Rattle.attr_lists.specs.shared.Keeping.{IsNumbered};

use crate::directory_keys::{BaseKeys, base_directory};
use crate::path_query::PathQuery;
use attr_glob::pattern::base_name;
use attr_glob::search::pattern::{Index, List, Mapping};
use attr_glob::wildmatch::MatchBuffers;
use attr_keys::key::Texts;
use attr_lists::name_table::NameTable;
use attr_lists::types::{Attributes, Value};
use std::alloc::{AllocError, Global};
use std::rc::Rc;

// The keys of the bases of idle lists. No directory of at most eight bytes has them.
const IDLE_KEYS: BaseKeys = BaseKeys {
    spelled: 0,
    folded: 0,
};

/// A list of a search, with the keys of its lines. It compares as the list.
#[derive(Drop)]
#[derive_where(PartialEq, Eq, PartialOrd, Ord, Hash, Debug)]
pub struct IndexedList {
    /// The lines, their source, and the base below which they apply.
    pub list: List<Attributes>,
    /// The lines as searches read them, which is shared with the outcomes that have answers of the list. That of an idle list
    /// has none.
    #[derive_where(skip)]
    pub index: Rc<Index>,
    /// The list id under which the list is registered in its collection.
    #[derive_where(skip)]
    pub list_id: usize,
    /// The keys of the base, by which a path finds the list. No path finds a list that is idle.
    #[derive_where(skip)]
    pub base_keys: BaseKeys,
    /// Whether each line defines a macro or has no items, so that no path is given any.
    #[derive_where(skip)]
    pub is_idle: bool,
    ghost lines: { indexed_lines index.value.lines.items
        ≡ (if is_idle then [] else listed_lines list.patterns.items) },
    ghost source: { is_idle ≡ false →
        option_map string_bytes index.value.source ≡ option_map string_bytes list.source },
    ghost based: { is_idle ≡ false → base_keys ≡ keys_of (base_directory (base_bytes list.base)) },
    ghost idle: { is_idle ≡ list_all gives_nothing (entries_view list.patterns.items) },
    ghost read: { ∥ AreRead (entries_view list.patterns.items) ∥₁ },
}

impl IndexedList {
    ghost use Rattle.attr_search.specs.IndexedLists.{listed_view};

    /// Registers a list in the table, under a list id that no registered list has: its definitions of macros are active from
    /// then on. Its lines have the numbers of their names.
    ///
    /// # Errors
    ///
    /// If memory runs out. The table is unchanged then.
    pub fn register(
        alloc: Global,
        list: List<Attributes>,
        names: &mut NameTable,
    ) -> Result<IndexedList, AllocError>
        requires numbered { All (IsNumbered names.old.names) (entries_view list.patterns.items) }
        requires read { AreRead (entries_view list.patterns.items) }
        ensures registered { IfOk result (λ s.
            RegistersAs s.list_id (entries_view list.patterns.items) names.old names.new) }
        ensures list { IfOk result (λ s. s.list ≡ list) }
        ensures holds { IfOk result (λ s.
            HoldsList names.new s.list_id (entries_view list.patterns.items)) }
        ensures sound { OnOk result (IsSoundCollection names.new) }
        ensures refused { OnErr result (names.new ≡ names.old) }
    {
        let is_idle = all_give_nothing(&list.patterns);
        let index = Rc::new(alloc, index_of(alloc, &list, is_idle)?)?;
        let keys_of_base = BaseKeys::of(alloc, base_directory(&list.base))?;
        let list_id = names.register(alloc, &list.patterns)?;
        let base_keys = if is_idle { IDLE_KEYS } else { keys_of_base };
        Ok(IndexedList {
            list,
            index,
            list_id,
            base_keys,
            is_idle,
        })
    }

    /// Finds the indexes, from 0, of the lines that may match what is left of a path, the greatest first. They replace
    /// the contents of `indexes`. `reversed` is a buffer for the reversed base name.
    ///
    /// # Errors
    ///
    /// If memory runs out. The contents of `indexes` are not specified then.
    pub fn find_candidates(
        &self,
        rest: PathQuery<'_>,
        reversed: &mut Vec<u8>,
        indexes: &mut Vec<usize>,
    ) -> Result<(), AllocError>
        requires { self.now.is_idle ≡ false }
        ensures { OnOk result (AreTried rest.entry.case (bstr_bytes rest.entry.path)
            (patterns_of self.now.list.patterns.items) indexes.new.items) }
    {
        let path = rest.path.as_bytes();
        let texts = Texts {
            name: base_name(path, rest.name_offset),
            path,
            fold: rest.folds(),
        };
        let index = self.index.as_ref();
        index.keys.find(&index.lines, texts, reversed, indexes)
    }

    /// Whether the pattern of the line at an index matches what is left of a path. The line defines no macro.
    ///
    /// # Errors
    ///
    /// If memory runs out.
    pub fn matches(
        &self,
        index: usize,
        rest: PathQuery<'_>,
        buffers: &mut MatchBuffers,
    ) -> Result<bool, AllocError>
        requires index { index < length self.now.index.value.lines.items }
        requires no_macro { (entry_at (entries_view self.now.list.patterns.items) index).macro
            ≡ None }
        ensures { IfOk result (λ answer. answer ≡ path_matches rest.entry.case
            (entry_at (entries_view self.now.list.patterns.items) index).pattern
            (bstr_bytes rest.entry.path) rest.entry.is_dir) }
    {
        let line = &self.index.lines[index];
        if !line.pattern.takes_kind(rest.is_dir) || !line.may_match(rest.pairs) {
            return Ok(false);
        }
        let part = line
            .pattern
            .matched_part(rest.path.as_bytes(), rest.name_offset);
        line.pattern
            .matches_part(line.tokens(), part, rest.case, buffers)
    }

    /// A copy, with the same list id.
    ///
    /// # Errors
    ///
    /// If memory runs out.
    pub fn clone(&self, alloc: Global) -> Result<IndexedList, AllocError>
        ensures list { IfOk result (λ copy. listed_view copy ≡ listed_view self.now) }
        ensures list_id { IfOk result (λ copy. copy.list_id ≡ self.now.list_id) }
    {
        let list = self.list.clone(alloc)?;
        let index = self.index.clone()?;
        Ok(IndexedList {
            list,
            index,
            list_id: self.list_id,
            base_keys: self.base_keys,
            is_idle: self.is_idle,
        })
    }
}

// The index of a list. That of an idle one has no lines.
fn index_of(alloc: Global, list: &List<Attributes>, is_idle: bool) -> Result<Index, AllocError>
    ensures lines { IfOk result (λ index. indexed_lines index.lines.items
        ≡ (if is_idle then [] else listed_lines list.now.patterns.items)) }
    ensures source { IfOk result (λ index. is_idle ≡ false →
        option_map string_bytes index.source ≡ option_map string_bytes list.now.source) }
{
    if is_idle {
        Index::without_lines(alloc)
    } else {
        Index::of(alloc, list)
    }
}

// Whether no line gives a path anything.
fn all_give_nothing(mappings: &[Mapping<Value>]) -> bool
    ensures { result ≡ list_all gives_nothing (entries_view mappings.now) }
{
    mappings.iter().all(gives_nothing)
}

// Whether a line defines a macro or has no items.
fn gives_nothing(mapping: &Mapping<Value>) -> bool
    ensures { result ≡ gives_nothing (entry_view mapping.now) }
{
    match &mapping.value {
        Value::MacroAssignments { .. } => true,
        Value::Assignments(assignments) => assignments.is_empty(),
    }
}
