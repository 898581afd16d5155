//! A search: its lists of patterns, how they are added and removed, and how a path is matched against them.

ghost use Rattle.std.specs.Prelude.{◌≡◌, ◌≤◌, IsTrue, Ok, true, false, [], MatchOption, IfNone, IfSome, option_map, ◌∷◌, ◌++◌, IfOk, OnOk, OnErr, Some, length, string_bytes};
ghost use Rattle.std.specs.Option.{option_copied, option_to_list};
ghost use Rattle.attr_glob.specs.Views.{base_bytes};
ghost use Rattle.attr_lists.specs.KeptLists.{kept_list_where, dropped_lines};
ghost use Rattle.attr_search.specs.ListView.{list_view};
ghost use Rattle.attr_table.specs.Cut.{IsSearched};
ghost use Rattle.attr_table.specs.Table.{IsStable, OneTable, Table};
ghost use Rattle.attr_table.specs.Work.{newly_filled, work_of};
ghost use Rattle.bstr.specs.BStr.{bstr_bytes};
ghost use Rattle.gix_attributes.specs.Contents.{reset_content, wanted_of};
ghost use Rattle.gix_attributes.specs.Covered.{ListsAreCovered};
ghost use Rattle.attr_search.specs.Roots.{RootsAtMost};
ghost use Rattle.gix_attributes.specs.Searching.{JoinsSearches, KeepsAllButAnswers, KeepsNames, answers_in, is_complete, setting_for};
ghost use Rattle.attr_search.specs.Settings.{candidate_lines, is_found};
ghost use Rattle.attr_lists.specs.Collections.{Collection};
ghost use Rattle.attr_lists.specs.shared.MacroNumbers.{defines_macros};
ghost use Rattle.gix_attributes.specs.inner.SoundEngines.{last_lines};
ghost use Rattle.gix_attributes.specs.Additions.{RegistersNext, buffer_list, list_below, registered_lists};
ghost use Rattle.gix_attributes.specs.Keeping.{Adds, Keeps, Removes};
ghost use Rattle.gix_attributes.specs.SearchViews.{lists_in, list_ids_in, Holds, LosesLast, RemovesLast};

use crate::search::{MetadataCollection, Outcome};
use attr_glob::pattern::Case;
use attr_glob::search::pattern::{List, base_of};
use attr_lists::parser::defines_macros;
use attr_lists::types::{Attributes, Dropped};
use attr_search::indexed_list::IndexedList;
use attr_search::indexed_lists::IndexedLists;
use attr_search::path_query::PathQuery;
use bstr::BStr;
use std::alloc::{AllocError, Global};

/// A list to add: the bytes of an attributes file, and the source and the base that the list keeps (own).
#[derive(Drop)]
pub struct NewList<'a> {
    /// Whether the lines may define macros.
    pub allow_macros: bool,
    /// What is told as the source of the list's answers.
    pub source: String,
    /// What the paths begin with to which the list applies. It ends with a slash. Without one the list applies to all paths.
    pub base: Option<Vec<u8>>,
    /// The bytes of the file.
    pub buffer: &'a [u8],
}

/// Lists of patterns, in the order of their addition. The last one takes precedence (gitattributes page).
///
/// Each list is registered in the [`MetadataCollection`] that was passed when it was added, and this collection is
/// passed again when the list is removed. Searches compare by their lists alone, and not by the collection.
#[derive(PartialEq, Eq, PartialOrd, Ord, Hash, Debug, Drop)]
pub struct Search {
    patterns: IndexedLists,
}

impl Search {
    /// A search without lists. It takes no memory.
    pub fn new(alloc: Global) -> Search
        ensures lists { lists_in result ≡ [] }
        ensures list_ids { list_ids_in result ≡ [] }
        ensures held { (known : Collection) → Holds known result }
    {
        Search {
            patterns: IndexedLists::new(alloc),
        }
    }

    /// The number of lists.
    pub fn num_pattern_lists(&self) -> usize
        ensures { result ≡ length (lists_in self.now) }
    {
        self.patterns.lists.len()
    }

    /// Reads an attributes file's bytes as a list, adds it as the last one, and registers it in the collection. Returns
    /// the dropped lines, which the list lacks, each with its reason.
    ///
    /// `source` is the path of the file. The patterns apply to the paths in the file's directory, relative to `root`.
    /// Without a root, or if the file is elsewhere, they apply to all paths. If macros are not allowed, the lines that
    /// define one are skipped (gitattributes page: only top-level files may define macros).
    ///
    /// # Errors
    ///
    /// If memory runs out. The search and the collection are unchanged then.
    pub fn add_patterns_buffer(
        &mut self,
        alloc: Global,
        bytes: &[u8],
        source: String,
        root: Option<&str>,
        collection: &mut MetadataCollection,
        allow_macros: bool,
    ) -> Result<Vec<Dropped>, AllocError>
        ensures list { OnOk result (lists_in self.new ≡ lists_in self.old
            ++ buffer_list (string_bytes source) (option_copied root.entry) allow_macros bytes.now
            collection.new ∷ []) }
        ensures registered { OnOk result (RegistersNext (kept_list_where allow_macros bytes.now)
            (registered_lists self.old collection.old)
            (registered_lists self.new collection.new)) }
        ensures dropped { IfOk result (λ dropped. dropped.items ≡ dropped_lines bytes.now) }
        ensures held { Holds collection.old self.old → Holds collection.new self.new }
        ensures kept { OnOk result (Keeps (registered_lists self.old collection.old)
            (registered_lists self.new collection.new)) }
        ensures added { OnOk result (Adds (registered_lists self.old collection.old)
            (registered_lists self.new collection.new)) }
        ensures refused { OnErr result (lists_in self.new ≡ lists_in self.old) }
        ensures refused_list_ids { OnErr result (list_ids_in self.new ≡ list_ids_in self.old) }
        ensures unchanged { OnErr result (collection.new ≡ collection.old) }
    {
        let base = base_of(alloc, source.as_str(), root)?;
        let list = NewList {
            allow_macros,
            source,
            base,
            buffer: bytes,
        };
        self.add_patterns_below(alloc, list, collection)
    }

    /// Reads an attributes file's bytes as a list, as [`Search::add_patterns_buffer`] does, with a base of any bytes (own): the
    /// list applies to the paths that begin with the base, and its patterns are matched against what follows it. The source
    /// says nothing of where the list applies.
    ///
    /// # Errors
    ///
    /// If memory runs out. The search and the collection are unchanged then.
    pub fn add_patterns_below(
        &mut self,
        alloc: Global,
        list: NewList<'_>,
        collection: &mut MetadataCollection,
    ) -> Result<Vec<Dropped>, AllocError>
        ensures list { OnOk result (lists_in self.new ≡ lists_in self.old
            ++ list_below (string_bytes list.entry.source) (base_bytes list.entry.base)
            list.entry.allow_macros list.entry.buffer.now collection.new ∷ []) }
        ensures registered { OnOk result (RegistersNext
            (kept_list_where list.entry.allow_macros list.entry.buffer.now)
            (registered_lists self.old collection.old)
            (registered_lists self.new collection.new)) }
        ensures dropped { IfOk result
            (λ dropped. dropped.items ≡ dropped_lines list.entry.buffer.now) }
        ensures held { Holds collection.old self.old → Holds collection.new self.new }
        ensures kept { OnOk result (Keeps (registered_lists self.old collection.old)
            (registered_lists self.new collection.new)) }
        ensures added { OnOk result (Adds (registered_lists self.old collection.old)
            (registered_lists self.new collection.new)) }
        ensures refused { OnErr result (lists_in self.new ≡ lists_in self.old) }
        ensures refused_list_ids { OnErr result (list_ids_in self.new ≡ list_ids_in self.old) }
        ensures unchanged { OnErr result (collection.new ≡ collection.old) }
    {
        self.patterns.reserve()?;
        let count = collection.len();
        let (patterns, dropped) = collection.read_lines(alloc, list.buffer, list.allow_macros)?;
        let list = List {
            patterns,
            source: Some(list.source),
            base: list.base,
        };
        let indexed = collection.register(alloc, list, count)?;
        self.patterns.push_reserved(indexed);
        Ok(dropped)
    }

    /// Removes the last list, and its definitions of macros from the collection. Returns the list, or none if there was
    /// none. The list keeps the numbers of its attributes, and their names stay in the collection. It takes no memory.
    ///
    /// The lists of the search have to be registered in the collection, as [`MetadataCollection::holds`] tests it.
    pub fn pop_pattern_list(
        &mut self,
        collection: &mut MetadataCollection,
    ) -> Option<List<Attributes>>
        requires { Holds collection.old self.old }
        ensures list { lists_in self.old
            ≡ lists_in self.new ++ option_to_list (option_map list_view result) }
        ensures none { IfNone result (lists_in self.old ≡ []) }
        ensures list_ids { MatchOption result (list_ids_in self.new ≡ list_ids_in self.old)
            (λ _. LosesLast (list_ids_in self.old) (list_ids_in self.new)) }
        ensures collection { MatchOption result (collection.new ≡ collection.old)
            (λ _. RemovesLast (list_ids_in self.old) collection.old collection.new) }
        ensures held { Holds collection.new self.new }
        ensures kept { IfSome result (λ _. Keeps (registered_lists self.old collection.old)
            (registered_lists self.new collection.new)) }
        ensures removed { IfSome result (λ _. Removes
            (registered_lists self.old collection.old)
            (registered_lists self.new collection.new)) }
    {
        let last = self.patterns.pop()?;
        collection.remove(last.list_id);
        Some(last.list)
    }

    /// Looks up a path: fills the slots of an outcome from the lines that match the path, until each selected attribute
    /// has an answer (gitattributes page: later lists and lines take precedence). Returns whether the search found an
    /// answer of a selected attribute.
    ///
    /// The path has no leading slash, and `is_dir` is whether it is a directory, if that is known. Searches may follow
    /// one another: what the earlier ones found takes precedence. If each selected attribute has an answer before,
    /// nothing changes.
    ///
    /// # Errors
    ///
    /// If memory runs out. The outcome is empty then, as after [`Outcome::reset`].
    pub fn pattern_matching_relative_path(
        &self,
        alloc: Global,
        path: BStr<'_>,
        case: Case,
        is_dir: Option<bool>,
        out: &mut Outcome,
    ) -> Result<bool, AllocError>
        requires initialized { IsTrue out.old.is_initialized }
        requires covered { ListsAreCovered (length out.old.slots) (lists_in self.now) }

        // A table gives each attribute the item that decides it. It is stable if each is the earliest item that counts.
        // The slots are the cut of the only stable table, over the slots before: what a search finds that stops early.
        ensures one { OneTable
            (setting_for (lists_in self.now) out.old (bstr_bytes path.entry) case is_dir)
            (answers_in out.old) }
        ensures searched { OnOk result (IsSearched
            (setting_for (lists_in self.now) out.old (bstr_bytes path.entry) case is_dir)
            (wanted_of out.old) (answers_in out.old) (answers_in out.new)) }
        ensures joined { OnOk result (JoinsSearches (lists_in self.now)
            (bstr_bytes path.entry) case is_dir out.old out.new) }
        ensures found { IfOk result (λ found. found
            ≡ is_found (wanted_of out.old) (answers_in out.old) (answers_in out.new)) }
        ensures named { OnOk result (KeepsNames (lists_in self.now) out.old out.new) }
        ensures kept { OnOk result (KeepsAllButAnswers out.old out.new) }

        // A search takes at most the items that there are, and at least one for each slot that it fills. It tests at
        // most the candidate lines, and at least the lines whose items fill slots, themselves or by macros.
        ensures most { is_complete out.old ≡ false → OnOk result (
            out.new.taken
            ≤ work_of (setting_for (lists_in self.now) out.old (bstr_bytes path.entry) case is_dir)) }
        ensures least { is_complete out.old ≡ false → OnOk result (
            newly_filled (answers_in out.old) (answers_in out.new) (length out.new.slots)
            ≤ out.new.taken) }
        ensures tested { is_complete out.old ≡ false → OnOk result (
            out.new.tested ≤ candidate_lines (lists_in self.now) (bstr_bytes path.entry) case) }
        ensures roots { is_complete out.old ≡ false → OnOk result ((table : Table) →
            IsStable (setting_for (lists_in self.now) out.old (bstr_bytes path.entry) case is_dir)
            (answers_in out.old) table →
            RootsAtMost table (answers_in out.old) (answers_in out.new) out.new.tested) }

        // If each wanted attribute has an answer, nothing changes.
        ensures complete { is_complete out.old ≡ true → result ≡ Ok false }
        ensures unchanged { is_complete out.old ≡ true → out.new ≡ out.old }
        ensures refused { OnErr result (out.new ≡ reset_content out.old) }
    {
        let query = PathQuery::new(path, case, is_dir);
        let found = out.state.search(alloc, &self.patterns, query);
        if found.is_err() {
            out.reset();
        }
        found
    }

    /// A copy, with the same lists under the same list ids.
    ///
    /// # Errors
    ///
    /// If memory runs out.
    pub fn clone(&self, alloc: Global) -> Result<Search, AllocError>
        ensures lists { IfOk result (λ copy. lists_in copy ≡ lists_in self.now) }
        ensures list_ids { IfOk result (λ copy. list_ids_in copy ≡ list_ids_in self.now) }
        ensures held { IfOk result (λ copy.
            (known : Collection) → Holds known self.now → Holds known copy) }
    {
        Ok(Search {
            patterns: self.patterns.clone(alloc)?,
        })
    }

    // Whether the last list defines a macro.
    pub(crate) fn last_defines_macros(&self) -> bool
        ensures { result ≡ defines_macros (last_lines (lists_in self.now)) }
    {
        match self.patterns.lists.last() {
            Some(last) => defines_macros(&last.list.patterns),
            None => false,
        }
    }

    // The lists, each with its index.
    pub(crate) fn lists(&self) -> &IndexedLists
        ensures { result.now ≡ self.now.patterns }
    {
        &self.patterns
    }
}
