//! The lists of a search, found by the directories below which they apply.

ghost use Rattle.std.specs.Prelude.{◌≡◌, ◌↔◌, ◌<◌, ◌≤◌, ℕ, List, [], ◌∷◌, ◌++◌, IfSome, IfNone, IfOk, OnOk, IsTrue, length, map, nat_eq, true};
ghost use Rattle.std.specs.List.{IsDistinct, list_any};
ghost use Rattle.attr_wildmatch.specs.declared.case.Case.TheVariants.{Sensitive, Fold};
ghost use Rattle.attr_search.specs.inner.BaseKeys.{base_keys, longest_base};
ghost use Rattle.attr_search.specs.inner.DirectoryKeys.{GathersKeys};
ghost use Rattle.attr_search.specs.IndexedLists.{listed_view, list_ids_of};
ghost use Rattle.attr_wildmatch.specs.declared.case.Case.{Case};

use crate::directory_keys::{PathKeys, base_directory, text_key};
use crate::indexed_list::IndexedList;
use crate::numbers_by_key::NumbersByKey;
use attr_glob::pattern::Case;
use std::alloc::{AllocError, Global};

// The numbers of lists that are so few that all are searched: to compare their bases with a path costs less than the keys of
// its directories.
const FEW: &[usize] = &[0, 1, 2, 3];

/// The lists of a search, the last of which takes precedence. They compare as the lists.
#[derive_where(PartialEq, Eq, PartialOrd, Ord, Hash, Debug)]
pub struct IndexedLists {
    /// The lists, in the order of their addition.
    pub lists: Vec<IndexedList>,
    /// The numbers of the lists, by the keys of their bases as they are spelled.
    #[derive_where(skip)]
    pub spelled: NumbersByKey,
    /// The same by the keys of their bases in lower case.
    #[derive_where(skip)]
    pub folded: NumbersByKey,
    /// No base is longer, in bytes.
    #[derive_where(skip)]
    pub longest: usize,
    ghost spelling: { spelled.keys ≡ base_keys Sensitive lists.items },
    ghost folding: { folded.keys ≡ base_keys Fold lists.items },
    ghost within: { longest_base lists.items ≤ longest },
}

// By hand, so that a proof drops it by one call.
impl Drop for IndexedLists {
    fn drop(self) {
        let IndexedLists {
            lists: _,
            spelled: _,
            folded: _,
            longest: _,
        } = self;
    }
}

impl IndexedLists {
    ghost use Rattle.attr_search.specs.inner.FoundLists.{HasListRoom, AreListsFor};
    ghost use Rattle.attr_search.specs.IndexedLists.{listed_view, list_ids_of};

    /// No lists. It takes no memory.
    pub fn new(alloc: Global) -> IndexedLists
        ensures { result.lists.items ≡ [] }
    {
        IndexedLists {
            lists: Vec::new(alloc),
            spelled: NumbersByKey::new(alloc),
            folded: NumbersByKey::new(alloc),
            longest: 0,
        }
    }

    /// Makes room for one more list.
    ///
    /// # Errors
    ///
    /// If memory runs out.
    pub fn reserve(&mut self) -> Result<(), AllocError>
        ensures lists { self.new.lists.items ≡ self.old.lists.items }
        ensures room { OnOk result (HasListRoom self.new) }
    {
        self.lists.reserve(1)?;
        self.spelled.reserve()?;
        self.folded.reserve()
    }

    /// Adds a list as the last one. There is room for it.
    pub fn push_reserved(&mut self, list: IndexedList)
        requires { HasListRoom self.old }
        ensures { self.new.lists.items ≡ self.old.lists.items ++ list ∷ [] }
    {
        self.longest = self.longest.max(base_directory(&list.list.base).len());
        self.spelled.push_reserved(list.base_keys.spelled);
        self.folded.push_reserved(list.base_keys.folded);
        self.lists.push_reserved(list);
    }

    /// Removes the last list and returns it, if there is one. It takes no memory.
    pub fn pop(&mut self) -> Option<IndexedList>
        ensures last { IfSome result (λ list.
            self.old.lists.items ≡ self.new.lists.items ++ list ∷ []) }
        ensures none { IfNone result (self.old.lists.items ≡ []) }
        ensures unchanged { IfNone result (self.new.lists.items ≡ []) }
    {
        let last = self.lists.pop()?;
        self.spelled.pop();
        self.folded.pop();
        Some(last)
    }

    /// Whether no two lists have the same list id. It takes a step for each list as long as the ids ascend, as those of one collection
    /// do, and then a step for each two lists.
    pub fn are_ids_distinct(&self) -> bool
        ensures { IsTrue result ↔ IsDistinct nat_eq (list_ids_of self.now.lists.items) }
    {
        do_ids_ascend(&self.lists) || is_each_id_new(&self.lists)
    }

    /// A copy: each list has the same number.
    ///
    /// # Errors
    ///
    /// If memory runs out.
    pub fn clone(&self, alloc: Global) -> Result<IndexedLists, AllocError>
        ensures lists { IfOk result (λ copy.
            map listed_view copy.lists.items ≡ map listed_view self.now.lists.items) }
        ensures list_ids { IfOk result (λ copy.
            list_ids_of copy.lists.items ≡ list_ids_of self.now.lists.items) }
    {
        let mut copy = IndexedLists::new(alloc);
        for list in &self.lists {
            let list = list.clone(alloc)?;
            copy.reserve()?;
            copy.push_reserved(list);
        }
        Ok(copy)
    }

    /// The numbers of all lists, in their order, if they are few.
    pub fn few(&self) -> Option<&[usize]>
        ensures few { IfSome result (λ numbers. (case : Case) (path : List ℕ) →
            AreListsFor case path self.now.lists.items numbers.now) }
        ensures many { IfNone result (4 < length self.now.lists.items) }
    {
        if self.lists.len() <= FEW.len() {
            Some(&FEW[..self.lists.len()])
        } else {
            None
        }
    }

    /// Finds the numbers of the lists that apply to a path in a case, and maybe of others. They don't fall, and take the
    /// place of what the buffer had. `known` is kept from path to path.
    ///
    /// # Errors
    ///
    /// If memory runs out.
    pub fn find(
        &self,
        path: &[u8],
        case: Case,
        known: &mut PathKeys,
        numbers: &mut Vec<usize>,
    ) -> Result<(), AllocError>
        ensures { OnOk result (AreListsFor case path.now self.now.lists.items numbers.new.items) }
    {
        known.read(&path[..path.len().min(self.longest)], case)?;
        numbers.clear();
        self.gather(case, &known.keys, numbers)?;
        numbers.sort_unstable();
        Ok(())
    }

    // Appends the numbers of the lists that have one of the keys in a case, or that of the empty directory.
    fn gather(&self, case: Case, keys: &[u64], numbers: &mut Vec<usize>) -> Result<(), AllocError>
        ensures { OnOk result (GathersKeys (base_keys case self.now.lists.items) keys.now
            (length keys.now) numbers.new.items) }
    {
        let by_key = match case {
            Case::Sensitive => &self.spelled,
            Case::Fold => &self.folded,
        };
        by_key.append(text_key(b""), numbers)?;
        for key in keys {
            by_key.append(*key, numbers)?;
        }
        Ok(())
    }
}

// Whether each list has a greater list id than the one before it.
fn do_ids_ascend(lists: &[IndexedList]) -> bool
    ensures { IsTrue result → IsDistinct nat_eq (list_ids_of lists.now) }
{
    lists.is_sorted_by(|list, next| list.list_id < next.list_id)
}

// Whether no list has the list id of a later one.
fn is_each_id_new(lists: &[IndexedList]) -> bool
    ensures { IsTrue result ↔ IsDistinct nat_eq (list_ids_of lists.now) }
{
    let mut left = lists;
    while let Some((list, later)) = left.split_first() {
        if has_id(later, list.list_id) {
            return false;
        }
        left = later;
    }
    true
}

// Whether a list has this list id.
fn has_id(lists: &[IndexedList], list_id: usize) -> bool
    ensures { result ≡ list_any (λ list. nat_eq list.list_id list_id) lists.now }
{
    lists.iter().any(|list| list.list_id == list_id)
}
