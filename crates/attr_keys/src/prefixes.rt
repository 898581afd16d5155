//! Prefixes and ends, in the order of their codes. Few are compared one by one, by their first codes before their texts. Of
//! others the last one is sought that is not after a text, and from there on the shorter ones that it begins with.

ghost use Rattle.std.specs.Prelude.{◌≡◌, ◌<◌, ◌≤◌, [], ℕ, IfOk, OnOk, false, length, true, slice_get, slice_index};
ghost use Rattle.attr_keys.specs.inner.Cases.{keys_seen, seen_text};
ghost use Rattle.attr_keys.specs.inner.MetRows.{AppendsRows, IsMissed};
ghost use Rattle.attr_keys.specs.shared.Codes.{codes_of};
ghost use Rattle.attr_keys.specs.shared.Meeting.{text_has};
ghost use Rattle.attr_keys.specs.shared.Rows.{AreFirsts, AreInOrder, AreAllLinked, AreLinkedBefore, ArePrefixes, IsLink, has_row};

use crate::key::{
    Keyed, Keys, common, first_code, first_row_code, has_row_key, is_row_up_to, may_begin_with,
};
use crate::order::put_in_order;
use std::alloc::{AllocError, Global};

// So few keys are compared one by one.
const FEW: usize = 16;

/// Rows, in the order of their keys' codes.
#[derive(Debug, Drop)]
pub struct Prefixes {
    /// The rows.
    pub rows: Vec<usize>,
    /// If the rows are few, the first codes of their keys.
    pub firsts: Vec<u16>,
    /// If they are many, for each row the number of those up to the last one that its key begins with, of those before it.
    pub links: Vec<usize>,
}

impl Prefixes {
    /// These rows, in their order.
    ///
    /// # Errors
    ///
    /// If memory runs out.
    pub fn of<K: Keyed>(
        alloc: Global,
        keys: Keys<'_, K>,
        mut rows: Vec<usize>,
    ) -> Result<Prefixes, AllocError>
        ensures rows { IfOk result (λ prefixes. (row : ℕ) →
            has_row prefixes.rows.items row ≡ has_row rows.items row) }
        ensures sorted { IfOk result (ArePrefixes (keys_seen K.content keys.entry)) }
    {
        let mut firsts = Vec::new(alloc);
        let mut links = Vec::new(alloc);
        // Rows ascend, so those of equal keys do still.
        put_in_order(keys, &mut rows)?;
        if rows.len() <= FEW {
            push_firsts(keys, &rows, &mut firsts)?;
        } else {
            push_links(keys, &rows, &mut links)?;
        }
        Ok(Prefixes {
            rows,
            firsts,
            links,
        })
    }

    /// Appends the rows whose keys the text has. It costs nothing if there are no rows.
    ///
    /// # Errors
    ///
    /// If memory runs out. Some of the rows may have been appended then.
    #[inline(always)]
    pub fn append<K: Keyed>(
        &self,
        keys: Keys<'_, K>,
        text: &[u8],
        found: &mut Vec<usize>,
    ) -> Result<(), AllocError>
        requires { ArePrefixes (keys_seen K.content keys) self.now }
        ensures { OnOk result (AppendsRows (has_row self.now.rows.items)
            (keys_seen K.content keys.entry) (seen_text keys.entry.view text.now)
            found.old.items found.new.items) }
    {
        if self.rows.is_empty() {
            return Ok(());
        }
        self.append_some(keys, text, found)
    }

    // The same, if there are some.
    #[inline(never)]
    fn append_some<K: Keyed>(
        &self,
        keys: Keys<'_, K>,
        text: &[u8],
        found: &mut Vec<usize>,
    ) -> Result<(), AllocError>
        requires { ArePrefixes (keys_seen K.content keys) self.now }
        ensures { OnOk result (AppendsRows (has_row self.now.rows.items)
            (keys_seen K.content keys.entry) (seen_text keys.entry.view text.now)
            found.old.items found.new.items) }
    {
        if self.rows.len() <= FEW {
            self.append_few(keys, text, found)
        } else {
            append_linked(keys, &self.rows, &self.links, text, found)
        }
    }

    // Appends the rows whose keys the text has. Each first code is compared.
    #[inline(always)]
    fn append_few<K: Keyed>(
        &self,
        keys: Keys<'_, K>,
        text: &[u8],
        found: &mut Vec<usize>,
    ) -> Result<(), AllocError>
        requires { AreFirsts (keys_seen K.content keys) self.now.rows.items self.now.firsts.items }
        ensures { OnOk result (AppendsRows (has_row self.now.rows.items)
            (keys_seen K.content keys.entry) (seen_text keys.entry.view text.now)
            found.old.items found.new.items) }
    {
        let text_first = first_code(keys.view, text, true);
        for index in 0..self.firsts.len() {
            if self.is_had(keys, index, text, text_first) {
                found.push(self.rows[index])?;
            }
        }
        Ok(())
    }

    // Whether a text with this first code has the key of the row at an index. The first code of an empty key is 0: each text has that.
    #[inline(always)]
    fn is_had<K: Keyed>(
        &self,
        keys: Keys<'_, K>,
        index: usize,
        text: &[u8],
        text_first: u16,
    ) -> bool
        requires firsts { AreFirsts
            (keys_seen K.content keys) self.now.rows.items self.now.firsts.items }
        requires index { index < length self.now.firsts.items }
        requires text_first { text_first
            ≡ slice_index (codes_of false (seen_text keys.view text.now) true) 0 }
        ensures { result ≡ text_has (seen_text keys.entry.view text.now)
            (slice_get (keys_seen K.content keys.entry) (slice_index self.now.rows.items index)) }
    {
        let first = self.firsts[index];
        if first == 0 {
            return true;
        }
        if first != text_first {
            return false;
        }
        has_row_key(keys, self.rows[index], text)
    }
}

// Appends the first codes of the keys of these rows.
fn push_firsts<K: Keyed>(
    keys: Keys<'_, K>,
    rows: &[usize],
    firsts: &mut Vec<u16>,
) -> Result<(), AllocError>
    requires { firsts.old.items ≡ [] }
    ensures { OnOk result (AreFirsts (keys_seen K.content keys.entry) rows.now firsts.new.items) }
{
    for row in rows {
        firsts.push(first_row_code(keys, *row))?;
    }
    Ok(())
}

// Appends for each row the number of those up to the last one before it that its key begins with.
fn push_links<K: Keyed>(
    keys: Keys<'_, K>,
    rows: &[usize],
    links: &mut Vec<usize>,
) -> Result<(), AllocError>
    requires order { AreInOrder (keys_seen K.content keys) rows.now }
    requires links { links.old.items ≡ [] }
    ensures { OnOk result (
        AreAllLinked (keys_seen K.content keys.entry) rows.now links.new.items) }
{
    for index in 0..rows.len() {
        let end = link(keys, rows, links, index);
        links.push(end)?;
    }
    Ok(())
}

// The number of rows up to the last one before this one that its key begins with.
fn link<K: Keyed>(keys: Keys<'_, K>, rows: &[usize], links: &[usize], index: usize) -> usize
    requires { AreLinkedBefore (keys_seen K.content keys) index rows.now links.now }
    ensures { IsLink (keys_seen K.content keys.entry) rows.now index result }
{
    let mut end = index;
    while end > 0 && !may_begin_with(keys, rows[index], rows[end - 1]) {
        end = links[end - 1];
    }
    end
}

// Appends the rows whose keys the text has: the last one that is not after the text, and shorter ones that this begins with.
fn append_linked<K: Keyed>(
    keys: Keys<'_, K>,
    rows: &[usize],
    links: &[usize],
    text: &[u8],
    found: &mut Vec<usize>,
) -> Result<(), AllocError>
    requires { AreAllLinked (keys_seen K.content keys) rows.now links.now }
    ensures { OnOk result (AppendsRows (has_row rows.now)
        (keys_seen K.content keys.entry) (seen_text keys.entry.view text.now)
        found.old.items found.new.items) }
{
    let mut end = rows.partition_point(|row| is_row_up_to(keys, *row, text, true));
    while end > 0 {
        let index = end - 1;
        end = links[index];
        if has_row_key(keys, rows[index], text) {
            found.push(rows[index])?;
        } else if end > 0 {
            end = end.min(common_end(keys, rows, text, index));
        }
    }
    Ok(())
}

// The number of rows that are not after what the text has in common with the key of this row, which it doesn't have. So no row
// between the two has a key that the text has.
fn common_end<K: Keyed>(keys: Keys<'_, K>, rows: &[usize], text: &[u8], index: usize) -> usize
    requires { IsMissed
        (keys_seen K.content keys) rows.now (seen_text keys.view text.now) index }
    ensures { (k : ℕ) → result ≤ k → k < index →
        text_has (seen_text keys.entry.view text.now)
        (slice_get (keys_seen K.content keys.entry) (slice_index rows.now k)) ≡ false }
{
    let part = common(keys, rows[index], text);
    rows.partition_point(|row| is_row_up_to(keys, *row, part, false))
}
