//! Rows, which are indexes of lines, by the hashes of their keys: of whole keys, and of extensions.

ghost use Rattle.std.specs.Prelude.{◌≡◌, ◌<◌, ◌≤◌, ◌+◌, ◌-◌, ◌^◌, [], ℕ, IfOk, IfSome, IsSome, None, OnOk, Some, length, map, reverse, true};
ghost use Rattle.std.specs.Bool.{OnFalse};
ghost use Rattle.attr_keys.specs.inner.Cases.{in_case};
ghost use Rattle.attr_keys.specs.inner.Extensions.{extension, is_hashed, is_reversed_extension};
ghost use Rattle.attr_keys.specs.inner.Hashes.{IsLonger, bucket_of, text_hash};
ghost use Rattle.attr_keys.specs.inner.Links.{AreBounded, IsLed};
ghost use Rattle.attr_keys.specs.inner.MetRows.{AppendsMet, IsMet};
ghost use Rattle.attr_keys.specs.declared.key.Subject.{Subject};
ghost use Rattle.attr_keys.specs.shared.KeyContents.{KeyContent};
ghost use Rattle.attr_keys.specs.shared.Meeting.{key_content};

use crate::key::{Key, Keyed, Subject, Texts};
use std::alloc::{AllocError, Global};
use std::hash::{FoldHasher, Hasher};

// So many rows may share a bucket. The others of it are not found by their hashes.
const MOST: u8 = 16;

// How many hashes there are.
const HASHES: u128 = 1 << 64;

// So many rows may be found by their hashes: links are of 32 bits, to take half the memory.
const MOST_ROWS: usize = u32::MAX as usize;

/// Rows in about as many buckets, by the hashes of their keys. Each is pushed, also those that are not found here.
#[derive(Debug, Drop)]
pub struct HashedRows {
    /// For each bucket the number of rows up to the last one that is in it, and 0 of an empty one.
    pub heads: Vec<u32>,
    /// For each row the number of rows up to the last one before it that is in its bucket, and 0 if there is none.
    pub links: Vec<u32>,
    /// For each bucket how many rows it has.
    pub counts: Vec<u8>,
    /// The bytes of the longest base name that is a key: of a longer one no hash is made.
    pub longest_name: usize,
    /// The same of extensions.
    pub longest_extension: usize,
    /// The same of paths.
    pub longest_path: usize,
    ghost bounded: { AreBounded heads.items links.items },
    ghost counted: { length counts.items ≡ length heads.items },
}

impl HashedRows {
    ghost use Rattle.attr_keys.specs.inner.Buckets.{IsOpenBucket, IsBucketOf, IsEndHead, IsHashed, IsHashedAt, IsHeadOf, longest_of};

    /// No rows yet, and as many buckets as there will be rows.
    ///
    /// # Errors
    ///
    /// If memory runs out.
    pub fn new(alloc: Global, count: usize) -> Result<HashedRows, AllocError>
        ensures empty { IfOk result (λ hashed. hashed.links.items ≡ []) }
        ensures buckets { IfOk result (λ hashed. length hashed.heads.items ≡ count) }
        ensures longest { IfOk result (λ hashed. (hashed.longest_name ≡ 0)
            × (hashed.longest_extension ≡ 0) × (hashed.longest_path ≡ 0)) }
    {
        let mut heads = Vec::new(alloc);
        heads.resize(count, 0)?;
        let mut counts = Vec::new(alloc);
        counts.resize(count, 0)?;
        Ok(HashedRows {
            heads,
            links: Vec::with_capacity(alloc, count)?,
            counts,
            longest_name: 0,
            longest_extension: 0,
            longest_path: 0,
        })
    }

    /// Adds the next row, with this key, and returns whether it is found by its hash. Prefixes and suffixes are not, and neither is a
    /// row whose bucket is full or whose number has more than 32 bits. `buffer` is one for the key in lower case, as it is taken if
    /// `fold` is set.
    ///
    /// # Errors
    ///
    /// If memory runs out. The rows are as they were then.
    pub fn push(
        &mut self,
        key: Key<'_>,
        fold: bool,
        buffer: &mut Vec<u8>,
    ) -> Result<bool, AllocError>
        ensures counted { OnOk result
            (length self.new.links.items ≡ length self.old.links.items + 1) }
        ensures kept { OnOk result ((other : KeyContent) (row : ℕ) →
            IsHashed fold other self.old row → IsHashed fold other self.new row) }
        ensures put { IfOk result (λ put. put ≡ true → IsHashed fold
            (key_content key.entry) self.new (length self.old.links.items)) }
    {
        let Some(bucket) = self.free_bucket(key, fold, buffer)? else {
            self.links.push(0)?;
            return Ok(false);
        };
        self.links.push(self.heads[bucket])?;
        self.heads[bucket] = self.links.len() as u32;
        self.counts[bucket] += 1;
        self.note_length(key);
        Ok(true)
    }

    // The bucket of a key that is found by its hash, if it isn't full and there are not too many rows.
    fn free_bucket(
        &self,
        key: Key<'_>,
        fold: bool,
        buffer: &mut Vec<u8>,
    ) -> Result<Option<usize>, AllocError>
        ensures bucket { IfOk result (λ free. IfSome free (λ bucket. IsBucketOf fold
            (key_content key.entry) self.now bucket)) }
        ensures few { IfOk result (λ free. IsSome free → length self.now.links.items < 2 ^ 32 - 1) }
    {
        if !is_hashed(key) || self.links.len() >= MOST_ROWS {
            return Ok(None);
        }
        let bucket = self.bucket(hash_in_case(fold, key.text, buffer)?);
        Ok(if self.is_full(bucket) {
            None
        } else {
            Some(bucket)
        })
    }

    // Notes the length of a key, if it is the longest of its subject.
    fn note_length(&mut self, key: Key<'_>)
        ensures heads { self.new.heads ≡ self.old.heads }
        ensures links { self.new.links ≡ self.old.links }
        ensures counts { self.new.counts ≡ self.old.counts }
        ensures longer { (subject : Subject) →
            longest_of subject self.old ≤ longest_of subject self.new }
        ensures noted { length key.entry.text.now ≤ longest_of key.entry.subject self.new }
    {
        let len = key.text.len();
        match key.subject {
            Subject::Name => self.longest_name = self.longest_name.max(len),
            Subject::End => self.longest_extension = self.longest_extension.max(len),
            _ => self.longest_path = self.longest_path.max(len),
        }
    }

    // The bucket of a hash.
    #[inline(always)]
    fn bucket(&self, hash: u64) -> usize
        ensures { result ≡ bucket_of (length self.now.heads.items) hash }
    {
        (u128::from(hash) * self.heads.len() as u128 / HASHES) as usize
    }

    // Whether a bucket has as many rows as it may.
    fn is_full(&self, bucket: usize) -> bool
        ensures { OnFalse result (IsOpenBucket self.now bucket) }
    {
        self.counts.get(bucket).is_none_or(|count| *count >= MOST)
    }

    /// Appends rows whose keys the texts have: among them all of those that are found by their hashes. `buffer` is one for what is
    /// hashed, in lower case.
    ///
    /// # Errors
    ///
    /// If memory runs out. Some of the rows may have been appended then.
    #[inline(always)]
    pub fn append<K: Keyed>(
        &self,
        lines: &[K],
        texts: Texts<'_>,
        buffer: &mut Vec<u8>,
        found: &mut Vec<usize>,
    ) -> Result<(), AllocError>
        requires counted { length self.now.links.items ≡ length lines.now }
        ensures { OnOk result (AppendsMet
            (IsMet texts.entry (map K.content lines.now))
            (IsHashedAt texts.entry.fold (map K.content lines.now) self.now)
            found.old.items found.new.items) }
    {
        let name = self.head(texts.fold, texts.name, self.longest_name, buffer)?;
        self.append_bucket(lines, texts, name, found)?;
        let end = self.end_head(texts, buffer)?;
        self.append_bucket(lines, texts, end, found)?;
        let path = self.head(texts.fold, texts.path, self.longest_path, buffer)?;
        self.append_bucket(lines, texts, path, found)
    }

    // The number of rows up to the last one that is in the bucket of a text, and 0 if the text is longer than the longest key.
    #[inline(always)]
    fn head(
        &self,
        fold: bool,
        text: &[u8],
        longest: usize,
        buffer: &mut Vec<u8>,
    ) -> Result<usize, AllocError>
        ensures { IfOk result (λ head. IsHeadOf fold text.now longest self.now head) }
    {
        if text.len() > longest {
            return Ok(0);
        }
        let bucket = self.bucket(hash_in_case(fold, text, buffer)?);
        Ok(self.heads.get(bucket).copied().unwrap_or(0) as usize)
    }

    // The same of the extension of the base name, if it has one.
    #[inline(always)]
    fn end_head(&self, texts: Texts<'_>, buffer: &mut Vec<u8>) -> Result<usize, AllocError>
        ensures { IfOk result (λ head. IsEndHead
            texts.entry.fold (extension texts.entry.name.now) self.now head) }
    {
        match extension(texts.name, self.longest_extension) {
            Some(text) => self.head(texts.fold, text, self.longest_extension, buffer),
            None => Ok(0),
        }
    }

    // Appends the rows of a bucket whose keys the texts have, the last first.
    #[inline(always)]
    fn append_bucket<K: Keyed>(
        &self,
        lines: &[K],
        texts: Texts<'_>,
        head: usize,
        found: &mut Vec<usize>,
    ) -> Result<(), AllocError>
        requires counted { length self.now.links.items ≡ length lines.now }
        requires within { head ≤ length self.now.links.items }
        ensures { OnOk result (AppendsMet
            (IsMet texts.entry (map K.content lines.now)) (IsLed self.now.links.items head)
            found.old.items found.new.items) }
    {
        let mut end = head;
        while end > 0 {
            let row = end - 1;
            if texts.have(lines[row].key()) {
                found.push(row)?;
            }
            end = self.links[row] as usize;
        }
        Ok(())
    }
}

// Whether a key is found by its hash: it is whole, or an extension.
#[inline]
fn is_hashed(key: Key<'_>) -> bool
    ensures { result ≡ is_hashed (key_content key.entry) }
{
    match key.subject {
        Subject::Name | Subject::Path => key.is_whole,
        Subject::End => !key.is_whole && is_extension(key.text),
        Subject::Anything | Subject::Nothing => false,
    }
}

// Whether an end is an extension: a dot, and bytes without a dot. A base name has it just if its own extension is this text.
fn is_extension(text: &[u8]) -> bool
    ensures { result ≡ is_reversed_extension (reverse text.now) }
{
    match text.split_first() {
        Some((first, rest)) => *first == b'.' && !rest.contains(&b'.'),
        None => false,
    }
}

// The bytes of a base name from its last dot on, if it has a dot and they are no more than the longest.
#[inline(always)]
fn extension(name: &[u8], longest: usize) -> Option<&[u8]>
    ensures none { result ≡ None → IsLonger longest (extension name.now) }
    ensures some { IfSome result (λ text. extension name.now ≡ Some text.now) }
{
    let mut offset = name.len();
    let first = offset.saturating_sub(longest);
    while offset > first {
        offset -= 1;
        if name[offset] == b'.' {
            return Some(&name[offset..]);
        }
    }
    None
}

// The hash of a text, in lower case if `fold` is set. `buffer` is one for that.
#[inline(always)]
fn hash_in_case(fold: bool, text: &[u8], buffer: &mut Vec<u8>) -> Result<u64, AllocError>
    ensures { IfOk result (λ hash. hash ≡ text_hash (in_case fold text.now)) }
{
    if !fold {
        return Ok(text_hash(text));
    }
    write_lower(text, buffer)?;
    Ok(text_hash(buffer))
}

// The text in lower case, in place of what the buffer had.
fn write_lower(text: &[u8], buffer: &mut Vec<u8>) -> Result<(), AllocError>
    ensures { OnOk result (buffer.new.items ≡ in_case true text.now) }
{
    buffer.clear();
    buffer.extend_from_slice(text)?;
    buffer.make_ascii_lowercase();
    Ok(())
}

// The hash of a text by std's fast hasher. Texts can be made to share one.
fn text_hash(text: &[u8]) -> u64
    ensures { result ≡ text_hash text.now }
{
    let mut hasher = FoldHasher::default();
    hasher.write(text);
    hasher.finish()
}
