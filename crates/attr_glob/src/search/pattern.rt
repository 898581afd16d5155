//! Lists of patterns that apply below a base.

ghost use Rattle.std.specs.Prelude.{◌≡◌, Some, IfOk, IfSome, option_map, string_bytes, length, drop};
ghost use Rattle.std.specs.Option.{option_copied};
ghost use Rattle.bstr.specs.BStr.{bstr_bytes};
ghost use Rattle.attr_glob.specs.Bases.{base_of, rest_below, directory, below_root, with_slash};
ghost use Rattle.attr_glob.specs.inner.OffsetsAfter.{offset_after};
ghost use Rattle.attr_glob.specs.BaseNames.{base_name_offset};
ghost use Rattle.attr_glob.specs.Clones.{IsMappingClone, AreMappingClones};
ghost use Rattle.attr_glob.specs.Views.{base_bytes};

use crate::pattern::{Case, base_name_offset, same_text, without_end};
use crate::search;
pub use crate::search::pattern::index::Index;
pub use crate::search::pattern::indexed_line::IndexedLine;
use bstr::BStr;
use std::alloc::{AllocError, Global};

mod index;
mod indexed_line;
pub mod laws;

/// A line of a list: its pattern, and the value that goes with it.
#[derive(PartialEq, Eq, PartialOrd, Ord, Hash, Debug, Drop)]
pub struct Mapping<V> {
    /// The pattern.
    pub pattern: crate::Pattern,
    /// The value that goes with the pattern.
    pub value: V,
    /// The number of its line, from 1.
    pub sequence_number: usize,
}

impl<V: Clone> Mapping<V> {
    /// A copy. The value is copied by its `Clone`.
    ///
    /// # Errors
    ///
    /// If memory runs out.
    pub fn clone(&self, alloc: Global) -> Result<Mapping<V>, AllocError>
        ensures { IfOk result (λ copy. IsMappingClone V.is_clone self.now copy) }
    {
        Ok(Mapping {
            pattern: self.pattern.clone(alloc)?,
            value: self.value.clone()?,
            sequence_number: self.sequence_number,
        })
    }
}

/// The patterns of one source.
#[derive(PartialEq, Eq, PartialOrd, Ord, Hash, Debug, Drop)]
pub struct List<T: search::Pattern> {
    /// The patterns, in the order of their lines.
    pub patterns: Vec<Mapping<T::Value>>,
    /// The source of the patterns: a file, such as `sub/.gitattributes`, or a name for another source.
    pub source: Option<String>,
    /// The directory below which the list applies, with its slash, such as `sub/`. The patterns are matched against what
    /// follows it in a path. Without a base the list applies to all paths.
    pub base: Option<Vec<u8>>,
}

impl<T: search::Pattern + Drop> List<T> {
    /// Reads a buffer as a list, and returns it with what is reported of the dropped lines. `source` is the
    /// path of the file. The list applies below the file's directory (gitattributes page), relative to `root`. Without a
    /// root, or if the directory isn't below it, the list applies to all paths.
    ///
    /// # Errors
    ///
    /// If memory runs out.
    pub fn from_bytes(
        alloc: Global,
        bytes: &[u8],
        source: String,
        root: Option<&str>,
        parse: T,
    ) -> Result<(List<T>, Vec<T::Dropped>), AllocError>
        ensures patterns { IfOk result (λ r.
            T.reads parse bytes.now (string_bytes source) r.0.patterns.items r.1.items) }
        ensures source { IfOk result (λ r. r.0.source ≡ Some source) }
        ensures base { IfOk result (λ r.
            base_bytes r.0.base ≡ base_of (string_bytes source) (option_copied root.entry)) }
    {
        let (patterns, dropped) = parse.bytes_to_patterns(alloc, bytes, source.as_str())?;
        let base = base_of(alloc, source.as_str(), root)?;
        let list = List {
            patterns,
            source: Some(source),
            base,
        };
        Ok((list, dropped))
    }
}

impl<T: search::Pattern> List<T> {
    /// What follows the base in the path, with the offset of its base name. None if the list doesn't apply to the path.
    /// `basename_pos` is the path's [`base_name_offset`](crate::pattern::base_name_offset).
    pub fn strip_base_handle_recompute_basename_pos<'a>(
        &self,
        path: BStr<'a>,
        basename_pos: Option<usize>,
        case: Case,
    ) -> Option<(BStr<'a>, Option<usize>)>
        requires { basename_pos ≡ base_name_offset (bstr_bytes path) }
        ensures rest { option_map (λ r. bstr_bytes r.0) result
            ≡ rest_below (base_bytes self.now.base) case (bstr_bytes path.entry) }
        ensures offset { IfSome result (λ r. r.1 ≡ base_name_offset (bstr_bytes r.0)) }
    {
        let Some(base) = &self.base else {
            return Some((path, basename_pos));
        };
        let rest = rest_below(base, case, path.as_bytes())?;
        Some((BStr::new(rest), offset_after(base.len(), basename_pos)))
    }

    /// A copy. The values are copied by their `Clone`.
    ///
    /// # Errors
    ///
    /// If memory runs out.
    pub fn clone(&self, alloc: Global) -> Result<List<T>, AllocError>
        ensures patterns { IfOk result (λ copy.
            AreMappingClones T.Value.is_clone self.now.patterns.items copy.patterns.items) }
        ensures source { IfOk result (λ copy.
            option_map string_bytes copy.source ≡ option_map string_bytes self.now.source) }
        ensures base { IfOk result (λ copy. base_bytes copy.base ≡ base_bytes self.now.base) }
    {
        Ok(List {
            patterns: copies(alloc, &self.patterns)?,
            source: self.source.clone()?,
            base: self.base.clone()?,
        })
    }
}

fn copies<V: Clone + Drop>(
    alloc: Global,
    mappings: &[Mapping<V>],
) -> Result<Vec<Mapping<V>>, AllocError>
    ensures { IfOk result (λ copies. AreMappingClones V.is_clone mappings.now copies.items) }
{
    let mut copies = Vec::new(alloc);
    for mapping in mappings {
        copies.push(mapping.clone(alloc)?)?;
    }
    Ok(copies)
}

/// The base of a list that is read from this source: the directory of the file as it is seen from the root, with a slash after it
/// (gitattributes page). There is none without a root, in the root itself, and if the directory isn't below the root.
///
/// # Errors
///
/// If memory runs out.
pub fn base_of(
    alloc: Global,
    source: &str,
    root: Option<&str>,
) -> Result<Option<Vec<u8>>, AllocError>
    ensures base { IfOk result (λ base.
        base_bytes base ≡ base_of source.now (option_copied root.entry)) }
{
    let Some(root) = root else {
        return Ok(None);
    };
    match below_root(root.as_bytes(), directory(source.as_bytes())) {
        Some(below) => base_of_directory(alloc, below),
        None => Ok(None),
    }
}

// The bytes before the last slash, and none without one.
#[tactic(auto, using(crate::proofs::BaseNameOffsets::before_name))]
fn directory(source: &[u8]) -> &[u8]
    ensures { result.now ≡ directory source.now }
{
    let name_offset = base_name_offset(source).unwrap_or(0);
    &source[..name_offset.saturating_sub(1)]
}

fn below_root<'a>(root: &[u8], directory: &'a [u8]) -> Option<&'a [u8]>
    ensures { option_copied result ≡ below_root root.now directory.now }
{
    if root.is_empty() {
        return Some(directory);
    }
    let front = without_end(root);
    if !directory.starts_with(front) {
        return None;
    }
    match directory.get(front.len()) {
        Some(b'/') => Some(&directory[front.len() + 1..]),
        _ => None,
    }
}

/// The base of a list that applies below a directory: the directory with a slash after it, and none of the empty one.
///
/// # Errors
///
/// If memory runs out.
pub fn base_of_directory(alloc: Global, directory: &[u8]) -> Result<Option<Vec<u8>>, AllocError>
    ensures { IfOk result (λ base. base_bytes base ≡ with_slash directory.now) }
{
    if directory.is_empty() {
        return Ok(None);
    }
    let mut base = Vec::from_slice(alloc, directory)?;
    base.push(b'/')?;
    Ok(Some(base))
}

// What follows the base in the path, if the path begins with the base.
fn rest_below<'a>(base: &[u8], case: Case, path: &'a [u8]) -> Option<&'a [u8]>
    ensures rest { option_copied result ≡ rest_below (Some base.now) case path.now }
    ensures after { IfSome result (λ rest. rest.now ≡ drop (length base.now) path.now) }
{
    let (front, rest) = path.split_at_checked(base.len())?;
    same_text(case, base, front).then_some(rest)
}

// The offset of a base name, counted from the first byte after `taken` bytes. None if the base name begins there or
// before.
fn offset_after(taken: usize, offset: Option<usize>) -> Option<usize>
    ensures { result ≡ offset_after taken offset }
{
    match offset {
        Some(offset) if offset > taken => Some(offset - taken),
        _ => None,
    }
}
