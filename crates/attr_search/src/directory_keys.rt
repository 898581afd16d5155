//! The keys of directories, by which the lists of a path are found.

ghost use Rattle.std.specs.Prelude.{◌≡◌, ◌≤◌, ℕ, List, [], IfOk, OnOk, length, take};
ghost use Rattle.std.specs.Char.{is_ascii_uppercase};
ghost use Rattle.std.specs.List.{list_any};
ghost use Rattle.attr_wildmatch.specs.declared.case.Case.TheVariants.{Fold};
ghost use Rattle.attr_glob.specs.Folding.{folded};
ghost use Rattle.attr_glob.specs.Views.{base_bytes};
ghost use Rattle.attr_search.specs.inner.DirectoryKeys.{HasKeysBelow, IsDirectoryOf, base_directory, keys_of, short_key, text_key};
ghost use Rattle.attr_search.specs.inner.FrontHashers.{HasFront};

use attr_glob::pattern::Case;
use bstr::ByteSlice;
use std::alloc::{AllocError, Global};
use std::hash::{DefaultHasher, Hasher};

/// The keys of a list's base, by one of which a path finds the list.
#[derive(Clone, Copy)]
pub struct BaseKeys {
    /// That of the base as it is spelled.
    pub spelled: u64,
    /// That of the base in lower case.
    pub folded: u64,
}

impl BaseKeys {
    /// The keys of a base.
    ///
    /// # Errors
    ///
    /// If memory runs out.
    pub fn of(alloc: Global, base: &[u8]) -> Result<BaseKeys, AllocError>
        ensures { IfOk result (λ keys. keys ≡ keys_of base.now) }
    {
        let spelled = text_key(base);
        if !has_capital(base) {
            return Ok(BaseKeys {
                spelled,
                folded: spelled,
            });
        }
        let mut small = Vec::new(alloc);
        fold_into(base, &mut small)?;
        Ok(BaseKeys {
            spelled,
            folded: text_key(&small),
        })
    }
}

/// The directory by which a list with this base is found: the base, if it ends in a slash. Without one, and with any other base, it is
/// empty, and each path finds the list.
pub fn base_directory(base: &Option<Vec<u8>>) -> &[u8]
    ensures { result.now ≡ base_directory (base_bytes base.now) }
{
    match base {
        Some(base) if base.last() == Some(&b'/') => base,
        _ => b"",
    }
}

fn has_capital(text: &[u8]) -> bool
    ensures { result ≡ list_any is_ascii_uppercase text.now }
{
    text.iter().any(|byte| byte.is_ascii_uppercase())
}

/// The key of a text.
pub fn text_key(text: &[u8]) -> u64
    ensures { result ≡ text_key text.now }
{
    FrontHasher::new().key(text, text.len())
}

// Texts of so few bytes have these as their key.
const SHORT: usize = 8;

// A hasher that has the first bytes of a text.
#[derive(Drop)]
struct FrontHasher {
    hasher: DefaultHasher,
    // How many bytes it has.
    read: usize,
}

impl FrontHasher {
    // A hasher that has nothing of any text.
    fn new() -> FrontHasher
        ensures front { (text : List ℕ) → HasFront text result }
        ensures read { result.read ≡ 0 }
    {
        FrontHasher {
            hasher: DefaultHasher::new(),
            read: 0,
        }
    }

    // The key of the text's first bytes, no fewer than the hasher has. It hashes none twice.
    fn key(&mut self, text: &[u8], len: usize) -> u64
        requires front { HasFront text.now self.old }
        requires read { self.old.read ≤ len }
        requires len { len ≤ length text.now }
        ensures key { result ≡ text_key (take len text.now) }
        ensures front { HasFront text.now self.new }
        ensures read { self.new.read ≤ len }
    {
        if len <= SHORT {
            return short_key(&text[..len]);
        }
        self.hasher.write(&text[self.read..len]);
        self.read = len;
        self.hasher.finish()
    }
}

// The bytes of a short text after a one, as a number: no more than two short texts have the same.
fn short_key(text: &[u8]) -> u64
    ensures { result ≡ short_key text.now }
{
    text.iter().fold(1, |number: u64, byte| {
        number.wrapping_mul(256).wrapping_add(u64::from(*byte))
    })
}

// Puts a text in lower case in place of what the buffer had.
fn fold_into(text: &[u8], small: &mut Vec<u8>) -> Result<(), AllocError>
    ensures { OnOk result (small.new.items ≡ folded Fold text.now) }
{
    small.clear();
    small.extend_from_slice(text)?;
    small.make_ascii_lowercase();
    Ok(())
}

/// The keys of the directories in front of a path. They are kept, since the next path is often in the same directory, and no
/// change of lists changes them.
#[derive(Drop)]
pub struct PathKeys {
    /// The keys, without that of the empty directory.
    pub keys: Vec<u64>,
    // The last of these directories with its front, in lower case if case doesn't matter.
    directory: Vec<u8>,
    // A path in lower case.
    small: Vec<u8>,
    ghost known: { HasKeysBelow directory.items (length directory.items) keys.items },
}

impl PathKeys {
    /// The keys of a path without directories. It takes no memory.
    pub fn new(alloc: Global) -> PathKeys
        ensures { result.keys.items ≡ [] }
    {
        PathKeys {
            keys: Vec::new(alloc),
            directory: Vec::new(alloc),
            small: Vec::new(alloc),
        }
    }

    /// Takes the keys of another path, in a case.
    ///
    /// # Errors
    ///
    /// If memory runs out.
    pub fn read(&mut self, path: &[u8], case: Case) -> Result<(), AllocError>
        ensures { OnOk result (let read = folded case path.now in
            HasKeysBelow read (length read) self.new.keys.items) }
    {
        match case {
            Case::Sensitive => keep_keys(path, &mut self.directory, &mut self.keys),
            Case::Fold => {
                fold_into(path, &mut self.small)?;
                keep_keys(&self.small, &mut self.directory, &mut self.keys)
            }
        }
    }
}

// Keeps the directory of a text, and the keys of the directories in front of the text, unless that directory is kept.
fn keep_keys(text: &[u8], directory: &mut Vec<u8>, keys: &mut Vec<u64>) -> Result<(), AllocError>
    requires known { HasKeysBelow directory.old.items (length directory.old.items) keys.old.items }
    ensures known { HasKeysBelow directory.new.items (length directory.new.items) keys.new.items }
    ensures read { OnOk result (HasKeysBelow text.now (length text.now) keys.new.items) }
{
    let next = directory_of(text);
    if directory.as_slice() == next {
        return Ok(());
    }
    directory.clear();
    keys.clear();
    append_keys(next, keys)?;
    directory.extend_from_slice(next)
}

// A text up to its last slash.
fn directory_of(text: &[u8]) -> &[u8]
    ensures { IsDirectoryOf text.now result.now }
{
    match text.rfind_byte(b'/') {
        Some(slash) => &text[..slash + 1],
        None => &[],
    }
}

// Appends the keys of the directories in front of a text.
fn append_keys(text: &[u8], keys: &mut Vec<u64>) -> Result<(), AllocError>
    ensures { OnOk result (HasKeysBelow text.now (length text.now) keys.new.items) }
{
    let mut front = FrontHasher::new();
    for offset in 0..text.len() {
        if text[offset] == b'/' {
            keys.push(front.key(text, offset + 1))?;
        }
    }
    Ok(())
}
