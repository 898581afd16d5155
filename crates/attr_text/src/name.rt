//! Names of attributes.
ghost use Rattle.std.specs.Prelude.{codes, ◌≡◌, ℕ, List, Some, nat_eq, refl, IsTrue, IfOk, MatchResult, false};
ghost use Rattle.std.specs.List.{list_all};
ghost use Rattle.std.specs.Ordering.{nat_cmp};
ghost use Rattle.std.specs.Hash as fed;
ghost use Rattle.std.specs.Cmp.Lexicographic.{pointwise, slice_cmp, nat_list_eq_equiv, nat_list_cmp_total, texts_ties, texts_po};
ghost use Rattle.std.specs.Cmp.{partial_equiv_from_equiv};
ghost use Rattle.std.specs.Cmp.Rules.{hashing};
ghost use Rattle.std.specs.Rc.{rc_str_bytes};
ghost use Rattle.std.proofs.Common.{rules};
ghost use Rattle.bstr.specs.BStr.{bstr_bytes};
ghost use Rattle.attr_text.specs.Names.{is_name_byte, is_valid_name};

use bstr::{BStr, ByteSlice};
use std::alloc::{AllocError, Global};
use std::cmp::Ordering;
use std::default::MadeWith;
use std::fmt;
use std::hash::{Hash, Hasher};
use std::marker::Model;
use std::rc::RcStr;

/// Why bytes are not the name of an attribute.
#[derive(Debug, Drop, thiserror::Error)]
pub enum Error<'a> {
    /// The bytes, which are empty, begin with `-`, or have a byte other than an ASCII letter, a digit, `-`, `.` and `_`
    /// (gitattributes).
    #[error("Attribute has non-ascii characters or starts with '-'")]
    InvalidName(BStr<'a>),
}

/// A reference to a valid name of an attribute. It compares and hashes as its text.
#[derive(Clone, Copy, PartialEq, Eq, PartialOrd, Ord, Hash)]
pub struct NameRef<'a> {
    text: &'a str,
    pub ghost valid: { IsTrue (is_valid_name text.now) },
}

/// A valid name of an attribute. It compares and hashes as its text.
#[derive(Drop)]
pub struct Name {
    text: Text,
}

// The text of a name. A short list of assignments has blank names in its unused elements: they take no memory.
#[derive(Drop)]
enum Text {
    Shared(RcStr),
    Blank,
}

impl Model for Name {
    ghost use Rattle.std.specs.Prelude.{ℕ, List, IsTrue};
    ghost use Rattle.attr_text.specs.Names.{is_valid_name};
    ghost use Rattle.attr_text.specs.NameText.{text_bytes};

    ghost Value = { List ℕ };

    ghost view = { λ n. text_bytes n.text };

    ghost invariant = { λ n. IsTrue (is_valid_name (text_bytes n.text)) };
}

// Whether a name may have the byte.
fn is_name_byte(b: u8) -> bool
    ensures { result ≡ is_name_byte b }
{
    b.is_ascii_lowercase() || b.is_ascii_alphanumeric() || b == b'-' || b == b'.' || b == b'_'
}

fn is_all_name_bytes(bytes: &[u8]) -> bool
    ensures { result ≡ list_all is_name_byte bytes.now }
{
    bytes.iter().all(|b| is_name_byte(*b))
}

fn is_valid(bytes: &[u8]) -> bool
    ensures { result ≡ is_valid_name bytes.now }
{
    if bytes.is_empty() {
        return false;
    }
    if bytes[0] == b'-' {
        return false;
    }
    is_all_name_bytes(bytes)
}

impl<'a> NameRef<'a> {
    ghost use Rattle.attr_text.specs.TextViews.{name_text};

    /// A reference to the name that is this text.
    pub fn of(text: &'a str) -> NameRef<'a>
        requires { IsTrue (is_valid_name text.now) }
        ensures { name_text result ≡ text.now }
    {
        NameRef { text }
    }

    /// The name's text.
    pub fn as_str(&self) -> &'a str
        ensures { result.now ≡ name_text self.now }
    {
        self.text
    }

    /// The name with a text of its own.
    ///
    /// # Errors
    ///
    /// If memory runs out.
    pub fn to_owned(self, alloc: Global) -> Result<Name, AllocError>
        ensures { IfOk result (λ name. name ≡ name_text self.entry) }
    {
        Ok(Name::of(RcStr::from_str(alloc, self.text)?))
    }
}

impl<'a> TryFrom<BStr<'a>> for NameRef<'a> {
    ghost use Rattle.attr_text.specs.TextViews.{name_text};
    ghost use Rattle.attr_text.specs.declared.name.Error.TheVariants.{InvalidName};

    type Error = Error<'a>;

    ghost try_from_gives = { λ s r. MatchResult r
        (λ name. IsTrue (is_valid_name (bstr_bytes s)) × (name_text name ≡ bstr_bytes s))
        (λ e. (is_valid_name (bstr_bytes s) ≡ false) × (e ≡ InvalidName s)) };

    fn try_from(attr: BStr<'a>) -> Result<NameRef<'a>, Error<'a>> {
        let bytes = attr.as_bytes();
        if !is_valid(bytes) {
            return Err(Error::InvalidName(attr));
        }
        // The bytes of a name are ASCII, so no second pass has to tell that they are text.
        let text = unsafe { str::from_utf8_unchecked(bytes) };
        Ok(NameRef { text })
    }
}

impl<'a> fmt::Debug for NameRef<'a> {
    fn fmt<W: fmt::Write>(&self, f: &mut fmt::Formatter<W>) -> fmt::Result {
        f.debug_tuple("NameRef").field(&self.as_str()).finish()
    }
}

impl Name {
    ghost use Rattle.attr_text.specs.TextViews.{name_text};

    /// The name that is this text, of which no copy is made.
    pub fn of(text: RcStr) -> Name
        requires { IsTrue (is_valid_name (rc_str_bytes text)) }
        ensures { result ≡ rc_str_bytes text }
    {
        Name {
            text: Text::Shared(text),
        }
    }

    /// A reference to the name.
    pub fn as_ref(&self) -> NameRef<'_>
        ensures { name_text result ≡ self.now }
    {
        NameRef::of(self.as_str())
    }

    /// The name's text.
    pub fn as_str(&self) -> &str
        ensures text { result.now ≡ self.now }
        ensures valid { IsTrue (is_valid_name self.now) }
    {
        match &self.text {
            Text::Shared(text) => text.as_str(),
            Text::Blank => "_",
        }
    }

    /// A copy that shares the text.
    ///
    /// # Errors
    ///
    /// If there are `usize::MAX` copies already.
    pub fn clone(&self, _alloc: Global) -> Result<Name, AllocError>
        ensures { IfOk result (λ copy. copy ≡ self.now) }
    {
        Clone::clone(self)
    }
}

impl MadeWith<Global> for Name {
    ghost is_made_with = { λ name. name ≡ codes "_" };

    fn made_with(_alloc: Global) -> Name {
        Name { text: Text::Blank }
    }
}

impl Clone for Name {
    ghost is_clone = { λ s copy. copy ≡ s };

    fn clone(&self) -> Result<Name, AllocError> {
        match &self.text {
            Text::Shared(text) => Ok(Name {
                text: Text::Shared(text.clone()?),
            }),
            Text::Blank => Ok(Name { text: Text::Blank }),
        }
    }
}

impl PartialEq for Name {
    ghost eq = { λ x y. pointwise nat_eq x y };

    ghost laws = { partial_equiv_from_equiv nat_list_eq_equiv };

    fn eq(&self, other: &Name) -> bool {
        self.as_str() == other.as_str()
    }
}

impl Eq for Name {
    ghost laws = { nat_list_eq_equiv };
}

impl PartialOrd for Name {
    ghost partial_cmp = { λ x y. Some (slice_cmp nat_cmp x y) };

    ghost laws = { texts_po };

    fn partial_cmp(&self, other: &Name) -> Option<Ordering> {
        Some(self.cmp(other))
    }
}

impl Ord for Name {
    ghost cmp = { λ x y. slice_cmp nat_cmp x y };

    ghost total = { nat_list_cmp_total };

    ghost matches_partial_cmp = { λ x y. refl };

    ghost matches_eq = { λ x y. texts_ties x y };

    fn cmp(&self, other: &Name) -> Ordering {
        self.as_str().cmp(other.as_str())
    }
}

impl Hash for Name {
    ghost hash_input = { λ s. fed.str s };

    ghost respects_eq = { Prim.search (hashing, rules) };

    fn hash<H: Hasher>(&self, state: &mut H) {
        self.as_str().hash(state);
    }
}

impl fmt::Debug for Name {
    fn fmt<W: fmt::Write>(&self, f: &mut fmt::Formatter<W>) -> fmt::Result {
        f.debug_tuple("Name").field(&self.as_str()).finish()
    }
}
