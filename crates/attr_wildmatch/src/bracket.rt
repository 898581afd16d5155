//! What is between the brackets of a pattern: single bytes, ranges and classes (gitignore page: the range notation).

ghost use Rattle.std.specs.Prelude.{◌≡◌, ℕ, ◌||◌, ◌+◌, ◌≤◌, ◌<◌, IfSome, IfOk, ◌==◌, ◌&&◌, not, length, option_map, position, true, false, None, Some};
ghost use Rattle.attr_wildmatch.specs.Bytes.{close_bracket, colon};
ghost use Rattle.attr_wildmatch.specs.inner.Closing.{from_close};
ghost use Rattle.attr_wildmatch.specs.inner.ByteSets.{has};
ghost use Rattle.attr_wildmatch.specs.Brackets.{class_named, class_holds, member_holds, members_hold, set_holds, begins, name_in, from_single, from_class, member_at, members as members_at};

use crate::case::Case;
use std::alloc::{AllocError, Global};
use std::marker::Model;

/// A class of ASCII bytes, such as `[:digit:]`. The classes are those of the POSIX locale.
#[derive(Clone, Copy, PartialEq, Eq, PartialOrd, Ord, Hash, Debug)]
pub(crate) enum Class {
    Alnum,
    Alpha,
    Blank,
    Cntrl,
    Digit,
    Graph,
    Lower,
    Print,
    Punct,
    Space,
    Upper,
    Xdigit,
}

impl Class {
    /// The class of this name, without its colons.
    fn named(name: &[u8]) -> Option<Class>
        ensures { result ≡ class_named name.now }
    {
        match name {
            b"alnum" => Some(Class::Alnum),
            b"alpha" => Some(Class::Alpha),
            b"blank" => Some(Class::Blank),
            b"cntrl" => Some(Class::Cntrl),
            b"digit" => Some(Class::Digit),
            b"graph" => Some(Class::Graph),
            b"lower" => Some(Class::Lower),
            b"print" => Some(Class::Print),
            b"punct" => Some(Class::Punct),
            b"space" => Some(Class::Space),
            b"upper" => Some(Class::Upper),
            b"xdigit" => Some(Class::Xdigit),
            _ => None,
        }
    }

    /// Whether the class has the byte.
    pub(crate) fn contains(self, byte: u8) -> bool
        ensures { result ≡ class_holds self byte }
    {
        match self {
            Class::Alnum => byte.is_ascii_alphanumeric(),
            Class::Alpha => byte.is_ascii_alphabetic(),
            Class::Blank => byte == b'\t' || byte == b' ',
            Class::Cntrl => byte.is_ascii_control(),
            Class::Digit => byte.is_ascii_digit(),
            Class::Graph => byte.is_ascii_graphic(),
            Class::Lower => byte.is_ascii_lowercase(),
            Class::Print => byte == b' ' || byte.is_ascii_graphic(),
            Class::Punct => byte.is_ascii_punctuation(),
            Class::Space => matches!(byte, 0x09..=0x0d | b' '),
            Class::Upper => byte.is_ascii_uppercase(),
            Class::Xdigit => byte.is_ascii_hexdigit(),
        }
    }
}

/// A member of a bracket.
#[derive(Clone, Copy, PartialEq, Eq, PartialOrd, Ord, Hash, Debug)]
pub(crate) enum Member {
    /// One byte.
    Single(u8),
    /// The bytes from the first to the second, none if the second is below the first.
    Span(u8, u8),
    /// The bytes of a class.
    Named(Class),
}

impl Member {
    /// Whether the member has the byte.
    pub(crate) fn contains(self, byte: u8) -> bool
        ensures { result ≡ member_holds self byte }
    {
        match self {
            Member::Single(single) => byte == single,
            Member::Span(low, high) => low <= byte && byte <= high,
            Member::Named(class) => class.contains(byte),
        }
    }
}

// A set of bytes, as a bit for each.
#[derive(Clone, Copy, Debug)]
struct ByteSet {
    words: [u64; 4],
}

impl ByteSet {
    // The set without a byte.
    fn new() -> ByteSet
        ensures { (b : ℕ) → has result b ≡ false }
    {
        ByteSet { words: [0; 4] }
    }

    // Puts the byte in.
    #[tactic(auto, using(crate::proofs::ByteSetLemmas::marked, crate::proofs::ByteSetLemmas::with_word))]
    fn insert(&mut self, byte: u8)
        ensures { (b : ℕ) → has self.new b ≡ (has self.old b || b == byte) }
    {
        self.words[usize::from(byte / 64)] |= 1 << (byte % 64);
    }

    // Whether the byte is in the set.
    fn contains(&self, byte: u8) -> bool
        ensures { result ≡ has self.now byte }
    {
        (self.words[usize::from(byte / 64)] >> (byte % 64)) & 1 == 1
    }
}

// The least and the greatest byte that the member may have.
fn bounds(member: Member) -> (u8, u8)
    ensures { (b : ℕ) → member_holds member b ≡ true → (result.0 ≤ b) × (b ≤ result.1) }
{
    match member {
        Member::Single(byte) => (byte, byte),
        Member::Span(low, high) => (low, high),
        Member::Named(_) => (0, 0x7f),
    }
}

// Adds the bytes of the member to the set.
fn insert_member(set: &mut ByteSet, member: Member)
    ensures { (b : ℕ) → has set.new b ≡ (has set.old b || member_holds member b) }
{
    let (low, high) = bounds(member);
    for byte in low..=high {
        insert_held(set, member, byte);
    }
}

// Adds the byte to the set if the member holds it.
#[tactic(auto, using(crate::proofs::ByteSetLemmas::one_held))]
fn insert_held(set: &mut ByteSet, member: Member, byte: u8)
    ensures { (b : ℕ) → has set.new b ≡ (has set.old b || (member_holds member b && b == byte)) }
{
    if member.contains(byte) {
        set.insert(byte);
    }
}

// The bytes of the members.
fn held_bytes(members: &[Member]) -> ByteSet
    ensures { (b : ℕ) → has result b ≡ members_hold members.now b }
{
    let mut set = ByteSet::new();
    for member in members {
        insert_member(&mut set, *member);
    }
    set
}

/// The members of a bracket, with the set of their bytes.
#[derive(Debug, Drop)]
pub(crate) struct MemberSet {
    list: Vec<Member>,
    bytes: ByteSet,
}

impl Model for MemberSet {
    ghost use Rattle.std.specs.Prelude.{◌≡◌, ℕ, List};
    ghost use Rattle.attr_wildmatch.specs.declared.bracket.Member.{Member};
    ghost use Rattle.attr_wildmatch.specs.Brackets.{members_hold};
    ghost use Rattle.attr_wildmatch.specs.inner.ByteSets.{has};

    ghost Value = { List Member };

    ghost view = { λ m. m.list.items };

    ghost invariant = { λ m. (b : ℕ) → has m.bytes b ≡ members_hold m.list.items b };
}

impl MemberSet {
    fn of(list: Vec<Member>) -> MemberSet
        ensures { result ≡ list.items }
    {
        let bytes = held_bytes(&list);
        MemberSet { list, bytes }
    }

    /// Whether a bracket with these members has the byte, its negation aside.
    pub(crate) fn contains(&self, byte: u8, case: Case) -> bool
        ensures { result ≡ set_holds case self.now byte }
    {
        match case {
            Case::Sensitive => self.bytes.contains(byte),
            Case::Fold => {
                self.bytes.contains(byte.to_ascii_lowercase())
                    || self.bytes.contains(byte.to_ascii_uppercase())
            }
        }
    }
}

// The offset of the first `]`.
fn first_close(bytes: &[u8]) -> Option<usize>
    ensures { result ≡ position (λ b. b == close_bracket) bytes.now }
{
    bytes.iter().position(|byte| *byte == b']')
}

// How many bytes there are from the first `]` on, 0 without one.
#[tactic(auto, using(crate::proofs::ClosingLemmas::position_none, crate::proofs::ClosingLemmas::position_some))]
fn bytes_from_close(bytes: &[u8]) -> usize
    ensures { result ≡ from_close bytes.now }
{
    match first_close(bytes) {
        Some(offset) => bytes.len() - offset,
        None => 0,
    }
}

// How many bytes there are from the first `]` of `rest` on. `close` is how many there were from the first `]` of longer
// bytes on. They are looked at again only after that `]`, so that reading a bracket looks at each byte once.
fn next_close(rest: &[u8], close: usize) -> usize
    requires { close ≤ length rest.now → close ≡ from_close rest.now }
    ensures { result ≡ from_close rest.now }
{
    if close <= rest.len() {
        close
    } else {
        bytes_from_close(rest)
    }
}

// The name between `[:` and `:]`, given the bytes after `[:`, if their first `]` directly follows a `:`. `close` is how many
// bytes there are from that `]` on.
fn class_name(bytes: &[u8], close: usize) -> Option<&[u8]>
    requires { close ≡ from_close bytes.now }
    ensures name { option_map (λ name. name.now) result ≡ name_in bytes.now }
    ensures inside { IfSome result (λ name. length name.now + 2 ≤ length bytes.now) }
{
    if close == 0 {
        return None;
    }
    let (last, name) = bytes[..bytes.len() - close].split_last()?;
    if *last == b':' {
        return Some(name);
    }
    None
}

// The single byte, or the range that it begins, given the bytes after it, and what follows.
fn single_or_range(byte: u8, bytes: &[u8]) -> (Member, &[u8])
    ensures { (result.0, result.1.now) ≡ from_single byte bytes.now }
{
    match bytes {
        [b'-', b'\\', end, rest @ ..] => (Member::Span(byte, *end), rest),
        [b'-', b']' | b'\\', ..] => (Member::Single(byte), bytes),
        [b'-', end, rest @ ..] => (Member::Span(byte, *end), rest),
        _ => (Member::Single(byte), bytes),
    }
}

// The member that `[:` begins, given the bytes after the `[`, and what follows the member. None for an unknown class.
// `close` is how many bytes there are from the first `]` on.
fn class_or_single(bytes: &[u8], close: usize) -> Option<(Member, &[u8])>
    requires colon { begins colon bytes.now ≡ true }
    requires close { close ≡ from_close bytes.now }
    ensures { option_map (λ r. (r.0, r.1.now)) result ≡ from_class bytes.now }
{
    match class_name(&bytes[1..], close) {
        None => Some(single_or_range(b'[', bytes)),
        Some(name) => {
            let class = Class::named(name)?;
            Some((Member::Named(class), &bytes[name.len() + 3..]))
        }
    }
}

// The member that begins with the byte, given the bytes after it, and what follows the member. `close` is how many bytes
// there are from the first `]` on.
fn read_member(byte: u8, bytes: &[u8], close: usize) -> Option<(Member, &[u8])>
    requires { close ≡ from_close bytes.now }
    ensures { option_map (λ r. (r.0, r.1.now)) result ≡ member_at byte bytes.now }
{
    if byte == b'\\' {
        let (escaped, rest) = bytes.split_first()?;
        return Some(single_or_range(*escaped, rest));
    }
    if byte == b'[' && bytes.first() == Some(&b':') {
        return class_or_single(bytes, close);
    }
    Some(single_or_range(byte, bytes))
}

// Whether the byte closes the bracket. A `]` that comes first is a member.
fn closes(byte: u8, first: bool) -> bool
    ensures { result ≡ (byte == close_bracket && not first) }
{
    byte == b']' && !first
}

// The members up to the closing `]`, given the bytes after the bracket's `[` and its negation, and what
// follows the bracket. None if the bracket isn't closed or names an unknown class.
pub(crate) fn members(alloc: Global, bytes: &[u8]) -> Result<Option<(MemberSet, &[u8])>, AllocError>
    ensures members { IfOk result (λ found. option_map (λ r. (r.0, r.1.now)) found
        ≡ members_at (length bytes.now) true bytes.now) }
    ensures shorter { IfOk result (λ o. IfSome o (λ r. length r.1.now < length bytes.now)) }
{
    let mut list = Vec::new(alloc);
    let mut first = true;
    let mut rest = bytes;
    let mut close = bytes_from_close(bytes);
    while let Some((byte, tail)) = rest.split_first() {
        if closes(*byte, first) {
            return Ok(Some((MemberSet::of(list), tail)));
        }
        close = next_close(tail, close);
        let Some((member, tail)) = read_member(*byte, tail, close) else {
            return Ok(None);
        };
        list.push(member)?;
        first = false;
        rest = tail;
    }
    Ok(None)
}
