//! Matching of tokens against a value: a row of indexes moves forward over the bytes of the value.
//!
//! A row has the index k if the first k tokens match the bytes so far, or if token k is a directory star (`**/`) and the
//! first k tokens match some first part of these bytes. So no pair of an index among the tokens and an offset in the
//! value is visited twice.

ghost use Rattle.std.specs.Prelude.{◌≡◌, ◌+◌, ◌*◌, ◌≤◌, ◌<◌, ◌^◌, ◌↔◌, ℕ, Bool, List, All, IfOk, IsOk, IsSome, OnOk, IsTrue, option_map, IsFalse, true, false, length, slice_get, vec_capacity};
ghost use Rattle.attr_wildmatch.specs.Tokens.{Token as Meaning};
ghost use Rattle.attr_wildmatch.specs.TokenList.{token_of, tokens_of};
ghost use Rattle.attr_wildmatch.specs.Spelling.{AreTokens};
ghost use Rattle.attr_wildmatch.specs.Matching.{Match, ReachedAtMost, TextMatches};
ghost use Rattle.attr_wildmatch.specs.Deciding.{matches, text_matches};
ghost use Rattle.attr_wildmatch.specs.inner.Left.{AreTakenOff};
ghost use Rattle.attr_wildmatch.specs.inner.Stretches.{front_left};
ghost use Rattle.attr_wildmatch.specs.inner.RowIndexes.{may_skip, is_dirs_at, stays_on, advances_on, token_before, indexes_below, IsGrowing, IsStep, IsRow, IsUnderway, NoneAlive, HasStayed, HasRoom, IsExtended, MayInsert, IsInserted};
ghost use Rattle.attr_wildmatch.specs.inner.Decided.{IsReady};

use crate::case::Case;
use crate::token::{Token, Tokens};
use std::alloc::{AllocError, Global};
use std::marker::Model;
use std::mem;

// The token of an index.
fn token_at(tokens: &[Token], index: usize) -> Option<&Token>
    ensures token { option_map (λ t. token_of t.now) result
        ≡ slice_get (tokens_of tokens.now) index }
    ensures inside { IsSome result → index < length tokens.now }
{
    tokens.get(index)
}

// Whether the token of the index may take nothing.
fn may_skip(tokens: &[Token], index: usize) -> bool
    ensures skips { result ≡ may_skip (slice_get (tokens_of tokens.now) index) }
    ensures inside { IsTrue result → index < length tokens.now }
{
    token_at(tokens, index).is_some_and(|token| token.may_be_empty())
}

// Adds a fresh index to the row, and those after it up to which the tokens may take nothing, unless the row has it. An
// index is fresh if the tokens before it match exactly the bytes so far. `free` is one more than the row's last index,
// before and after.
fn insert(tokens: &[Token], row: &mut Vec<usize>, free: usize, index: usize) -> usize
    requires { MayInsert (length tokens.now) index row.old free }
    ensures inserted { IsInserted (length tokens.now) index row.old row.new free result }
    ensures row { (fresh alive : ℕ → Bool) → IsGrowing (tokens_of tokens.now) fresh alive →
        IsRow (tokens_of tokens.now) fresh alive row.old.items free → fresh index ≡ true →
        NoneAlive alive free index → IsRow (tokens_of tokens.now) fresh alive row.new.items result }
{
    if index < free {
        return free;
    }
    let mut last = index;
    row.push_reserved(last);
    while may_skip(tokens, last) {
        last += 1;
        row.push_reserved(last);
    }
    last + 1
}

// Adds the index of a directory star to the row, unless the row has it. It stays in the row, and need not be fresh.
fn insert_directory(tokens: &[Token], row: &mut Vec<usize>, free: usize, index: usize) -> usize
    requires { MayInsert (length tokens.now) index row.old free }
    ensures inserted { IsInserted (length tokens.now) index row.old row.new free result }
    ensures row { (fresh alive : ℕ → Bool) →
        IsRow (tokens_of tokens.now) fresh alive row.old.items free →
        alive index ≡ true → (free ≤ index → fresh index ≡ false) →
        NoneAlive alive free index → IsRow (tokens_of tokens.now) fresh alive row.new.items result }
{
    if free > index {
        return free;
    }
    row.push_reserved(index);
    index + 1
}

// One step of a row: the byte that it is moved over, and the tokens.
#[derive(Clone, Copy)]
struct Step<'t> {
    tokens: &'t [Token],
    byte: u8,
    case: Case,
}

impl Step<'_> {
    // Whether the token before the index goes on to take the byte, so that the index stays.
    fn stays(&self, index: usize) -> bool
        ensures stays { let ts = tokens_of self.now.tokens.now in
            result ≡ stays_on (token_before ts index) self.now.byte }
        ensures inside { IsTrue result → index ≤ length self.now.tokens.now }
    {
        if index == 0 {
            return false;
        }
        match token_at(self.tokens, index - 1) {
            None => false,
            Some(token) => token.continues(self.byte),
        }
    }

    // Whether the token of the index is a directory star, whose index stays for good.
    fn is_directory_star(&self, index: usize) -> bool
        ensures directory { result ≡ is_dirs_at (slice_get (tokens_of self.now.tokens.now) index) }
        ensures inside { IsTrue result → index < length self.now.tokens.now }
    {
        matches!(token_at(self.tokens, index), Some(Token::Dirs))
    }

    // Whether the token of the index ends with the byte, so that the next index is reached.
    fn advances(&self, index: usize) -> bool
        ensures advances { let ts = tokens_of self.now.tokens.now in
            result ≡ advances_on self.now.case (slice_get ts index) self.now.byte }
        ensures inside { IsTrue result → index < length self.now.tokens.now }
    {
        match token_at(self.tokens, index) {
            None => false,
            Some(token) => token.ends(self.byte, self.case),
        }
    }

    // Adds an index of the row before to the next row, if the byte leaves it there.
    fn stay(&self, row: &mut Vec<usize>, free: usize, index: usize) -> usize
        requires room { HasRoom (length self.now.tokens.now) row.old free }
        ensures extended { let n = length self.now.tokens.now in
            IsExtended n index row.old row.new free result }
        ensures row { let ts = tokens_of self.now.tokens.now in (fresh alive before : ℕ → Bool) →
            IsUnderway self.now.case ts self.now.byte fresh alive before row.old.items index free →
            before index ≡ true → index ≤ length self.now.tokens.now →
            IsRow ts fresh alive row.new.items result }
        ensures stayed { HasStayed (tokens_of self.now.tokens.now) self.now.byte index result }
    {
        if self.stays(index) {
            return insert(self.tokens, row, free, index);
        }
        if self.is_directory_star(index) {
            return insert_directory(self.tokens, row, free, index);
        }
        free
    }

    // Adds the index after one of the row before to the next row, if the byte leads to it.
    fn advance(&self, row: &mut Vec<usize>, free: usize, index: usize) -> usize
        requires room { HasRoom (length self.now.tokens.now) row.old free }
        ensures extended { let n = length self.now.tokens.now in
            IsExtended n (index + 1) row.old row.new free result }
        ensures row { let ts = tokens_of self.now.tokens.now in (fresh alive before : ℕ → Bool) →
            IsUnderway self.now.case ts self.now.byte fresh alive before row.old.items index free →
            before index ≡ true → HasStayed ts self.now.byte index free →
            IsRow ts fresh alive row.new.items result }
        ensures advanced { let ts = tokens_of self.now.tokens.now in
            advances_on self.now.case (slice_get ts index) self.now.byte ≡ true →
            index + 1 < result }
    {
        if self.advances(index) {
            return insert(self.tokens, row, free, index + 1);
        }
        free
    }

    // Makes the next row of a row. Returns one more than its last index.
    fn next_row(&self, row: &[usize], next: &mut Vec<usize>) -> usize
        requires capacity { length self.now.tokens.now < vec_capacity next.old }
        requires few { length self.now.tokens.now < 2 ^ 63 }
        ensures bound { result ≤ length self.now.tokens.now + 1 }
        ensures capacity { vec_capacity next.old ≤ vec_capacity next.new }
        ensures reached { (most : ℕ) → All (λ k. k < most) row.now →
            result ≤ most + length next.new.items }
        ensures row { let ts = tokens_of self.now.tokens.now in (fresh alive before : ℕ → Bool) →
            IsStep self.now.case ts self.now.byte fresh alive before → fresh 0 ≡ false →
            row.now ≡ indexes_below before (length self.now.tokens.now + 1) →
            IsRow ts fresh alive next.new.items result ×
            NoneAlive alive result (length self.now.tokens.now + 1) }
    {
        next.clear();
        let mut free = 0;
        for reached in row {
            let kept = self.stay(next, free, *reached);
            free = self.advance(next, kept, *reached);
        }
        free
    }
}

// Takes tokens of one byte each off the front, with the bytes that they take. None if one takes no byte.
fn skip_front<'t, 'v>(
    tokens: &'t [Token],
    value: &'v [u8],
    case: Case,
) -> Option<(&'t [Token], &'v [u8])>
    ensures { option_map (λ r. (tokens_of r.0.now, r.1.now)) result
        ≡ front_left case (tokens_of tokens.now) value.now }
{
    let mut left = tokens;
    let mut rest = value;
    while let Some((token, tail)) = left.split_first() {
        if token.may_be_empty() {
            break;
        }
        let (byte, others) = rest.split_first()?;
        if !token.takes(*byte, case) {
            return None;
        }
        left = tail;
        rest = others;
    }
    Some((left, rest))
}

// Takes tokens of one byte each off the end, with the bytes that they take. None if one takes no byte.
fn skip_end<'t, 'v>(
    tokens: &'t [Token],
    value: &'v [u8],
    case: Case,
) -> Option<(&'t [Token], &'v [u8])>
    ensures { AreTakenOff case (tokens_of tokens.now) value.now
        (option_map (λ r. (tokens_of r.0.now, r.1.now)) result) }
{
    let mut left = tokens;
    let mut rest = value;
    while let Some((token, before)) = left.split_last() {
        if token.may_be_empty() {
            break;
        }
        let (byte, others) = rest.split_last()?;
        if !token.takes(*byte, case) {
            return None;
        }
        left = before;
        rest = others;
    }
    Some((left, rest))
}

// Whether tokens that may take nothing stand at both ends, so that neither end has anything to take off.
fn is_open(tokens: &[Token]) -> bool {
    match tokens {
        [first, .., last] => first.may_be_empty() && last.may_be_empty(),
        _ => false,
    }
}

// Takes tokens of one byte each off both ends, with the bytes that they take. None if one takes no byte. The end is
// compared first: a literal front of a text was compared before its tokens.
fn skip_ends<'t, 'v>(
    tokens: &'t [Token],
    value: &'v [u8],
    case: Case,
) -> Option<(&'t [Token], &'v [u8])>
    ensures { AreTakenOff case (tokens_of tokens.now) value.now
        (option_map (λ r. (tokens_of r.0.now, r.1.now)) result) }
{
    if is_open(tokens) {
        return Some((tokens, value));
    }
    let (left, rest) = skip_end(tokens, value, case)?;
    skip_front(left, rest, case)
}

/// The two row buffers of a match, which any number of matches can share. They grow only by `reserve`.
#[derive(Debug, Drop)]
pub struct MatchBuffers {
    row: Vec<usize>,
    next: Vec<usize>,
}

impl Model for MatchBuffers {
    ghost use Rattle.std.specs.Prelude.{ℕ, min, vec_capacity};

    ghost Value = { ℕ };

    ghost view = { λ r. min (vec_capacity r.row) (vec_capacity r.next) };
}

impl MatchBuffers {
    /// Buffers without room; takes no memory.
    pub fn new(alloc: Global) -> MatchBuffers
        ensures { result ≡ 0 }
    {
        MatchBuffers {
            row: Vec::new(alloc),
            next: Vec::new(alloc),
        }
    }

    /// Makes room for rows of this length. Tokens need [`Tokens::row_len`].
    ///
    /// # Errors
    ///
    /// If memory runs out. The room that there was stays.
    pub fn reserve(&mut self, row_len: usize) -> Result<(), AllocError>
        ensures room { OnOk result (row_len ≤ self.new) }
        ensures kept { self.old ≤ self.new }

        // Takes no memory if there is room already.
        ensures succeeds { row_len ≤ self.old → IsOk result }
    {
        if row_len <= self.row.capacity() && row_len <= self.next.capacity() {
            return Ok(());
        }
        self.row.clear();
        self.next.clear();
        self.row.reserve(row_len)?;
        self.next.reserve(row_len)?;
        Ok(())
    }

    // Moves the row over the value: whether the tokens match it, and how many pairs were visited. The count fits: it is at most
    // (n + 1)(t + 1) for n tokens, fewer than 2^63, and t bytes.
    fn run(&mut self, tokens: &[Token], value: &[u8], case: Case) -> (bool, u128)
        requires { IsReady tokens.now self.old }
        ensures matched { IsTrue result.0 ↔ Match case (tokens_of tokens.now) value.now }
        ensures at_most { result.1 ≤ (length tokens.now + 1) * (length value.now + 1) }
        ensures found { IsTrue result.0 → length tokens.now < result.1 }
        ensures missed { ReachedAtMost case (tokens_of tokens.now) value.now result.1 }
        ensures room { self.old ≤ self.new }
    {
        self.row.clear();
        let mut free = insert(tokens, &mut self.row, 0, 0);
        let mut visits = self.row.len() as u128;
        for byte in value {
            if free == 0 {
                return (false, visits);
            }
            let step = Step {
                tokens,
                byte: *byte,
                case,
            };
            free = step.next_row(&self.row, &mut self.next);
            mem::swap(&mut self.row, &mut self.next);
            visits += self.row.len() as u128;
        }
        (free == tokens.len() + 1, visits)
    }
}

impl Tokens {
    /// Whether the tokens match the whole value, and how many pairs (index among the tokens, offset in the
    /// value) were visited. Takes no memory.
    #[tactic(auto, using(crate::proofs::TokenLemmas::length_of_tokens))]
    pub fn count(&self, value: &[u8], case: Case, rows: &mut MatchBuffers) -> (bool, u128)
        requires room { length self.now < rows.old }
        ensures matched { IsTrue result.0 ↔ Match case self.now value.now }
        ensures at_most { result.1 ≤ (length self.now + 1) * (length value.now + 1) }
        ensures found { IsTrue result.0 → length self.now < result.1 }
        ensures missed { ReachedAtMost case self.now value.now result.1 }
        ensures room { rows.old ≤ rows.new }
    {
        rows.run(self.as_slice(), value, case)
    }

    /// Whether the tokens match the whole value. Takes no memory. Tokens of one byte at either end are compared
    /// before the others.
    pub fn matches(&self, value: &[u8], case: Case, rows: &mut MatchBuffers) -> bool
        requires room { length self.now < rows.old }
        ensures matched { IsTrue result ↔ Match case self.now value.now }
        ensures room { rows.old ≤ rows.new }
    {
        let Some((tokens, value)) = skip_ends(self.as_slice(), value, case) else {
            return false;
        };
        directories::match_early(tokens, value, case, rows)
    }
}

/// Whether the tokens of the text match the whole value, and how many pairs (index among the tokens, offset in the
/// value) were visited: none for a malformed text, which matches nothing. The count always fits into a `u128`.
///
/// # Errors
///
/// If memory runs out.
#[tactic(auto, using(crate::proofs::SpellTokens::spelled, crate::proofs::SpellTokens::read_back))]
pub fn count(
    alloc: Global,
    text: &[u8],
    value: &[u8],
    case: Case,
) -> Result<(bool, u128), AllocError>
    ensures matched { IfOk result (λ r. IsTrue r.0 ↔ TextMatches case text.now value.now) }
    ensures at_most { IfOk result (λ r. r.1 ≤ (length text.now + 1) * (length value.now + 1)) }
    ensures found { IfOk result (λ r. IsTrue r.0 → (ts : List Meaning) →
        AreTokens true text.now ts → length ts ≤ r.1) }
    ensures missed { IfOk result (λ r. IsFalse r.0 → (ts : List Meaning) →
        AreTokens true text.now ts → ReachedAtMost case ts value.now r.1) }
    ensures malformed { IfOk result (λ r. ((ts : List Meaning) → AreTokens true text.now ts → ⊥)
        → r ≡ (false, 0)) }
{
    let Some(tokens) = Tokens::read(alloc, text)? else {
        return Ok((false, 0));
    };
    let mut rows = MatchBuffers::new(alloc);
    rows.reserve(tokens.row_len())?;
    Ok(tokens.count(value, case, &mut rows))
}

/// A law: the tests that compute whether tokens or a text match a value decide the relations.
#[tactic(auto, using(crate::proofs::DecidingLemmas::match_of_test, crate::proofs::DecidingLemmas::test_of_match, crate::proofs::DecidingLemmas::text_match_of_test, crate::proofs::DecidingLemmas::test_of_text_match))]
pub fn tests_tell_match(case: Case, text: &[u8], value: &[u8])
    ensures tokens { (ts : List Meaning) →
        IsTrue (matches case ts value.now) ↔ Match case ts value.now }
    ensures text { IsTrue (text_matches case text.now value.now)
        ↔ TextMatches case text.now value.now }
{}

mod directories;
mod first_bytes;
mod stretches;
