//! Where tokens that begin with a byte or two may match.

ghost use Rattle.std.specs.Prelude.{◌≡◌, ◌≤◌, IfSome, IsFalse, false, drop, length};
ghost use Rattle.attr_wildmatch.specs.Brackets.{begins};
ghost use Rattle.attr_wildmatch.specs.TokenList.{tokens_of};
ghost use Rattle.attr_wildmatch.specs.Deciding.{matches};
ghost use Rattle.attr_wildmatch.specs.inner.FirstBytes.{BeginWith, BeginWithPair, begins_with_pair, from_first};

use crate::case::Case;
use crate::token::Token;
use memchr::arch::all::memchr::One;

// The byte that the tokens begin with, if its case matters.
pub(crate) fn first_byte(tokens: &[Token], case: Case) -> Option<u8>
    ensures { IfSome result (λ byte. BeginWith case byte (tokens_of tokens.now)) }
{
    match (case, tokens) {
        (Case::Sensitive, [Token::Lit(byte), ..]) => Some(*byte),
        _ => None,
    }
}

// The two bytes that the tokens begin with, if their case matters.
pub(crate) fn first_pair(tokens: &[Token], case: Case) -> Option<(u8, u8)>
    ensures { IfSome result (λ pair.
        BeginWithPair case pair.0 pair.1 (tokens_of tokens.now)) }
{
    match (case, tokens) {
        (Case::Sensitive, [Token::Lit(first), Token::Lit(second), ..]) => Some((*first, *second)),
        _ => None,
    }
}

// The value from the first such byte on, and nothing if it has none. A search that begins at the byte costs more than a look.
// It isn't inlined, so that its callers are small enough to be.
#[inline(never)]
pub(crate) fn from_byte(value: &[u8], byte: u8) -> &[u8]
    ensures { result.now ≡ from_first (begins byte) value.now }
{
    if value.first() == Some(&byte) {
        return value;
    }
    match One::new(byte).find(value) {
        Some(offset) => &value[offset..],
        None => &[],
    }
}

// Whether the pair may stand at one of the first eight offsets: these are compared together. True for fewer bytes.
fn may_hold_pair(value: &[u8], first: u8, second: u8) -> bool
    ensures enough { IsFalse result → 9 ≤ length value.now }
    ensures passed { let test = begins_with_pair first second in IsFalse result →
        from_first test (drop 8 value.now) ≡ from_first test value.now }
{
    match value {
        [a, b, c, d, e, f, g, h, i, ..] => {
            (*a == first) & (*b == second)
                | (*b == first) & (*c == second)
                | (*c == first) & (*d == second)
                | (*d == first) & (*e == second)
                | (*e == first) & (*f == second)
                | (*f == first) & (*g == second)
                | (*g == first) & (*h == second)
                | (*h == first) & (*i == second)
        }
        _ => true,
    }
}

// The value from an offset on before which the pair stands nowhere. The last eight offsets are compared together too, some
// of them again, rather than one by one.
fn skip_pairs(value: &[u8], first: u8, second: u8) -> &[u8]
    ensures same { let test = begins_with_pair first second in
        from_first test result.now ≡ from_first test value.now }
    ensures shorter { length result.now ≤ length value.now }
{
    let mut rest = value;
    while !may_hold_pair(rest, first, second) {
        rest = &rest[8..];
    }
    if rest.len() < 9
        && value.len() >= 9
        && !may_hold_pair(&value[value.len() - 9..], first, second)
    {
        return &[];
    }
    rest
}

// Whether the value begins with these two bytes.
fn begins_with_pair(value: &[u8], first: u8, second: u8) -> bool
    ensures { result ≡ begins_with_pair first second value.now }
{
    match value {
        [a, b, ..] => *a == first && *b == second,
        _ => false,
    }
}

// The value from the first offset on where these two bytes stand together, and nothing if they do nowhere. It isn't inlined,
// for the same reason.
#[inline(never)]
pub(crate) fn from_pair(value: &[u8], first: u8, second: u8) -> &[u8]
    ensures { result.now ≡ from_first (begins_with_pair first second) value.now }
{
    let mut rest = skip_pairs(value, first, second);
    while let Some((_, others)) = rest.split_first() {
        if begins_with_pair(rest, first, second) {
            return rest;
        }
        rest = others;
    }
    rest
}

// Whether the tokens may match the value: if they begin with two bytes whose case matters, it begins with these.
pub(crate) fn may_begin(tokens: &[Token], value: &[u8], case: Case) -> bool
    ensures { IsFalse result → matches case (tokens_of tokens.now) value.now ≡ false }
{
    match first_pair(tokens, case) {
        Some((first, second)) => begins_with_pair(value, first, second),
        None => true,
    }
}
