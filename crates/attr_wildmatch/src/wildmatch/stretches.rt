//! Matching of stars with stretches of tokens of one byte between them: in a value without a slash, each stretch is looked
//! for from the left to the right, and no row is moved.

ghost use Rattle.std.specs.Prelude.{◌≡◌, ◌≤◌, ◌<◌, [], ◌∷◌, IfSome, IfNone, None, false, length, option_map};
ghost use Rattle.std.specs.List.{list_any};
ghost use Rattle.attr_wildmatch.specs.Slashes.{is_slash};
ghost use Rattle.attr_wildmatch.specs.Tokens.{star};
ghost use Rattle.attr_wildmatch.specs.TokenList.{tokens_of};
ghost use Rattle.attr_wildmatch.specs.Deciding.{matches};
ghost use Rattle.attr_wildmatch.specs.inner.Stretches.{first_left};

use crate::case::Case;
use crate::slashes;
use crate::token::Token;
use crate::wildmatch::first_bytes::{first_byte, first_pair, from_byte, from_pair};
use crate::wildmatch::skip_front;

// The value, unless it has no byte.
fn unless_empty(value: &[u8]) -> Option<&[u8]>
    ensures some { IfSome result (λ some. some.now ≡ value.now) }
    ensures none { IfNone result (value.now ≡ []) }
{
    match value {
        [] => None,
        _ => Some(value),
    }
}

// The value from the first offset on at which the tokens may match. They begin there with the same two bytes as the value,
// or the same byte, if the case of these matters. None if there is no such offset.
#[tactic(auto, using(crate::proofs::FirstBytes::from_first_byte, crate::proofs::FirstBytes::from_first_pair, crate::proofs::FirstBytes::no_first_pair, crate::proofs::FirstBytes::from_first_shorter))]
fn from_literal<'v>(tokens: &[Token], value: &'v [u8], case: Case) -> Option<&'v [u8]>
    ensures found { IfSome result (λ rest. first_left case (tokens_of tokens.now) value.now
        ≡ first_left case (tokens_of tokens.now) rest.now) }
    ensures none { IfNone result (first_left case (tokens_of tokens.now) value.now ≡ None) }
    ensures shorter { IfSome result (λ rest. length rest.now ≤ length value.now) }
{
    if let Some((first, second)) = first_pair(tokens, case) {
        return unless_empty(from_pair(value, first, second));
    }
    let Some(byte) = first_byte(tokens, case) else {
        return Some(value);
    };
    unless_empty(from_byte(value, byte))
}

// The same as `first_fit`, for a value that begins where the tokens may match. It isn't inlined, so that `first_fit` is small
// enough to be: most values have no such offset.
#[inline(never)]
#[tactic(auto, using(crate::proofs::StretchLemmas::first_here))]
fn first_fit_from<'t, 'v>(
    tokens: &'t [Token],
    value: &'v [u8],
    case: Case,
) -> Option<(&'t [Token], &'v [u8])>
    ensures { option_map (λ r. (tokens_of r.0.now, r.1.now)) result
        ≡ first_left case (tokens_of tokens.now) value.now }
{
    let mut rest = value;
    loop {
        if let Some(left) = skip_front(tokens, rest, case) {
            return Some(left);
        }
        let (_, others) = rest.split_first()?;
        rest = from_literal(tokens, others, case)?;
    }
}

// What is left where the tokens of one byte at the front first take bytes of the value: the tokens after them, and what
// follows the bytes.
fn first_fit<'t, 'v>(
    tokens: &'t [Token],
    value: &'v [u8],
    case: Case,
) -> Option<(&'t [Token], &'v [u8])>
    ensures { option_map (λ r. (tokens_of r.0.now, r.1.now)) result
        ≡ first_left case (tokens_of tokens.now) value.now }
{
    let start = from_literal(tokens, value, case)?;
    first_fit_from(tokens, start, case)
}

// The tokens after a star, if the first one is a star.
fn after_star(tokens: &[Token]) -> Option<&[Token]>
    ensures star { IfSome result (λ others. tokens_of tokens.now ≡ star ∷ tokens_of others.now) }
    ensures shorter { IfSome result (λ others. length others.now < length tokens.now) }
{
    match tokens {
        [Token::Star, others @ ..] => Some(others),
        _ => None,
    }
}

// Whether the tokens match a value without a slash, if they are stars with stretches between them.
fn match_plain(tokens: &[Token], value: &[u8], case: Case) -> Option<bool>
    requires { list_any is_slash value.now ≡ false }
    ensures { IfSome result (λ answer. answer ≡ matches case (tokens_of tokens.now) value.now) }
{
    let mut left = tokens;
    let mut rest = value;
    while let Some(others) = after_star(left) {
        if others.is_empty() {
            return Some(true);
        }
        let Some((next, after)) = first_fit(others, rest, case) else {
            return Some(false);
        };
        after_star(next)?;
        left = next;
        rest = after;
    }
    None
}

// Whether the tokens match the value, if they are stars with stretches between them. The value is asked for a slash only
// if the first stretch is found in it.
pub(crate) fn match_stretches(tokens: &[Token], value: &[u8], case: Case) -> Option<bool>
    ensures { IfSome result (λ answer. answer ≡ matches case (tokens_of tokens.now) value.now) }
{
    let others = after_star(tokens)?;
    let Some((next, after)) = first_fit(others, value, case) else {
        return Some(false);
    };
    after_star(next)?;
    if slashes::has_slash(value) {
        return None;
    }
    match_plain(next, after, case)
}
