//! Matching without a count: a row is moved over the bytes only if nothing simpler decides.

ghost use Rattle.std.specs.Prelude.{◌≡◌, ◌<◌, ◌||◌, ◌∷◌, [], IfSome, IfNone, true, false, length};
ghost use Rattle.attr_wildmatch.specs.Tokens.{dirs};
ghost use Rattle.attr_wildmatch.specs.TokenList.{token_of, tokens_of};
ghost use Rattle.attr_wildmatch.specs.inner.Decided.{IsReady, IsDecided};
ghost use Rattle.attr_wildmatch.specs.Deciding.{slash_then, matches};

use crate::case::Case;
use crate::slashes;
use crate::token::Token;
use crate::wildmatch::first_bytes::{first_byte, from_byte, from_pair, may_begin};
use crate::wildmatch::stretches::match_stretches;
use crate::wildmatch::{MatchBuffers, skip_front};

// Whether the token takes the whole value, if it is one that takes any number of bytes.
fn takes_whole(token: &Token, value: &[u8]) -> Option<bool>
    ensures { (case : Case) → IfSome result (λ answer.
        answer ≡ matches case (token_of token.now ∷ []) value.now) }
{
    match token {
        Token::Star => Some(!slashes::has_slash(value)),
        Token::Dirs => Some(value.is_empty() || slashes::ends_in_slash(value)),
        Token::Rest => Some(true),
        Token::Lit(_) | Token::One | Token::Set { .. } => None,
    }
}

// Whether the tokens match the value, if they are none, or one that takes any number of bytes.
fn answer_alone(tokens: &[Token], value: &[u8]) -> Option<bool>
    ensures { (case : Case) → IfSome result (λ answer.
        answer ≡ matches case (tokens_of tokens.now) value.now) }
{
    match tokens {
        [] => Some(value.is_empty()),
        [token] => takes_whole(token, value),
        _ => None,
    }
}

// Whether the tokens match the value, if those of one byte at the front decide.
fn answer_front(tokens: &[Token], value: &[u8], case: Case) -> Option<bool>
    ensures { IfSome result (λ answer. answer ≡ matches case (tokens_of tokens.now) value.now) }
{
    if !may_begin(tokens, value, case) {
        return Some(false);
    }
    let Some((tokens, value)) = skip_front(tokens, value, case) else {
        return Some(false);
    };
    answer_alone(tokens, value)
}

// The next directory in which the tokens may match: if they begin with a byte whose case matters, one that begins with it.
#[tactic(auto, using(crate::proofs::FirstBytes::on_start, crate::proofs::FirstBytes::on_slash, crate::proofs::FirstBytes::no_bytes, crate::proofs::FirstBytes::from_first_shorter))]
fn next_directory<'v>(tokens: &[Token], value: &'v [u8], case: Case) -> Option<&'v [u8]>
    ensures next { IfSome result (λ next. let f = matches case (tokens_of tokens.now) in
        slash_then f value.now ≡ (f next.now || slash_then f next.now)) }
    ensures none { IfNone result (
        slash_then (matches case (tokens_of tokens.now)) value.now ≡ false) }
    ensures shorter { IfSome result (λ next. length next.now < length value.now) }
{
    let below = match first_byte(tokens, case) {
        Some(byte) => from_pair(value, b'/', byte),
        None => from_byte(value, b'/'),
    };
    let (_, next) = below.split_first()?;
    Some(next)
}

// Whether a directory star and the tokens after it match the value. It goes on to the next directory while those tokens
// are found not to match in one; if that isn't decided, the row decides from that directory on.
fn match_directories(
    tokens: &[Token],
    others: &[Token],
    value: &[u8],
    case: Case,
    rows: &mut MatchBuffers,
) -> bool
    requires directory { tokens_of tokens.now ≡ dirs ∷ tokens_of others.now }
    requires ready { IsReady tokens.now rows.old }
    ensures { IsDecided case (tokens_of tokens.now) value.now result rows.old rows.new }
{
    let mut rest = value;
    loop {
        match answer_front(others, rest, case) {
            Some(true) => return true,
            Some(false) => {}
            None => return rows.run(tokens, rest, case).0,
        }
        let Some(below) = next_directory(others, rest, case) else {
            return false;
        };
        rest = below;
    }
}

// Whether the tokens match the value, by a row only if nothing simpler decides.
pub(crate) fn match_early(
    tokens: &[Token],
    value: &[u8],
    case: Case,
    rows: &mut MatchBuffers,
) -> bool
    requires ready { IsReady tokens.now rows.old }
    ensures { IsDecided case (tokens_of tokens.now) value.now result rows.old rows.new }
{
    if let Some(answer) = answer_alone(tokens, value) {
        return answer;
    }
    if let [Token::Dirs, others @ ..] = tokens {
        return match_directories(tokens, others, value, case, rows);
    }
    if let Some(answer) = match_stretches(tokens, value, case) {
        return answer;
    }
    rows.run(tokens, value, case).0
}
