//! The tokens of a pattern's text, by the gitignore page.

ghost use Rattle.std.specs.Prelude.{◌≡◌, ◌+◌, ◌≤◌, ◌<◌, ◌^◌, ◌&&◌, ◌↔◌, ℕ, List, IfSome, IfOk, IsTrue, Some, true, length, option_map};
ghost use Rattle.attr_wildmatch.specs.Tokens.{Token as Meaning, after_stars, stars_at, bracket_at, token_at, token_ends_in_slash as meaning_ends_in_slash, tokens as meaning_of_text};
ghost use Rattle.attr_wildmatch.specs.Spelling.{AreTokens};
ghost use Rattle.attr_wildmatch.specs.Deciding.{takes_byte};
ghost use Rattle.attr_wildmatch.specs.inner.RowIndexes.{may_be_nothing, continues_with, ends_at};
ghost use Rattle.attr_wildmatch.specs.TokenList.{token_of, tokens_of};
ghost use Rattle.attr_wildmatch.specs.inner.Bordered.{is_bordered};
ghost use Rattle.attr_wildmatch.specs.Pairs.{holds, needs_pair};

use crate::bracket::{self, MemberSet};
use crate::case::Case;
use crate::pairs::Pairs;
use std::alloc::{AllocError, Global};
use std::marker::Model;

/// A part of a pattern's text, with the bytes of a value that it takes.
#[derive(Debug, Drop)]
pub(crate) enum Token {
    /// This byte.
    Lit(u8),
    /// `?`: one byte, but no slash.
    One,
    /// A bracket: one byte of the members or, if negated, one that isn't of them, but no slash. The members stand
    /// apart, since other tokens are far smaller.
    Set {
        negated: bool,
        members: Box<MemberSet>,
    },
    /// `*`: any text without a slash.
    Star,
    /// A directory star, which is `**/` at the start or after a slash: nothing, or any text that ends in a slash.
    Dirs,
    /// `**` at the end, if it is at the start too or after a slash: any text.
    Rest,
}

impl Token {
    /// Whether the token takes one byte, and this one.
    pub(crate) fn takes(&self, byte: u8, case: Case) -> bool
        ensures { result ≡ takes_byte case (token_of self.now) byte }
    {
        match self {
            Token::Lit(lit) => match case {
                Case::Sensitive => byte == *lit,
                Case::Fold => byte.to_ascii_lowercase() == lit.to_ascii_lowercase(),
            },
            Token::One => byte != b'/',
            Token::Set { negated, members } => {
                if byte == b'/' {
                    return false;
                }
                members.contains(byte, case) != *negated
            }
            Token::Star | Token::Dirs | Token::Rest => false,
        }
    }

    // Whether the token may take nothing.
    pub(crate) fn may_be_empty(&self) -> bool
        ensures { result ≡ may_be_nothing (token_of self.now) }
    {
        matches!(self, Token::Star | Token::Dirs | Token::Rest)
    }

    // Whether a token that takes any number of bytes goes on to take this one.
    pub(crate) fn continues(&self, byte: u8) -> bool
        ensures { result ≡ continues_with (token_of self.now) byte }
    {
        match self {
            Token::Star => byte != b'/',
            Token::Rest => true,
            Token::Lit(_) | Token::One | Token::Set { .. } | Token::Dirs => false,
        }
    }

    // Whether the token ends with this byte.
    pub(crate) fn ends(&self, byte: u8, case: Case) -> bool
        ensures { result ≡ ends_at case (token_of self.now) byte }
    {
        match self {
            Token::Dirs => byte == b'/',
            Token::Lit(_) | Token::One | Token::Set { .. } | Token::Star | Token::Rest => {
                self.takes(byte, case)
            }
        }
    }

    // Whether the token's text ends in a slash, so that a directory star may follow.
    fn ends_in_slash(&self) -> bool
        ensures { result ≡ meaning_ends_in_slash (token_of self.now) }
    {
        match self {
            Token::Lit(lit) => *lit == b'/',
            Token::Dirs => true,
            Token::One | Token::Set { .. } | Token::Star | Token::Rest => false,
        }
    }
}

// What follows a run of stars.
fn skip_stars(bytes: &[u8]) -> &[u8]
    ensures rest { result.now ≡ after_stars bytes.now }
    ensures shorter { length result.now ≤ length bytes.now }
{
    let mut rest = bytes;
    while let [b'*', tail @ ..] = rest {
        rest = tail;
    }
    rest
}

// The token of a run of stars, given the bytes after its first one. `border`: the run is at the text's
// start or after a slash.
fn stars(border: bool, bytes: &[u8]) -> (Token, &[u8])
    ensures token { (token_of result.0, result.1.now) ≡ stars_at border bytes.now }
    ensures shorter { length result.1.now ≤ length bytes.now }
{
    let rest = skip_stars(bytes);
    if border && bytes.first() == Some(&b'*') {
        match rest {
            [] => return (Token::Rest, rest),
            [b'/', tail @ ..] => return (Token::Dirs, tail),
            _ => {}
        }
    }
    (Token::Star, rest)
}

// The token of a bracket, given the bytes after its `[`, and what follows it.
fn set(alloc: Global, bytes: &[u8]) -> Result<Option<(Token, &[u8])>, AllocError>
    ensures token { IfOk result (λ found.
        option_map (λ r. (token_of r.0, r.1.now)) found ≡ bracket_at bytes.now) }
    ensures shorter { IfOk result (λ o. IfSome o (λ r. length r.1.now ≤ length bytes.now)) }
{
    let (negated, inside) = match bytes {
        [] => return Ok(None),
        [b'!' | b'^', inside @ ..] => (true, inside),
        _ => (false, bytes),
    };
    let Some((members, rest)) = bracket::members(alloc, inside)? else {
        return Ok(None);
    };
    let members = Box::new(alloc, members)?;
    Ok(Some((Token::Set { negated, members }, rest)))
}

// The token that begins with the byte, given the bytes after it, and what follows the token.
fn read_token(
    alloc: Global,
    border: bool,
    byte: u8,
    bytes: &[u8],
) -> Result<Option<(Token, &[u8])>, AllocError>
    ensures token { IfOk result (λ found.
        option_map (λ r. (token_of r.0, r.1.now)) found ≡ token_at border byte bytes.now) }
    ensures shorter { IfOk result (λ o. IfSome o (λ r. length r.1.now ≤ length bytes.now)) }
{
    match byte {
        b'?' => Ok(Some((Token::One, bytes))),
        b'\\' => match bytes.split_first() {
            None => Ok(None),
            Some((escaped, rest)) => Ok(Some((Token::Lit(*escaped), rest))),
        },
        b'[' => set(alloc, bytes),
        b'*' => Ok(Some(stars(border, bytes))),
        _ => Ok(Some((Token::Lit(byte), bytes))),
    }
}

/// The tokens of a pattern's text, kept so that they can be matched against many values.
#[derive(Debug, Drop)]
pub struct Tokens {
    list: Vec<Token>,
    // The kinds of pairs that they need.
    pairs: Pairs,
}

impl Model for Tokens {
    ghost use Rattle.std.specs.Prelude.{List};
    ghost use Rattle.attr_wildmatch.specs.Tokens.{Token as Meaning};
    ghost use Rattle.attr_wildmatch.specs.TokenList.{tokens_of};

    ghost Value = { List Meaning };

    ghost view = { λ t. tokens_of t.list.items };

    ghost use Rattle.attr_wildmatch.specs.inner.SoundTokens.{AreSoundTokens};

    ghost invariant = { λ t. AreSoundTokens (tokens_of t.list.items) t.pairs };
}

impl Tokens {
    /// Reads a pattern's text. Returns `None` if it is malformed: a bracket isn't closed or names an unknown class, or
    /// a lone backslash ends the text.
    ///
    /// # Errors
    ///
    /// If memory runs out.
    pub fn read(alloc: Global, text: &[u8]) -> Result<Option<Tokens>, AllocError>
        ensures tokens { IfOk result (λ o. o ≡ meaning_of_text text.now) }
        ensures few { IfOk result (λ o. IfSome o (λ ts. length ts ≤ length text.now)) }
    {
        let mut list = Vec::with_capacity(alloc, text.len())?;
        let mut border = true;
        let mut rest = text;
        while let Some((byte, tail)) = rest.split_first() {
            let Some((token, tail)) = read_token(alloc, border, *byte, tail)? else {
                return Ok(None);
            };
            border = token.ends_in_slash();
            list.push(token)?;
            rest = tail;
        }

        // A bracket, an escape or a directory star is one token of several bytes.
        list.shrink_to_fit();
        let pairs = Pairs::of_tokens(&list);
        Ok(Some(Tokens { list, pairs }))
    }

    /// How many tokens there are.
    #[tactic(auto, using(crate::proofs::TokenLemmas::length_of_tokens))]
    pub fn len(&self) -> usize
        ensures len { result ≡ length self.now }
        ensures few { result < 2 ^ 63 }
    {
        self.list.len()
    }

    /// Whether there are no tokens, as of the empty text.
    #[tactic(auto, using(crate::proofs::TokenLemmas::length_of_tokens))]
    pub fn is_empty(&self) -> bool
        ensures { IsTrue result ↔ (length self.now ≡ 0) }
    {
        self.list.is_empty()
    }

    /// The length that the row of a match needs: one more than there are tokens.
    pub fn row_len(&self) -> usize
        ensures { result ≡ length self.now + 1 }
    {
        self.len() + 1
    }

    /// The kinds of pairs that the tokens need.
    pub fn pairs(&self) -> Pairs
        ensures { (k : ℕ) → holds result k ≡ needs_pair k self.now }
    {
        self.pairs
    }

    pub(crate) fn as_slice(&self) -> &[Token]
        ensures tokens { tokens_of result.now ≡ self.now }
        ensures bordered { is_bordered true self.now ≡ true }
        ensures few { length result.now < 2 ^ 63 }
    {
        self.list.as_slice()
    }
}

/// A law: the tokens that are computed of a text are those that it spells.
#[tactic(auto, using(crate::proofs::SpellTokens::spelled, crate::proofs::SpellTokens::read_back))]
pub fn tokens_are_spelled(text: &[u8])
    ensures { (ts : List Meaning) →
        (meaning_of_text text.now ≡ Some ts) ↔ AreTokens true text.now ts }
{}
