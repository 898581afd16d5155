//! A line of an index: its pattern, with what is made of it once.

ghost use Rattle.std.specs.Prelude.{◌≡◌, ◌↔◌, ℕ, true, IfOk, IsTrue, MatchOption};
ghost use Rattle.std.specs.Option.{option_copied};
ghost use Rattle.attr_wildmatch.specs.Pairs.{holds, needs_pair};
ghost use Rattle.attr_glob.specs.KeptTokens.{kept_tokens};
ghost use Rattle.attr_glob.specs.Views.{pattern_view};
ghost use Rattle.attr_glob.specs.inner.LineTokens.{unboxed};

use crate::Pattern;
use crate::pairs::Pairs;
use crate::search::pattern::Mapping;
use crate::token::Tokens;
use std::alloc::{AllocError, Global};

/// A line as searches read it and as answers lend it.
#[derive(Debug, Drop)]
pub struct IndexedLine {
    /// Its pattern.
    pub pattern: Pattern,
    /// Its number in its file, from 1.
    pub number: usize,
    /// The tokens of the pattern, where a match may need them.
    pub tokens: Option<Box<Tokens>>,
    ghost kept: { unboxed tokens ≡ kept_tokens (pattern_view pattern) },
}

impl IndexedLine {
    /// The line of a mapping. It has a copy of the pattern.
    ///
    /// # Errors
    ///
    /// If memory runs out.
    pub fn of<V>(alloc: Global, mapping: &Mapping<V>) -> Result<IndexedLine, AllocError>
        ensures pattern { IfOk result (λ line.
            pattern_view line.pattern ≡ pattern_view mapping.now.pattern) }
        ensures number { IfOk result (λ line. line.number ≡ mapping.now.sequence_number) }
    {
        let tokens = match mapping.pattern.kept_tokens(alloc)? {
            Some(tokens) => Some(Box::new(alloc, tokens)?),
            None => None,
        };
        let pattern = mapping.pattern.clone(alloc)?;
        Ok(IndexedLine {
            pattern,
            number: mapping.sequence_number,
            tokens,
        })
    }

    /// Whether a text may match that has pairs of these kinds alone. It has to have those that the tokens need.
    pub fn may_match(&self, pairs: Pairs) -> bool
        ensures { MatchOption (kept_tokens (pattern_view self.now.pattern)) (IsTrue result)
            (λ ts. IsTrue result ↔ ((k : ℕ) → needs_pair k ts ≡ true → holds pairs k ≡ true)) }
    {
        match self.tokens() {
            Some(tokens) => tokens.pairs().are_among(pairs),
            None => true,
        }
    }

    /// The tokens of the pattern, where a match may need them.
    pub fn tokens(&self) -> Option<&Tokens>
        ensures { option_copied result ≡ kept_tokens (pattern_view self.now.pattern) }
    {
        self.tokens.as_deref()
    }
}
