//! The pairs of bytes that stand together in a text. A text that lacks one that tokens need doesn't match them.

ghost use Rattle.std.specs.Prelude.{◌≡◌, ◌<◌, ◌↔◌, ◌||◌, ◌==◌, ℕ, IsTrue, true};
ghost use Rattle.attr_wildmatch.specs.TokenList.{tokens_of};
ghost use Rattle.attr_wildmatch.specs.Pairs.{has_pair, holds, kind, needs_pair};

use crate::token::Token;

/// Of the 64 kinds of pairs which ones there are. The kind of a pair tells the case of no letter.
#[derive(Clone, Copy, Debug)]
pub struct Pairs {
    bits: u64,
}

impl Pairs {
    /// All kinds.
    #[tactic(auto, using(crate::proofs::PairLemmas::all_ones))]
    pub fn all() -> Pairs
        ensures { (k : ℕ) → k < 64 → holds result k ≡ true }
    {
        Pairs { bits: u64::MAX }
    }

    /// The kinds of the pairs in a text.
    pub fn of(text: &[u8]) -> Pairs
        ensures { (k : ℕ) → holds result k ≡ has_pair k text.now }
    {
        let mut pairs = Pairs { bits: 0 };
        let mut rest = text;
        while let [first, second, ..] = rest {
            pairs.insert(*first, *second);
            rest = &rest[1..];
        }
        pairs
    }

    // Those of the pairs that tokens need: of two literal bytes that stand together.
    pub(crate) fn of_tokens(tokens: &[Token]) -> Pairs
        ensures { (k : ℕ) → holds result k ≡ needs_pair k (tokens_of tokens.now) }
    {
        let mut pairs = Pairs { bits: 0 };
        let mut rest = tokens;
        while let [_, others @ ..] = rest {
            if let [Token::Lit(first), Token::Lit(second), ..] = rest {
                pairs.insert(*first, *second);
            }
            rest = others;
        }
        pairs
    }

    #[tactic(auto, using(crate::proofs::PairLemmas::one_more))]
    fn insert(&mut self, first: u8, second: u8)
        ensures { (k : ℕ) → holds self.new k ≡ (holds self.old k || k == kind first second) }
    {
        self.bits |= 1 << ((first % 32 * 5 + second % 32) % 64);
    }

    /// Whether each kind of these is one of the others.
    #[tactic(auto, using(crate::proofs::PairLemmas::among_from, crate::proofs::PairLemmas::among_to))]
    pub fn are_among(self, others: Pairs) -> bool
        ensures { IsTrue result ↔ ((k : ℕ) → holds self k ≡ true → holds others k ≡ true) }
    {
        self.bits & others.bits == self.bits
    }
}
