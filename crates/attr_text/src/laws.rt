//! Laws of the definitions that the contracts cite. Each law is the contract of a function that does nothing.
ghost use Rattle.std.specs.Prelude.{◌≡◌, ℕ, List, [], ◌∷◌, false, not, IsTrue, Result, Ok};
ghost use Rattle.std.specs.List.{AllZip};
ghost use Rattle.attr_text.specs.Names.{is_valid_name, is_reserved_name};
ghost use Rattle.attr_text.specs.Items.{words, Refusal, item_of, items_of, printed};
ghost use Rattle.attr_text.specs.ItemForms.{IsItem};
ghost use Rattle.attr_text.specs.Words.{AreWords, IsPlain};
ghost use Rattle.attr_text.specs.declared.assignment.Assignment.{Assignment};

/// The words of a text are its longest runs of bytes that are not blanks, and no other list is.
#[tactic(auto, using(crate::proofs::WordLaws::words_are_runs, crate::proofs::WordLaws::runs_are_words))]
pub fn words_are_the_longest_runs()
    ensures holds { (text : List ℕ) → AreWords text (words text) }
    ensures only { (text : List ℕ) (runs : List (List ℕ)) → AreWords text runs → runs ≡ words text }
{}

/// The item of a word is the one that its form gives, and no other is. So the items of a text are those of its longest runs of
/// bytes that are not blanks, in order.
#[tactic(auto, using(crate::proofs::ItemLaws::item_holds, crate::proofs::ItemLaws::item_only, crate::proofs::ItemLaws::items_hold))]
pub fn items_have_forms()
    ensures holds { (word : List ℕ) → IsItem word (item_of word) }
    ensures only { (word : List ℕ) (item : Result Assignment Refusal) →
        IsItem word item → item ≡ item_of word }
    ensures each { (text : List ℕ) (runs : List (List ℕ)) → AreWords text runs →
        AllZip IsItem runs (items_of text) }
{}

/// A printed assignment is one word. It reads as the same assignment, if the name is not reserved and a value is UTF-8
/// without blanks.
#[tactic(auto, using(crate::proofs::PrintedLaws::printed_is_word, crate::proofs::PrintedLaws::printed_reads))]
pub fn printed_reads_as_itself()
    ensures word { (a : Assignment) → IsTrue (is_valid_name a.name) → IsPlain a.state →
        words (printed a) ≡ printed a ∷ [] }
    ensures read { (a : Assignment) → IsTrue (is_valid_name a.name) →
        is_reserved_name a.name ≡ false → IsPlain a.state → items_of (printed a) ≡ Ok a ∷ [] }
{}
