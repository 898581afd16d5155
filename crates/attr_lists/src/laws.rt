//! Laws of the definitions that the contracts cite. Each law is the contract of a function that does nothing.
ghost use Rattle.std.specs.Prelude.{◌≡◌, ℕ, Bool, true, List};
ghost use Rattle.attr_lists.specs.LineResults.{byte_order_marks, without_front, lines_in};
ghost use Rattle.attr_lists.specs.LinesJoined.{AreLines};
ghost use Rattle.attr_lists.specs.KeptLists.{kept_list_where, macros_valid};

/// The macros that a list keeps of a buffer have valid names.
#[tactic(auto, using(crate::proofs::KeptLaws::kept_macros_valid_where))]
pub fn kept_macros_are_valid()
    ensures { (allow_macros : Bool) (bytes : List ℕ) →
        macros_valid (kept_list_where allow_macros bytes) ≡ true }
{}

/// The bytes after the byte order mark are the lines joined by their ends, and no other lines join to them.
#[tactic(auto, using(crate::proofs::LineLaws::lines_are_joined, crate::proofs::LineLaws::joined_are_lines))]
pub fn lines_join_to_the_buffer()
    ensures holds { (bytes : List ℕ) →
        AreLines (without_front byte_order_marks bytes) (lines_in bytes) }
    ensures only { (bytes : List ℕ) (lines : List (List ℕ)) →
        AreLines (without_front byte_order_marks bytes) lines → lines ≡ lines_in bytes }
{}
