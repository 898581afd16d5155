//! The lines of a buffer, and what a list keeps of them.

ghost use Rattle.std.specs.Prelude.{◌≡◌, ◌+◌, [], ◌∷◌, ◌++◌, Ok, Some, None, false, codes};
ghost use Rattle.attr_glob.specs.Patterns.{ends_with, no_sub_dir, read_rest};
ghost use Rattle.attr_lists.specs.KeptLists.{dropped_lines, kept_list, unnumbered};
ghost use Rattle.attr_lists.specs.LineResults.{macro, pattern, results_of};
ghost use Rattle.attr_lists.specs.LinesJoined.{AreLines};
ghost use Rattle.attr_lists.specs.declared.types.DropReason.TheVariants.{InvalidName, NegativePattern};
ghost use Rattle.attr_text.specs.declared.state.State.TheVariants.{Set, Unset};

/// `a` LF `b` CR LF `c` has the lines `a`, `b` and `c`.
pub fn lines_joined()
    ensures { AreLines (97 ∷ 10 ∷ 98 ∷ 13 ∷ 10 ∷ 99 ∷ [])
        (codes "a" ∷ codes "b" ∷ codes "c" ∷ []) }
{}

/// `[attr]m x` defines the macro `m` with the item `x`. ` *.c m -y` gives `m` and `-y` to the paths of `*.c`. A comment gives
/// nothing, and its line counts.
pub fn lines_read()
    ensures { results_of (codes "[attr]m x" ++ 10 ∷ codes "# *.c" ++ 10 ∷ codes " *.c m -y") ≡
        Ok (record {
          target = macro (codes "m");
          items = Ok (record { name = codes "x"; state = Set }) ∷ [];
          line = 1;
        })
        ∷ Ok (record {
          target = pattern (read_rest false (codes "*.c"));
          items = Ok (record { name = codes "m"; state = Set })
              ∷ Ok (record { name = codes "y"; state = Unset }) ∷ [];
          line = 3;
        })
        ∷ [] }
{}

/// Of `* a`, `* b =x` and `!n c` a list keeps the first line: the second has an item without a name, the third a negative pattern.
pub fn lines_kept()
    ensures kept { kept_list (codes "* a" ++ 10 ∷ codes "* b =x" ++ 10 ∷ codes "!n c") ≡
        record {
          pattern = record { text = codes "*"; mode = no_sub_dir + ends_with; wildcard = Some 0 };
          macro = None;
          items = record { id = unnumbered; inner = record { name = codes "a"; state = Set } } ∷ [];
          line = 1;
        }
        ∷ [] }
    ensures dropped { dropped_lines (codes "* a" ++ 10 ∷ codes "* b =x" ++ 10 ∷ codes "!n c") ≡
        record { line = 2; reason = InvalidName } ∷ record { line = 3; reason = NegativePattern }
        ∷ [] }
{}
