//! Which lines give their items to a path, which are candidates, and which of two decides. Numbers of names, and their slots.

ghost use Rattle.std.specs.Prelude.{◌≡◌, [], ◌∷◌, Some, None, true, false, codes, map};
ghost use Rattle.attr_wildmatch.specs.declared.case.Case.TheVariants.{Sensitive};
ghost use Rattle.attr_search.specs.ListView.{rest_for};
ghost use Rattle.attr_search.specs.Settings.{BodiesAreNamed, HaveSlots, HeldAreNamed, ListsAreNamed};
ghost use Rattle.attr_search.specs.Settings.{candidate_lines, candidates_in, gives, is_found, setting_of};
ghost use Rattle.attr_search.specs.Slots.{slots_of};
ghost use Rattle.attr_table.specs.Cut.{no_answers};
ghost use Rattle.attr_table.specs.Table.{IsStable};
ghost use Rattle.example_tests.specs.Tables.{answer_for_b, later_line, line_of_two, three_lines, two_items, two_names};
ghost use Rattle.example_tests.specs.Tables.{two_lines, two_lines_below, two_lines_read};

/// In `sub/.gitattributes` the line `*.c a` gives its items to `sub/x.c`, and not to `x.c` or `sub/x.h`. A line that defines a macro
/// gives none.
pub fn items_given()
    ensures below { map (gives Sensitive None
        (rest_for Sensitive (codes "sub/x.c") two_lines_below)) two_lines_below.lines
        ≡ true ∷ false ∷ [] }
    ensures beside { map (gives Sensitive None
        (rest_for Sensitive (codes "x.c") two_lines_below)) two_lines_below.lines
        ≡ false ∷ false ∷ [] }
    ensures other { map (gives Sensitive None
        (rest_for Sensitive (codes "sub/x.h") two_lines_below)) two_lines_below.lines
        ≡ false ∷ false ∷ [] }
{}

/// For `sub/x.c` the lines `*.c a`, `x.c b` and `d/x c` are candidates, although the last gives nothing: its pattern has a slash. For
/// `d/x` only the last is. Of `sub/.gitattributes` the line `*.c a` is a candidate for `sub/x.c`, and none is for `d/x`.
pub fn candidates_counted()
    ensures three { candidates_in Sensitive (codes "sub/x.c") three_lines ≡ 3 }
    ensures given { map (gives Sensitive None
        (rest_for Sensitive (codes "sub/x.c") three_lines)) three_lines.lines
        ≡ true ∷ true ∷ false ∷ [] }
    ensures one { candidates_in Sensitive (codes "d/x") three_lines ≡ 1 }
    ensures both { candidate_lines
        (three_lines ∷ two_lines_below ∷ []) (codes "sub/x.c") Sensitive ≡ 4 }
    ensures beside { candidate_lines
        (three_lines ∷ two_lines_below ∷ []) (codes "d/x") Sensitive ≡ 1 }
{}

/// The items `b` and `-a`, with the numbers 1 and 0, are named by `a`, `b`, and not by `b`, `a`.
pub fn lists_named()
    ensures lists { ListsAreNamed two_names (line_of_two ∷ []) }
    ensures swapped { ListsAreNamed (codes "b" ∷ codes "a" ∷ []) (line_of_two ∷ []) → ⊥ }
    ensures bodies { BodiesAreNamed two_names ([] ∷ two_items ∷ []) }
{}

/// These items need two slots. An answer for `b` belongs into slot 1, and not into slot 0. It is found if `b` is wanted, and not if
/// only `a` is.
pub fn slots_named()
    ensures two { HaveSlots 2 two_items }
    ensures one { HaveSlots 1 two_items → ⊥ }
    ensures held { HeldAreNamed two_names (None ∷ Some answer_for_b ∷ []) }
    ensures in_wrong_slot { HeldAreNamed two_names (Some answer_for_b ∷ []) → ⊥ }
    ensures found { is_found (1 ∷ []) no_answers
        (slots_of (None ∷ Some answer_for_b ∷ [])) ≡ true }
    ensures unfound { is_found (0 ∷ []) no_answers
        (slots_of (None ∷ Some answer_for_b ∷ [])) ≡ false }
{}

/// Of `* a` and `* -a`, whose items are the setting of a search for `f`, the later line decides.
pub fn later_line_decides()
    ensures setting { setting_of (two_lines_read ∷ []) [] (codes "f") Sensitive None ≡ two_lines }
    ensures stable { IsStable two_lines no_answers later_line }
{}
