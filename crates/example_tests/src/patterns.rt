//! Patterns and paths.

ghost use Rattle.std.specs.Prelude.{◌≡◌, ◌+◌, [], ◌∷◌, Ok, Some, None, true, false, codes, option_map};
ghost use Rattle.attr_wildmatch.specs.declared.bracket.Member.TheVariants.{Span};
ghost use Rattle.attr_wildmatch.specs.declared.case.Case.TheVariants.{Sensitive, Fold};
ghost use Rattle.attr_wildmatch.specs.Matching.{ReachedAtMost, TextMatches};
ghost use Rattle.attr_wildmatch.specs.Spelling.{AreTokens};
ghost use Rattle.attr_wildmatch.specs.Tokens.{dirs, lit, set, star};
ghost use Rattle.attr_glob.specs.BaseNames.{base_name};
ghost use Rattle.attr_glob.specs.Bases.{base_of, rest_below};
ghost use Rattle.attr_glob.specs.Paths.{path_matches};
ghost use Rattle.attr_glob.specs.Quotes.{undone};
ghost use Rattle.attr_glob.specs.Patterns.{absolute, ends_with, must_be_dir, no_sub_dir, read_rest, reading, written};

use attr_wildmatch::case::Case;
use attr_wildmatch::wildmatch::tests_tell_match;

/// `**/b` spells any directories and then the byte `b`.
pub fn any_directories_spelled()
    ensures { AreTokens true (codes "**/b") (dirs ∷ lit 98 ∷ []) }
{}

/// `[!a-c]` spells a byte that is not from `a` to `c`, so it matches `d` and not `b`. `[a` spells nothing, and matches nothing.
pub fn bracket_spelled()
    ensures spelled { AreTokens true (codes "[!a-c]") (set true (Span 97 99 ∷ []) ∷ []) }
    ensures without { TextMatches Sensitive (codes "[!a-c]") (codes "d") }
    ensures within { TextMatches Sensitive (codes "[!a-c]") (codes "b") → ⊥ }
    ensures unclosed { TextMatches Sensitive (codes "[a") (codes "[a") → ⊥ }
{
    tests_tell_match(Case::Sensitive, b"[!a-c]", b"d");
    tests_tell_match(Case::Sensitive, b"[!a-c]", b"b");
    tests_tell_match(Case::Sensitive, b"[a", b"[a");
}

/// `**/b` matches `x/y/b` and `b`, and doesn't match `xb`: what takes any directories takes `x/y/` and nothing.
pub fn any_directories_matched()
    ensures two { TextMatches Sensitive (codes "**/b") (codes "x/y/b") }
    ensures none { TextMatches Sensitive (codes "**/b") (codes "b") }
    ensures part { TextMatches Sensitive (codes "**/b") (codes "xb") → ⊥ }
{
    tests_tell_match(Case::Sensitive, b"**/b", b"x/y/b");
    tests_tell_match(Case::Sensitive, b"**/b", b"b");
    tests_tell_match(Case::Sensitive, b"**/b", b"xb");
}

/// For `*b` and `a` three of the six pairs are reached, and more than two: no token matches no byte, and the star no byte and `a`.
pub fn pairs_reached()
    ensures three { ReachedAtMost Sensitive (star ∷ lit 98 ∷ []) (codes "a") 3 }
    ensures two { ReachedAtMost Sensitive (star ∷ lit 98 ∷ []) (codes "a") 2 → ⊥ }
{}

/// `"a\tb"` takes six bytes, and undone it is `a`, a tab and `b`.
pub fn quoted_text_undone()
    ensures { undone (codes "\"a\\tb\"") ≡ Ok (97 ∷ 9 ∷ 98 ∷ [], 6) }
{}

/// `/d/` is read as the text `d`, for directories alone, and for the top alone.
pub fn directory_at_the_top_read()
    ensures { reading (codes "/d/") ≡ Some (record {
      text = codes "d";
      mode = no_sub_dir + must_be_dir + absolute;
      wildcard = None;
    }) }
{}

/// `*.c` is read as a star and a suffix, whose first wildcard is at 0.
pub fn suffix_read()
    ensures { reading (codes "*.c") ≡ Some (record {
      text = codes "*.c";
      mode = no_sub_dir + ends_with;
      wildcard = Some 0;
    }) }
{}

/// `!/d/` is written as it was read, and `\#x` without its backslash. `! ` is no pattern.
pub fn patterns_written()
    ensures marks { option_map written (reading (codes "!/d/")) ≡ Some (codes "!/d/") }
    ensures escaped { option_map written (reading (codes "\\#x")) ≡ Some (codes "#x") }
    ensures blank { option_map written (reading (codes "! ")) ≡ None }
{}

/// The base name of `a/x.c` is `x.c`.
pub fn base_name_found()
    ensures { base_name (codes "a/x.c") ≡ codes "x.c" }
{}

/// `*.c` matches `a/x.c`, and `/*.c` doesn't. `d/` matches the directory `a/d`, and not the file.
pub fn paths_matched()
    ensures name { path_matches Sensitive (read_rest false (codes "*.c")) (codes "a/x.c") None
        ≡ true }
    ensures path { path_matches Sensitive (read_rest false (codes "/*.c")) (codes "a/x.c") None
        ≡ false }
    ensures directory { path_matches Sensitive (read_rest false (codes "d/")) (codes "a/d")
        (Some true) ≡ true }
    ensures file { path_matches Sensitive (read_rest false (codes "d/")) (codes "a/d")
        (Some false) ≡ false }
    ensures fold { path_matches Fold (read_rest false (codes "*.c")) (codes "a/X.C") None ≡ true }
{}

/// `sub/.gitattributes` applies below `sub/`, where `sub/x` is `x`, and `x` is not.
pub fn below_a_source()
    ensures base { base_of (codes "sub/.gitattributes") (Some []) ≡ Some (codes "sub/") }
    ensures below { rest_below (Some (codes "sub/")) Sensitive (codes "sub/x") ≡ Some (codes "x") }
    ensures beside { rest_below (Some (codes "sub/")) Sensitive (codes "x") ≡ None }
{}
