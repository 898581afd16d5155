//! Patterns, and how a pattern text is read.

ghost use Rattle.std.specs.Prelude.{⊤, ◌≡◌, ◌↔◌, ◌≤◌, ◌<◌, ℕ, false, ◌+◌, ◌==◌, ◌||◌, List, [], ◌∷◌, Some, None, IsTrue, IsSome, IfSome, IsOk, IfOk, OnErr, not, option_map, position, codes, drop, take, length};
ghost use Rattle.std.specs.Option.{option_copied};
ghost use Rattle.std.specs.List.{list_all, list_any, starts_with, ends_with};
ghost use Rattle.std.specs.Cmp.Lexicographic.{pointwise};
ghost use Rattle.bstr.specs.BStr.{bstr_bytes};
ghost use Rattle.attr_glob.specs.Patterns.{reading, written, is_space, is_wildcard, is_negated, without_negation, without_root, without_end, first, is_suffix, read_rest, has_flag, negative, must_be_dir, ends_with as ends_with_flag, set_where};
ghost use Rattle.attr_wildmatch.specs.Slashes.{is_slash};
ghost use Rattle.attr_wildmatch.specs.Matching.{same_byte};
ghost use Rattle.attr_wildmatch.specs.Deciding.{text_matches};
ghost use Rattle.attr_wildmatch.specs.Tokens.{Token as Meaning, tokens as meaning_of_text};
ghost use Rattle.attr_glob.specs.Folding.{same_text};
ghost use Rattle.attr_glob.specs.Paths.{matched_part, is_directory, PathMatches, path_matches};
ghost use Rattle.attr_glob.specs.BaseNames.{base_name, base_name_offset};
ghost use Rattle.attr_glob.specs.KeptTokens.{kept_tokens};
ghost use Rattle.attr_glob.specs.Candidates.{is_candidate, matches_base_name};
ghost use Rattle.attr_glob.specs.Views.{mode_bits, pattern_view};
ghost use Rattle.attr_glob.specs.inner.StarEnds.{ends_after_star};

pub use attr_wildmatch::Case;
use attr_wildmatch::slashes::{ends_in_slash, has_slash};
use attr_wildmatch::token::Tokens;
use attr_wildmatch::wildmatch::{self, MatchBuffers};
use bitflags::{Flag, Flags};
use bstr::{BStr, ByteSlice};
use std::alloc::{AllocError, Global};

/// The flags of a pattern: what its pattern text gives beside the text to match (gitignore page).
#[derive(Clone, Copy, PartialEq, Eq, PartialOrd, Ord, Hash, Debug)]
pub struct Mode(u32);

impl Mode {
    /// The text has no slash, so it is matched against the base name of a path, unless `ABSOLUTE` is set too.
    pub const NO_SUB_DIR: Mode = Mode(1);

    /// The text is a star and literal bytes, which the path or base name has to end with.
    pub const ENDS_WITH: Mode = Mode(2);

    /// The path has to be a directory.
    pub const MUST_BE_DIR: Mode = Mode(4);

    /// The pattern text began with an exclamation mark.
    pub const NEGATIVE: Mode = Mode(8);

    /// The pattern text began with a slash, so it is matched against the whole path.
    pub const ABSOLUTE: Mode = Mode(16);

    // All five, as in the mapping of a line that defines a macro.
    pub(crate) const MACRO: Mode = Mode(31);

    const FLAGS: &'static [Flag<Mode>] = &[
        Flag {
            name: "NO_SUB_DIR",
            value: Mode::NO_SUB_DIR,
        },
        Flag {
            name: "ENDS_WITH",
            value: Mode::ENDS_WITH,
        },
        Flag {
            name: "MUST_BE_DIR",
            value: Mode::MUST_BE_DIR,
        },
        Flag {
            name: "NEGATIVE",
            value: Mode::NEGATIVE,
        },
        Flag {
            name: "ABSOLUTE",
            value: Mode::ABSOLUTE,
        },
    ];
}

impl Flags for Mode {
    type Bits = u32;

    ghost exact = { ⊤ };

    ghost table = { (codes "NO_SUB_DIR", 1)
        ∷ (codes "ENDS_WITH", 2)
        ∷ (codes "MUST_BE_DIR", 4)
        ∷ (codes "NEGATIVE", 8)
        ∷ (codes "ABSOLUTE", 16)
        ∷ [] };

    ghost set_of = { λ m. m.0 };

    fn flags<'a>() -> &'a [Flag<Mode>] {
        Mode::FLAGS
    }

    fn bits(&self) -> u32 {
        self.0
    }

    fn from_bits_retain(bits: u32) -> Mode {
        Mode(bits)
    }
}

/// A pattern, as it is read from a pattern text.
#[derive(PartialEq, Eq, PartialOrd, Ord, Hash, Debug, Drop)]
pub struct Pattern {
    /// The text that paths or base names are matched against.
    pub text: Vec<u8>,
    /// The flags of the pattern text.
    pub mode: Mode,
    /// The offset in `text`, in bytes from 0, of the first wildcard: `*`, `?`, `[` or a backslash. None without one.
    pub first_wildcard_pos: Option<usize>,
}

impl Pattern {
    /// Reads a pattern text by the gitignore page. Returns `None` if it has only whitespace or nothing, a leading
    /// exclamation mark aside: then it is no pattern.
    ///
    /// # Errors
    ///
    /// If memory runs out. A text that is no pattern takes no memory.
    pub fn from_bytes(alloc: Global, text: &[u8]) -> Result<Option<Pattern>, AllocError>
        ensures ok { IfOk result (λ found. option_map pattern_view found ≡ reading text.now) }
        ensures negative { IfOk result (λ found. IfSome found (λ pattern.
            has_flag (pattern_view pattern).mode negative ≡ is_negated text.now)) }
        ensures err { OnErr result (IsSome (reading text.now)) }
    {
        let rest = without_negation(text);
        if is_blank(rest) {
            return Ok(None);
        }
        let body = without_end(without_root(rest));
        Ok(Some(Pattern {
            text: Vec::from_slice(alloc, body)?,
            mode: mode_of(is_negated(text), rest),
            first_wildcard_pos: first_wildcard(body),
        }))
    }

    /// Whether the pattern text began with an exclamation mark.
    pub fn is_negative(&self) -> bool
        ensures { result ≡ has_flag (pattern_view self.now).mode negative }
    {
        self.mode.contains(Mode::NEGATIVE)
    }

    /// The pattern as a pattern text: its text, with the exclamation mark and the slashes of its flags. The backslash
    /// of a leading `\!` or `\#` was removed when the text was read, and is not written.
    ///
    /// # Errors
    ///
    /// If memory runs out.
    pub fn write_text(&self, alloc: Global) -> Result<Vec<u8>, AllocError>
        ensures { IfOk result (λ v. v.items ≡ written (pattern_view self.now)) }
    {
        let mut text = Vec::new(alloc);
        if self.is_negative() {
            text.push(b'!')?;
        }
        if self.mode.contains(Mode::ABSOLUTE) {
            text.push(b'/')?;
        }
        text.extend_from_slice(&self.text)?;
        if self.mode.contains(Mode::MUST_BE_DIR) {
            text.push(b'/')?;
        }
        Ok(text)
    }

    /// Whether the pattern matches the path (gitignore page, "PATTERN FORMAT"). `basename_start_pos` is the path's
    /// [`base_name_offset`]. A path that isn't known to be a directory counts as none. The answer for a pattern that
    /// was not read from a text is not specified.
    ///
    /// # Errors
    ///
    /// If memory for the tokens of the pattern's text runs out. None is taken if bytes alone decide: see the clauses.
    pub fn matches_repo_relative_path(
        &self,
        alloc: Global,
        path: BStr<'_>,
        basename_start_pos: Option<usize>,
        is_dir: Option<bool>,
        case: Case,
    ) -> Result<bool, AllocError>
        requires { basename_start_pos ≡ base_name_offset (bstr_bytes path) }
        ensures matched { IfOk result (λ answer. let r = pattern_view self.now in
            (text : List ℕ) → reading text ≡ Some r →
            IsTrue answer ↔ PathMatches case r (bstr_bytes path.entry) is_dir) }

        // No memory is taken without a wildcard, for one star and an end, and if the front differs.
        ensures literal { (pattern_view self.now).wildcard ≡ None → IsOk result }
        ensures suffix { IsTrue (has_flag (pattern_view self.now).mode ends_with_flag) →
            IsOk result }
        ensures front { let r = pattern_view self.now in
            let part = matched_part r (bstr_bytes path.entry) in (n : ℕ) → r.wildcard ≡ Some n →
            starts_with (same_byte case) part (take n r.text) ≡ false → IsOk result }
    {
        if !self.takes_kind(is_dir) {
            return Ok(false);
        }
        let value = self.matched_part(path.as_bytes(), basename_start_pos);
        if let Some(answer) = self.answer_by_bytes(value, case) {
            return Ok(answer);
        }
        let (answer, _) = wildmatch::count(alloc, &self.text, value, case)?;
        Ok(answer)
    }

    /// Whether the pattern takes paths of this kind: one that has to match a directory takes no other path. A path that
    /// isn't known to be a directory counts as none.
    pub fn takes_kind(&self, is_dir: Option<bool>) -> bool
        ensures { result ≡
            (not (has_flag (pattern_view self.now).mode must_be_dir) || is_directory is_dir) }
    {
        !self.mode.contains(Mode::MUST_BE_DIR) || is_dir == Some(true)
    }

    /// The part of the path that the text is matched against: the base name or the whole path. `basename_start_pos` is
    /// the path's [`base_name_offset`].
    pub fn matched_part<'a>(&self, path: &'a [u8], basename_start_pos: Option<usize>) -> &'a [u8]
        requires { basename_start_pos ≡ base_name_offset path.now }
        ensures { result.now ≡ matched_part (pattern_view self.now) path.now }
    {
        if !self.asks_name() {
            return path;
        }
        base_name(path, basename_start_pos)
    }

    // Whether the text is matched against base names.
    #[inline]
    pub(crate) fn asks_name(&self) -> bool
        ensures { result ≡ matches_base_name (pattern_view self.now) }
    {
        self.mode.contains(Mode::NO_SUB_DIR) && !self.mode.contains(Mode::ABSOLUTE)
    }

    // Whether a path with this base name may match, as far as base names alone can tell.
    pub(crate) fn is_candidate(&self, base_name: &[u8], case: Case) -> bool
        ensures { result ≡ is_candidate case base_name.now (pattern_view self.now) }
    {
        if self.mode.contains(Mode::MACRO) {
            return false;
        }
        if !self.asks_name() {
            return true;
        }
        if self.first_wildcard_pos.is_none() {
            return same_text(case, &self.text, base_name);
        }
        !self.mode.contains(Mode::ENDS_WITH) || ends_with(base_name, after_star(&self.text), case)
    }

    // Whether the text matches the value, if bytes decide without tokens. A pattern that was built by hand may have a
    // wildcard offset past the end of its text, or `ENDS_WITH` without a star.
    pub(crate) fn answer_by_bytes(&self, value: &[u8], case: Case) -> Option<bool>
        ensures matched { IfSome result (λ answer. (text : List ℕ) →
            reading text ≡ Some (pattern_view self.now) →
            answer ≡ text_matches case (pattern_view self.now).text value.now) }
        ensures literal { (pattern_view self.now).wildcard ≡ None → IsSome result }
        ensures suffix { IsTrue (has_flag (pattern_view self.now).mode ends_with_flag) →
            IsSome result }
        ensures front { let r = pattern_view self.now in (n : ℕ) → r.wildcard ≡ Some n →
            starts_with (same_byte case) value.now (take n r.text) ≡ false → IsSome result }
    {
        let text = self.text.as_slice();
        let Some(offset) = self.first_wildcard_pos else {
            return Some(same_text(case, text, value));
        };
        if offset > 0 && !starts_with(value, &text[..offset.min(text.len())], case) {
            return Some(false);
        }
        if self.mode.contains(Mode::ENDS_WITH) {
            return Some(is_star_then(value, after_star(text), case));
        }
        None
    }

    /// Reads the tokens that [`matches_part`](Pattern::matches_part) needs. None if a match needs none, or if the text is
    /// malformed.
    ///
    /// # Errors
    ///
    /// If memory runs out.
    pub fn kept_tokens(&self, alloc: Global) -> Result<Option<Tokens>, AllocError>
        ensures { IfOk result (λ tokens. tokens ≡ kept_tokens (pattern_view self.now)) }
    {
        if self.first_wildcard_pos.is_none() || self.mode.contains(Mode::ENDS_WITH) {
            return Ok(None);
        }
        Tokens::read(alloc, &self.text)
    }

    /// Whether the text matches the part of a path that it is [matched against](Pattern::matched_part). `tokens` are
    /// what [`kept_tokens`](Pattern::kept_tokens) read. The answer for a pattern that was not read from a text is not
    /// specified.
    ///
    /// # Errors
    ///
    /// If `rows` has no room for the tokens and memory runs out. No other memory is taken.
    pub fn matches_part(
        &self,
        tokens: Option<&Tokens>,
        part: &[u8],
        case: Case,
        rows: &mut MatchBuffers,
    ) -> Result<bool, AllocError>
        requires { option_copied tokens ≡ kept_tokens (pattern_view self.now) }
        ensures matched { IfOk result (λ answer. (text : List ℕ) →
            reading text ≡ Some (pattern_view self.now) →
            answer ≡ text_matches case (pattern_view self.now).text part.now) }
        ensures kept { rows.old ≤ rows.new }

        // No memory is taken if the rows have room, and if no token is looked at.
        ensures room { let r = pattern_view self.now in (ts : List Meaning) →
            meaning_of_text r.text ≡ Some ts → length ts < rows.old → IsOk result }
        ensures malformed { meaning_of_text (pattern_view self.now).text ≡ None → IsOk result }
        ensures literal { (pattern_view self.now).wildcard ≡ None → IsOk result }
        ensures suffix { IsTrue (has_flag (pattern_view self.now).mode ends_with_flag) →
            IsOk result }
        ensures front { let r = pattern_view self.now in (n : ℕ) → r.wildcard ≡ Some n →
            starts_with (same_byte case) part.now (take n r.text) ≡ false → IsOk result }
    {
        if let Some(answer) = self.answer_by_bytes(part, case) {
            return Ok(answer);
        }
        let Some(tokens) = tokens else {
            return Ok(false);
        };
        rows.reserve(tokens.row_len())?;
        Ok(tokens.matches(part, case, rows))
    }

    /// A copy.
    ///
    /// # Errors
    ///
    /// If memory runs out.
    pub fn clone(&self, alloc: Global) -> Result<Pattern, AllocError>
        ensures { IfOk result (λ copy. pattern_view copy ≡ pattern_view self.now) }
    {
        Ok(Pattern {
            text: Vec::from_slice(alloc, &self.text)?,
            mode: self.mode,
            first_wildcard_pos: self.first_wildcard_pos,
        })
    }
}

// The mode of the text after the negation.
fn mode_of(negated: bool, rest: &[u8]) -> Mode
    ensures { mode_bits result ≡ (read_rest negated rest.now).mode }
{
    let below = without_root(rest);
    let text = without_end(below);
    flag_where(!has_slash(text), Mode::NO_SUB_DIR)
        .union(flag_where(is_suffix(text), Mode::ENDS_WITH))
        .union(flag_where(ends_in_slash(below), Mode::MUST_BE_DIR))
        .union(flag_where(negated, Mode::NEGATIVE))
        .union(flag_where(begins_with_slash(rest), Mode::ABSOLUTE))
}

fn flag_where(is_set: bool, flag: Mode) -> Mode
    ensures { mode_bits result ≡ set_where is_set (mode_bits flag) }
{
    if is_set { flag } else { Mode::empty() }
}

fn is_negated(text: &[u8]) -> bool
    ensures { result ≡ is_negated text.now }
{
    text.first() == Some(&b'!')
}

fn without_negation(text: &[u8]) -> &[u8]
    ensures { result.now ≡ without_negation text.now }
{
    match text {
        [b'!', rest @ ..] => rest,
        [b'\\', b'!' | b'#', ..] => &text[1..],
        _ => text,
    }
}

fn is_blank(text: &[u8]) -> bool
    ensures { result ≡ list_all is_space text.now }
{
    text.iter().all(|byte| byte.is_ascii_whitespace())
}

fn begins_with_slash(text: &[u8]) -> bool
    ensures { result ≡ is_slash (first text.now) }
{
    text.first() == Some(&b'/')
}

fn without_root(text: &[u8]) -> &[u8]
    ensures { result.now ≡ without_root text.now }
{
    match text {
        [b'/', below @ ..] => below,
        _ => text,
    }
}

pub(crate) fn without_end(text: &[u8]) -> &[u8]
    ensures { result.now ≡ without_end text.now }
{
    match text {
        [front @ .., b'/'] => front,
        _ => text,
    }
}

fn is_suffix(text: &[u8]) -> bool
    ensures { result ≡ is_suffix text.now }
{
    match text {
        [b'*', suffix @ ..] => !has_wildcard(suffix),
        _ => false,
    }
}

fn has_wildcard(text: &[u8]) -> bool
    ensures { result ≡ list_any is_wildcard text.now }
{
    text.iter().any(|byte| is_wildcard(*byte))
}

// The offset of the first wildcard.
fn first_wildcard(text: &[u8]) -> Option<usize>
    ensures { result ≡ position is_wildcard text.now }
{
    text.iter().position(|byte| is_wildcard(*byte))
}

fn is_wildcard(byte: u8) -> bool
    ensures { result ≡ is_wildcard byte }
{
    matches!(byte, b'*' | b'?' | b'[' | b'\\')
}

// What follows the star of a text that is one star and literal bytes.
fn after_star(text: &[u8]) -> &[u8]
    ensures { result.now ≡ drop 1 text.now }
{
    match text {
        [] => text,
        [_, tail @ ..] => tail,
    }
}

// Whether the texts are the same, under `Fold` but for the case of their letters.
pub(crate) fn same_text(case: Case, x: &[u8], y: &[u8]) -> bool
    ensures bytes { result ≡ pointwise (same_byte case) x.now y.now }
    ensures texts { result ≡ same_text case x.now y.now }
{
    match case {
        Case::Sensitive => x == y,
        Case::Fold => x.eq_ignore_ascii_case(y),
    }
}

// Whether the value begins with these bytes, under this case.
fn starts_with(value: &[u8], front: &[u8], case: Case) -> bool
    ensures { result ≡ starts_with (same_byte case) value.now front.now }
{
    front.len() <= value.len() && same_text(case, front, &value[..front.len()])
}

// Whether the value ends with these bytes, under this case.
fn ends_with(value: &[u8], end: &[u8], case: Case) -> bool
    ensures { result ≡ ends_with (same_byte case) value.now end.now }
{
    end.len() <= value.len() && same_text(case, end, &value[value.len() - end.len()..])
}

// Whether the value is any bytes but slashes, and then this end, under this case.
fn is_star_then(value: &[u8], end: &[u8], case: Case) -> bool
    ensures { result ≡ ends_after_star case value.now end.now }
{
    let before = &value[..value.len().saturating_sub(end.len())];
    ends_with(value, end, case) && !has_slash(before)
}

/// The offset of a path's base name, in bytes from 0: after the last slash. None without a slash.
pub fn base_name_offset(path: &[u8]) -> Option<usize>
    ensures { result ≡ base_name_offset path.now }
{
    match path.rfind_byte(b'/') {
        Some(slash) => Some(slash + 1),
        None => None,
    }
}

/// The base name of a path: what follows its last slash, and all of a path without one. `basename_pos` is the path's
/// `base_name_offset`, so that the path is not read again.
pub fn base_name(path: &[u8], basename_pos: Option<usize>) -> &[u8]
    requires { basename_pos ≡ base_name_offset path.now }
    ensures { result.now ≡ base_name path.now }
{
    match basename_pos {
        Some(offset) => &path[offset..],
        None => path,
    }
}

/// A law: the test that computes whether a pattern matches a path decides the relation.
pub fn test_tells_path_match(pattern: &Pattern, path: BStr<'_>, is_dir: Option<bool>, case: Case)
    ensures { IsTrue (path_matches case (pattern_view pattern.now) (bstr_bytes path.entry) is_dir) ↔
        PathMatches case (pattern_view pattern.now) (bstr_bytes path.entry) is_dir }
{}
