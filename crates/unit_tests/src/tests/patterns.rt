//! Patterns that are read from no text, and lists that are rid of their macros.
use attr_glob::pattern::{Case, Mode, base_name_offset};
use attr_glob::{Pattern, search};
use attr_lists::parser::{Attributes, macros_valid};
use bitflags::Flags;
use bstr::BStr;
use search::Pattern as _;
use std::alloc::{AllocError, Global};

/// A pattern, of which no text has to be read.
pub(super) fn pattern(
    alloc: Global,
    text: &[u8],
    mode: Mode,
    first_wildcard_pos: Option<usize>,
) -> Result<Pattern, AllocError> {
    let text = Vec::from_slice(alloc, text)?;
    Ok(Pattern {
        text,
        mode,
        first_wildcard_pos,
    })
}

// Texts, the bits of their modes (2 is `ENDS_WITH`), and offsets of wildcards.
const BUILT_BY_HAND: &[(&str, u32, Option<usize>)] = &[
    ("", 2, Some(0)),
    ("ab", 2, Some(9)),
    ("*", u32::MAX, None),
    ("[", 0, Some(1)),
    ("a", u32::MAX, Some(usize::MAX)),
];

// Such patterns return, whatever they answer.
#[test]
fn patterns_built_by_hand_return(rt: HostRuntime) -> Result<(), AllocError> {
    let path = b"d/ab";
    let (alloc, offset) = (rt.alloc(), base_name_offset(path));
    for &(text, bits, wildcard) in BUILT_BY_HAND {
        let mode = Mode::from_bits_retain(bits);
        let pattern = pattern(alloc, text.as_bytes(), mode, wildcard)?;
        let (path, is_dir) = (BStr::new(path), Some(true));
        let _answer = pattern.matches_repo_relative_path(alloc, path, offset, is_dir, Case::Fold)?;
    }
    Ok(())
}

#[test]
fn names_of_macros_are_tested(rt: HostRuntime) -> Result<(), AllocError> {
    let (mut mappings, _) = Attributes.bytes_to_patterns(rt.alloc(), b"[attr]m x\n* m", "")?;
    let were_valid = macros_valid(&mappings);
    for mapping in mappings.iter_mut() {
        mapping.pattern.text.push(b'=')?;
    }
    let are_valid = macros_valid(&mappings);
    assert_eq!(rt; (were_valid, are_valid), (true, false));
    Ok(())
}
