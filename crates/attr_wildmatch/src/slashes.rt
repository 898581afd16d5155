//! Slashes in texts.

ghost use Rattle.std.specs.Prelude.{◌≡◌};
ghost use Rattle.std.specs.List.{list_any};
ghost use Rattle.attr_wildmatch.specs.Slashes.{is_slash, ends_in_slash};

use std::simd::prelude::*;

/// Whether the last byte of the text is a slash. The empty text has none.
pub fn ends_in_slash(text: &[u8]) -> bool
    ensures { result ≡ ends_in_slash text.now }
{
    text.last() == Some(&b'/')
}

/// Whether a byte of the text is a slash: eight are compared together.
pub fn has_slash(text: &[u8]) -> bool
    ensures { result ≡ list_any is_slash text.now }
{
    let mut rest = text;
    while rest.len() >= 8 {
        if u8x8::from_slice(rest).simd_eq(u8x8::splat(b'/')).any() {
            return true;
        }
        rest = &rest[8..];
    }
    for byte in rest {
        if *byte == b'/' {
            return true;
        }
    }
    false
}
