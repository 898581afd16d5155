//! The keys of lines: what a path needs if a line may match it.

ghost use Rattle.std.specs.Prelude.{◌≡◌, drop, false, take};
ghost use Rattle.attr_keys.specs.shared.LineKeys.{line_content, no_text, prefix_of, shape_content, suffix_of};
ghost use Rattle.attr_keys.specs.shared.Meeting.{is_end, key_content};

use crate::key::{Key, Keyed, Subject};

/// The parts of a line's pattern that decide its key.
#[derive(Clone, Copy)]
pub struct Shape<'a> {
    /// The pattern's text, which is matched against paths or base names.
    pub text: &'a [u8],
    /// The offset of the first wildcard in the text, if it has one.
    pub wildcard: Option<usize>,
    /// Whether the line defines a macro, so that it matches no path.
    pub is_macro: bool,
    /// Whether the text is matched against base names.
    pub asks_name: bool,
    /// Whether the text is a star and literal bytes, which a base name has to end with.
    pub is_end: bool,
}

impl Keyed for Shape<'_> {
    ghost use Rattle.attr_keys.specs.shared.LineKeys.{line_content, shape_content};

    ghost content = { λ shape. line_content (shape_content shape) };

    #[inline]
    fn key(&self) -> Key<'_> {
        line_key(*self)
    }
}

/// The key of a line: what a path needs if the line may match it. It is a base name, the end of one, or else the bytes
/// of the pattern before its first wildcard.
#[inline]
pub fn line_key(shape: Shape<'_>) -> Key<'_>
    ensures { key_content result ≡ line_content (shape_content shape.entry) }
{
    if shape.is_macro {
        return no_text(Subject::Nothing);
    }
    if !shape.asks_name {
        return prefix(Subject::Path, shape.text, shape.wildcard);
    }
    if shape.is_end && shape.wildcard.is_some() {
        return suffix(after_star(shape.text));
    }
    prefix(Subject::Name, shape.text, shape.wildcard)
}

// The key of a pattern: the whole of its text, or the bytes before the first wildcard.
#[inline]
fn prefix(subject: Subject, text: &[u8], wildcard: Option<usize>) -> Key<'_>
    requires { is_end subject ≡ false }
    ensures { key_content result ≡ prefix_of subject text.now wildcard }
{
    match wildcard {
        None => Key {
            subject,
            text,
            is_whole: true,
        },
        Some(offset) => Key {
            subject: if offset == 0 {
                Subject::Anything
            } else {
                subject
            },
            text: before(text, offset),
            is_whole: false,
        },
    }
}

// The key of what base names end in. Each ends in the empty text.
#[inline]
fn suffix(text: &[u8]) -> Key<'_>
    ensures { key_content result ≡ suffix_of text.now }
{
    if text.is_empty() {
        return no_text(Subject::Anything);
    }
    Key {
        subject: Subject::End,
        text,
        is_whole: false,
    }
}

// The bytes before an offset, or all if there are fewer.
#[inline]
fn before(text: &[u8], offset: usize) -> &[u8]
    ensures { result.now ≡ take offset text.now }
{
    text.get(..offset).unwrap_or(text)
}

#[inline]
fn after_star(text: &[u8]) -> &[u8]
    ensures { result.now ≡ drop 1 text.now }
{
    text.get(1..).unwrap_or(&[])
}

#[inline]
fn no_text<'a>(subject: Subject) -> Key<'a>
    ensures { key_content result ≡ no_text subject }
{
    Key {
        subject,
        text: &[],
        is_whole: false,
    }
}
