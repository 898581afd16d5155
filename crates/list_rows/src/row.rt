//! A row: fields that stand on one line with bars between them, and the bytes that each stands for.
//!
//! Blanks at the ends of a field don't count. `\n`, `\t`, `\r`, `\\` and `\x41` stand for a byte as in Rust. `{3 ab}` is
//! `ababab`; in the braces `\#` stands for the number of the repetition, from 0, `\4` for that number in four digits, and `\+`
//! for it from 1.

use crate::fault::Fault;
use attr_glob::pattern::Case;
use std::alloc::{AllocError, Global};
use std::io::Write;

/// The fields of a line.
#[derive(Drop)]
pub struct Row {
    fields: Vec<Vec<u8>>,
}

impl Row {
    /// Reads a line.
    pub fn read(alloc: Global, line: &str) -> Result<Row, Fault> {
        let mut fields = Vec::new(alloc);
        for text in line.split('|') {
            let mut field = Vec::new(alloc);
            push_decoded(text.trim_ascii(), &mut field)?;
            fields.push(field)?;
        }
        Ok(Row { fields })
    }

    /// The bytes of a field, none if there is no such field.
    pub fn bytes(&self, index: usize) -> &[u8] {
        self.fields.get(index).map_or(b"", |field| field.as_slice())
    }

    /// The text of a field, empty if it is no UTF-8.
    pub fn text(&self, index: usize) -> &str {
        str::from_utf8(self.bytes(index)).unwrap_or("")
    }

    /// The text of a field, nothing if that is a hyphen.
    pub fn optional(&self, index: usize) -> Option<&str> {
        Some(self.text(index)).filter(|text| *text != "-")
    }

    /// The number in a field.
    pub fn number(&self, index: usize) -> Result<usize, Fault> {
        number_of(self.text(index))
    }

    /// The number in a field, nothing if there is a hyphen.
    pub fn index(&self, index: usize) -> Result<Option<usize>, Fault> {
        self.optional(index).map(number_of).transpose()
    }

    /// The number in a field, or 0 if there is no such field.
    pub fn number_or_zero(&self, index: usize) -> Result<usize, Fault> {
        let field = self.fields.get(index);
        field.map_or(Ok(0), |_| self.number(index))
    }

    /// The case in a field, `exact` or `fold`.
    pub fn case(&self, index: usize) -> Result<Case, Fault> {
        match self.text(index) {
            "exact" => Ok(Case::Sensitive),
            "fold" => Ok(Case::Fold),
            _ => Err(Fault::NotARow),
        }
    }

    /// The texts of the fields behind the first ones.
    pub fn texts(&self, alloc: Global, count: usize) -> Result<Vec<&str>, AllocError> {
        let indexes = count..self.fields.len();
        indexes.map(|index| self.text(index)).collect(alloc)
    }

    /// The fields behind the first ones.
    pub fn rest(&self, count: usize) -> &[Vec<u8>] {
        self.fields.get(count..).unwrap_or(&[])
    }
}

/// The number that a text is.
pub fn number_of(text: &str) -> Result<usize, Fault> {
    text.parse().or(Err(Fault::NotARow))
}

/// The words of a text, between which are blanks. `''` is the empty one.
pub fn words_of(alloc: Global, text: &str) -> Result<Vec<String>, AllocError> {
    text.split(' ')
        .filter(|word| !word.is_empty())
        .map(|word| String::from_str(alloc, if word == "''" { "" } else { word }))
        .try_collect(alloc)
}

/// Pushes the bytes that a text stands for. Between braces stand how often, and what; a text without braces repeats nothing.
pub fn push_decoded(text: &str, out: &mut Vec<u8>) -> Result<(), Fault> {
    for piece in text.split('}') {
        let (once, repeated) = piece.split_once('{').unwrap_or((piece, "0 "));
        let (times, part) = repeated.split_once(' ').ok_or(Fault::NotARow)?;
        push_escaped(once, 0, out)?;
        for number in 0..number_of(times)? {
            push_escaped(part, number, out)?;
        }
    }
    Ok(())
}

// What is behind two backslashes is plain, as what is before the first.
fn push_escaped(text: &str, number: usize, out: &mut Vec<u8>) -> Result<(), Fault> {
    let mut is_plain = true;
    for piece in text.split('\\') {
        if is_plain {
            out.extend_from_slice(piece.as_bytes())?;
        } else {
            push_escape(piece, number, out)?;
        }
        is_plain = !is_plain && piece.is_empty();
    }
    if is_plain {
        Err(Fault::NotARow)
    } else {
        Ok(())
    }
}

// What stands for a backslash and this text, which begins with an escape's character. Without any it is a backslash.
fn push_escape(text: &str, number: usize, out: &mut Vec<u8>) -> Result<(), Fault> {
    let length = text.len().min(1);
    let (escape, mut rest) = text.split_at_checked(length).ok_or(Fault::NotARow)?;
    match escape {
        "" => out.push(b'\\')?,
        "n" => out.push(b'\n')?,
        "t" => out.push(b'\t')?,
        "r" => out.push(b'\r')?,
        "#" => write!(out, "{number}")?,
        "+" => write!(out, "{}", number.saturating_add(1))?,
        "4" => write!(out, "{number:04}")?,
        "x" => {
            let (digits, behind) = rest.split_at_checked(2).ok_or(Fault::NotARow)?;
            out.push(u8::from_str_radix(digits, 16).or(Err(Fault::NotARow))?)?;
            rest = behind;
        }
        _ => return Err(Fault::NotARow),
    }
    Ok(out.extend_from_slice(rest.as_bytes())?)
}
