//! What a row's call answers, field by field.

use crate::fault::Fault;
use bstr::BStr;
use std::alloc::Global;
use std::fmt::Display;
use std::io::Write;

/// The fields of an answer, each with a bar behind it.
#[derive(Drop)]
pub struct Answer {
    /// What gives its memory.
    pub alloc: Global,
    fields: Vec<u8>,
}

impl Answer {
    /// No field.
    pub fn new(alloc: Global) -> Answer {
        Answer {
            alloc,
            fields: Vec::new(alloc),
        }
    }

    /// The fields as one text.
    pub fn as_bstr(&self) -> BStr<'_> {
        BStr::new(&self.fields)
    }

    /// Adds a field of these bytes.
    pub fn bytes(&mut self, bytes: &[u8]) -> Result<(), Fault> {
        self.fields.extend_from_slice(bytes)?;
        Ok(self.fields.push(b'|')?)
    }

    /// Adds a field with this text.
    pub fn text(&mut self, text: &str) -> Result<(), Fault> {
        self.bytes(text.as_bytes())
    }

    /// Adds a field with a value as it is printed.
    pub fn shown<T: Display + Drop>(&mut self, value: T) -> Result<(), Fault> {
        Ok(write!(self.fields, "{value}|")?)
    }

    /// Adds a field with an index, or a hyphen.
    pub fn index(&mut self, index: Option<usize>) -> Result<(), Fault> {
        match index {
            Some(index) => self.shown(index),
            None => self.text("-"),
        }
    }

    /// Adds a field with values as they are printed, between which are blanks.
    pub fn words<T: Display>(&mut self, values: &[T]) -> Result<(), Fault> {
        let mut text = Vec::new(self.alloc);
        for value in values {
            write!(text, "{value} ")?;
        }
        self.bytes(text.trim_ascii())
    }

    /// Adds a field with `yes` or `no`.
    pub fn flag(&mut self, is_so: bool) -> Result<(), Fault> {
        self.text(if is_so { "yes" } else { "no" })
    }
}
