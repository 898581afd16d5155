//! A line that matches a path, and one that has answered.

ghost use Rattle.std.specs.Prelude.{◌<◌, length};

use attr_glob::search::pattern::Index;
use attr_lists::types::TrackedAssignment;
use std::rc::Rc;

/// A line that matches, with its items.
#[derive(Clone, Copy)]
pub struct MatchingLine<'a> {
    /// The index of its list.
    pub index: &'a Rc<Index>,
    /// The offset of the line in its list, from 0.
    pub line: usize,
    /// The line's items.
    pub items: &'a [TrackedAssignment],
    ghost within: { line < length index.now.value.lines.items },
}

/// A line that has answered. It shares the index of its list, so nothing of it is copied.
#[derive(Drop)]
pub struct AnsweringLine {
    /// The index of its list.
    pub index: Rc<Index>,
    /// The offset of the line in its list, from 0.
    pub line: usize,
    ghost within: { line < length index.value.lines.items },
}
