//! Steps of an index of keys: lines are added, and those of a name and a path are looked up.

ghost use Rattle.std.specs.Prelude.{IfOk, map};
ghost use Rattle.attr_keys.specs.shared.KeyIndexes.{IsKeyIndex};
ghost use Rattle.attr_keys.specs.shared.LineKeys.{line_content, shape_content};

use crate::fault::Fault;
use crate::row::Row;
use crate::scene::Stage;
use attr_glob::pattern::Case;
use attr_keys::key::Texts;
use attr_keys::key_index::KeyIndex;
use attr_keys::kinds::Kinds;
use attr_keys::line_key::Shape;
use std::alloc::{AllocError, Global};
use std::fmt::Write;

/// The lines that were added: the text of each, and what else is known of it.
#[derive(Drop)]
pub struct Keys {
    lines: Vec<(Vec<u8>, Shape<'static>)>,
}

impl Keys {
    /// No lines.
    pub fn new(alloc: Global) -> Keys {
        let lines = Vec::new(alloc);
        Keys { lines }
    }

    fn push_found(&self, step: &Row, out: &mut String) -> Result<(), Fault> {
        let alloc = *out.allocator();
        let lines = self.lines.iter();
        let shapes = lines.map(|(text, rest)| Shape { text, ..*rest });
        let shapes: Vec<Shape<'_>> = shapes.collect(alloc)?;
        let texts = Texts {
            name: step.bytes(1),
            path: step.bytes(2),
            fold: step.case(3)? == Case::Fold,
        };
        let (mut buffer, mut found) = (Vec::new(alloc), Vec::new(alloc));
        index_of(alloc, &shapes)?.find(&shapes, texts, &mut buffer, &mut found)?;
        Ok(writeln!(out, "{found:?}")?)
    }
}

// The index of lines with these shapes.
fn index_of(alloc: Global, lines: &[Shape<'_>]) -> Result<KeyIndex, AllocError>
    ensures { IfOk result (IsKeyIndex
        (map (λ line. line_content (shape_content line)) lines.now)) }
{
    let mut kinds = Kinds::new(alloc, lines.len())?;
    for line in lines {
        kinds.push(line)?;
    }
    KeyIndex::of(alloc, lines, kinds)
}

impl Stage for Keys {
    fn take(&mut self, step: &Row, out: &mut String) -> Result<(), Fault> {
        match step.text(0) {
            // `line | KIND | TEXT | WILDCARD` adds a line, whose first wildcard is at this offset or nowhere.
            "line" => {
                let text = Vec::from_slice(*out.allocator(), step.bytes(2))?;
                Ok(self.lines.push((text, shape_without_text(step)?))?)
            }
            // `find | NAME | PATH | CASE` reports the lines that are found, last to first.
            "find" => self.push_found(step, out),
            _ => Err(Fault::NotARow),
        }
    }

    fn push_state(&self, _step: &Row, out: &mut String) -> Result<(), AllocError> {
        writeln!(out, "{}", self.lines.len())
    }
}

fn shape_without_text(step: &Row) -> Result<Shape<'static>, Fault> {
    let (is_macro, asks_name, is_end) = match step.text(1) {
        "name" => (false, true, false),
        "path" => (false, false, false),
        "end" => (false, true, true),
        "macro" => (true, true, true),
        _ => return Err(Fault::NotARow),
    };
    Ok(Shape {
        text: b"",
        wildcard: step.index(3)?,
        is_macro,
        asks_name,
        is_end,
    })
}
