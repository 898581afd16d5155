//! Scenes: rows that are blocks of lines. A line is a step, with its fields, or `= TEXT`, which is a line that the steps have to
//! report. A line that begins with `#` is a comment; the first one names the row.

use crate::answer::Answer;
use crate::fault::Fault;
use crate::row::{Row, push_decoded};
use std::alloc::AllocError;

/// What the steps of a scene are taken on.
pub trait Stage {
    /// Takes a step, and reports what it has to.
    ///
    /// # Errors
    /// [`Fault::NotARow`] if there is no such step, or a call's requirement isn't met; memory is refused.
    fn take(&mut self, step: &Row, out: &mut String) -> Result<(), Fault>;

    /// Pushes what a step that finds no memory has to leave as it was.
    fn push_state(&self, step: &Row, out: &mut String) -> Result<(), AllocError>;
}

/// Takes the steps of a scene, and reports what they have to.
///
/// # Errors
/// A step has one; a step that found no memory changed what it was taken on.
pub fn take_all<S: Stage>(stage: &mut S, scene: &str, out: &mut String) -> Result<(), Fault> {
    let alloc = *out.allocator();
    for line in scene.split('\n') {
        if !line.is_empty() && !line.starts_with('#') && !line.starts_with('=') {
            let step = Row::read(alloc, line)?;
            take_twice(stage, &step, out)?;
        }
    }
    Ok(())
}

/// Adds a field with what the steps of a scene have to report.
pub fn push_wanted(scene: &str, wanted: &mut Answer) -> Result<(), Fault> {
    let mut text = Vec::new(wanted.alloc);
    for line in scene.split('\n') {
        if let Some(line) = line.strip_prefix('=') {
            push_decoded(line.trim_ascii(), &mut text)?;
            text.push(b'\n')?;
        }
    }
    wanted.bytes(&text)
}

// What `push_state` reports of an engine that a question left without answers.
const NO_ANSWERS: &str = "0\n";

// A step that finds no memory leaves what it is taken on as it was, and is taken again. But a question to an engine may leave no
// answers. A short report has its memory before the step, so that none is refused once the step is taken.
fn take_twice<S: Stage>(stage: &mut S, step: &Row, out: &mut String) -> Result<(), Fault> {
    let alloc = *out.allocator();
    let (mut before, mut report) = (String::new(alloc), String::with_capacity(alloc, 64)?);
    stage.push_state(step, &mut before)?;
    let taken = stage.take(step, &mut report);
    if taken != Err(Fault::OutOfMemory) {
        out.push_str(&report)?;
        return taken;
    }
    report.clear();
    stage.push_state(step, &mut report)?;
    if report != before && report.as_str() != NO_ANSWERS {
        return Err(Fault::Changed);
    }
    match stage.take(step, out) {
        Err(Fault::OutOfMemory) => Err(Fault::Changed),
        taken => taken,
    }
}
