//! Steps of an engine: lists are added and removed, names are selected, paths are asked for, and what it returns is reported.

use bstr::BStr;
use gix_attributes::engine::{Addition, Below, Engine, Question};
use gix_attributes::glob::pattern::Case;
use gix_attributes::search::{AttributeId, Match};
use list_rows::fault::Fault;
use list_rows::row::Row;
use list_rows::scene::Stage;
use std::alloc::{AllocError, Global};
use std::fmt::Write;

/// An engine of which steps ask.
#[derive(Drop)]
pub(crate) struct Asked {
    engine: Box<Engine>,
}

impl Asked {
    /// An engine without lists of its own.
    pub(crate) fn new(alloc: Global) -> Result<Asked, AllocError> {
        let engine = Box::new(alloc, Engine::new(alloc)?)?;
        Ok(Asked { engine })
    }
}

impl Stage for Asked {
    fn take(&mut self, step: &Row, out: &mut String) -> Result<(), Fault> {
        let (alloc, engine) = (*out.allocator(), &mut *self.engine);
        match step.text(0) {
            // `add | SOURCE | FILE` adds the lines of a file, which is seen from the top directory.
            "add" => engine.add(alloc, addition(step, Some(""), true))?,
            // `add_without_macros | SOURCE | FILE` adds lines that apply to all paths, and may define no macros.
            "add_without_macros" => engine.add(alloc, addition(step, None, false))?,
            // `add_below | SOURCE | DIRECTORY | FILE`
            "add_below" => engine.add_below(alloc, list_below(step, true))?,
            "add_below_without_macros" => engine.add_below(alloc, list_below(step, false))?,
            // Removes the last list, and reports whether there was one.
            "pop" => writeln!(out, "{}", engine.pop())?,
            // `select | NAME | ..` selects these names, and all if there are none.
            "select" => engine.select(alloc, &step.texts(alloc, 1)?)?,
            // `ask | PATH | CASE` reports the number of answers for a path that is no directory.
            "ask" => ask(engine, question(step, step.case(2)?, false), out)?,
            "ask_directory" => ask(engine, question(step, Case::Sensitive, true), out)?,
            _ => return report(engine, step, out),
        }
        Ok(())
    }

    fn push_state(&self, _step: &Row, out: &mut String) -> Result<(), AllocError> {
        writeln!(out, "{}", self.engine.num_answers())
    }
}

fn report(engine: &Engine, step: &Row, out: &mut String) -> Result<(), Fault> {
    match step.text(0) {
        // Each answer with its line and the macro that it comes from.
        "rows" => {
            for found in engine.answers() {
                push_found(engine, Some(found), out)?;
            }
        }
        // `row | INDEX`: that answer.
        "row" => push_found(engine, engine.answer(step.number(1)?), out)?,
        // `found | NUMBER`: what is found for the attribute with that number.
        "found" => push_found(engine, engine.found(AttributeId(step.number(1)?)), out)?,
        // `number | INDEX`: the number of the attribute of that answer.
        "number" => match engine.number_of(step.number(1)?) {
            Some(id) => writeln!(out, "{}", id.0)?,
            None => out.push_str("none\n")?,
        },
        // How many names there are.
        "names" => writeln!(out, "{}", engine.num_names())?,
        // `name | NUMBER`
        "name" => {
            let id = AttributeId(step.number(1)?);
            writeln!(out, "{}", engine.name_of(id).unwrap_or("none"))?;
        }
        // The lines that were dropped of the last list.
        "dropped" => {
            for dropped in engine.dropped() {
                writeln!(out, "{} {:?}", dropped.line, dropped.reason)?;
            }
        }
        _ => return Err(Fault::NotARow),
    }
    Ok(())
}

/// A list that a step adds: `.. | SOURCE | FILE`.
pub(crate) fn addition<'a>(
    step: &'a Row,
    root: Option<&'a str>,
    allow_macros: bool,
) -> Addition<'a> {
    Addition {
        allow_macros,
        source: step.text(1),
        root,
        buffer: step.bytes(2),
    }
}

fn list_below(step: &Row, allow_macros: bool) -> Below<'_> {
    Below {
        allow_macros,
        source: step.text(1),
        base: Some(step.bytes(2)),
        buffer: step.bytes(3),
    }
}

fn question(step: &Row, case: Case, is_dir: bool) -> Question<'_> {
    Question {
        path: BStr::new(step.bytes(1)),
        case,
        is_dir: Some(is_dir),
    }
}

fn ask(engine: &mut Engine, question: Question<'_>, out: &mut String) -> Result<(), AllocError> {
    let count = engine.ask(*out.allocator(), question)?;
    writeln!(out, "{count}")
}

// `-diff .gitattributes:2 binary`: the assignment, the source and the line, and the macro that it comes from.
fn push_found(engine: &Engine, found: Option<Match<'_>>, out: &mut String) -> Result<(), Fault> {
    let Some(found) = found else {
        return Ok(out.push_str("none\n")?);
    };
    let (item, line) = (found.assignment, found.location.sequence_number);
    let source = found.location.source.unwrap_or("-");
    let macro_name = match found.kind.source_id() {
        Some(id) => engine.name_of(id).unwrap_or("?"),
        None => "-",
    };
    Ok(writeln!(out, "{item} {source}:{line} {macro_name}")?)
}
