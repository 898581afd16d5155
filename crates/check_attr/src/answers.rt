//! The text of the answers for a path, in the form of its question. It is written in pieces.

ghost use Rattle.std.specs.Prelude.{◌≡◌, ◌++◌, OnOk, [], codes, unwrap_or};
ghost use Rattle.std.specs.List.{flat_map};
ghost use Rattle.gix_attributes.specs.TextViews.{state_view};
ghost use Rattle.gix_attributes.specs.Matches.{match_view, cause_of};
ghost use Rattle.check_attr.specs.inner.Pieces.{FillsNoPiece, Passes};
ghost use Rattle.check_attr.specs.inner.MatchText.{match_entry};
ghost use Rattle.check_attr.specs.ScriptText.{info, cause_text, origin_text, answer_text};

use crate::fault::Fault;
use crate::held::Held;
use crate::script::{Form, Question};
use crate::writing::Push;
use gix_attributes::engine::Engine;
use gix_attributes::search::{Match, MatchKind};
use gix_attributes::{AssignmentRef, StateRef};
use std::alloc::{AllocError, Global};

/// Appends an entry to `held` for each answer to the last question, and writes `held` before each if it fills a piece.
///
/// # Errors
///
/// `Write` if a write failed or took no byte, and `OutOfMemory` if a buffer could not grow. A beginning of the text
/// may be written then.
pub fn pass_answers<W: Push>(
    alloc: Global,
    writer: &mut W,
    held: &mut Held,
    question: Question<'_>,
    engine: &Engine,
) -> Result<(), Fault>
    ensures { Passes W.contents W.failed W.stalled writer.old writer.new held.new
        (held.old ++ flat_map (match_entry question.entry engine.now)
        (unwrap_or engine.now.answers [])) result }
{
    for one in engine.answers() {
        held.write_full(writer)?;
        push_entry(alloc, held, question, engine, one)?;
    }
    Ok(())
}

// Appends an entry, before which less than a piece is held. So no more is held at any time than a piece and one entry.
fn push_entry(
    alloc: Global,
    held: &mut Held,
    question: Question<'_>,
    engine: &Engine,
    one: Match<'_>,
) -> Result<(), AllocError>
    requires { FillsNoPiece held.old }
    ensures { OnOk result (held.new
        ≡ held.old ++ match_entry question.entry engine.now (match_view one.entry)) }
{
    let path = question.asked.path.as_bytes();
    match question.form {
        Form::Line => push_line(held, path, one.assignment),
        Form::Zero => {
            push_answer(held, path, b"\0", one.assignment)?;
            held.push(b"\0")
        }
        Form::Origin => {
            push_answer(held, path, b": ", one.assignment)?;
            held.push(b"\t")?;
            push_origin(alloc, held, engine, one)?;
            held.push(b"\n")
        }
    }
}

// The path, the name and the state as a line. What follows the name is appended at once if it is one of few texts.
fn push_line(held: &mut Held, path: &[u8], assignment: AssignmentRef<'_>) -> Result<(), AllocError>
    ensures { OnOk result (held.new
        ≡ held.old ++ answer_text path.now (codes ": ") assignment.entry.name.text.now
        (state_view assignment.entry.state) ++ codes "\n") }
{
    held.push(path)?;
    held.push(b": ")?;
    held.push(assignment.name.as_str().as_bytes())?;
    match assignment.state {
        StateRef::Set => held.push(b": set\n"),
        StateRef::Unset => held.push(b": unset\n"),
        StateRef::Unspecified => held.push(b": unspecified\n"),
        StateRef::Value(value) => {
            held.push(b": ")?;
            held.push(value.as_bstr().as_bytes())?;
            held.push(b"\n")
        }
    }
}

// The path, the name and the state. It stays a call, so that the loop over answers is short for those that are lines.
#[inline(never)]
fn push_answer(
    held: &mut Held,
    path: &[u8],
    separator: &[u8],
    assignment: AssignmentRef<'_>,
) -> Result<(), AllocError>
    ensures { OnOk result (held.new
        ≡ held.old ++ answer_text path.now separator.now assignment.entry.name.text.now
        (state_view assignment.entry.state)) }
{
    held.push(path)?;
    held.push(separator)?;
    held.push(assignment.name.as_str().as_bytes())?;
    held.push(separator)?;
    push_info(held, assignment.state)
}

fn push_info(held: &mut Held, state: StateRef<'_>) -> Result<(), AllocError>
    ensures { OnOk result (held.new ≡ held.old ++ info (state_view state.entry)) }
{
    match state {
        StateRef::Set => held.push(b"set"),
        StateRef::Unset => held.push(b"unset"),
        StateRef::Value(value) => held.push(value.as_bstr().as_bytes()),
        StateRef::Unspecified => held.push(b"unspecified"),
    }
}

// The source, line and pattern that decided, and the macro. An attribute that no line assigns has none of these.
#[inline(never)]
fn push_origin(
    alloc: Global,
    held: &mut Held,
    engine: &Engine,
    one: Match<'_>,
) -> Result<(), AllocError>
    ensures { let m = match_view one.entry in OnOk result (held.new
        ≡ held.old ++ origin_text engine.now.state.names m.origin m.cause m.origin.source) }
{
    let Some(source) = one.location.source else {
        return held.push(b"-\t-\t-");
    };
    let line = one.location.sequence_number;
    held.push(source.as_bytes())?;
    held.push(b":")?;
    held.push_number(line)?;
    held.push(b"\t")?;
    let pattern = one.pattern.write_text(alloc)?;
    held.push(&pattern)?;
    held.push(b"\t")?;
    push_cause(held, engine, one.kind)
}

fn push_cause(held: &mut Held, engine: &Engine, kind: MatchKind) -> Result<(), AllocError>
    ensures { OnOk result (held.new
        ≡ held.old ++ cause_text engine.now.state.names (cause_of kind)) }
{
    match kind.source_id() {
        None => held.push(b"-"),
        Some(id) => held.push(engine.name_of(id).unwrap_or("").as_bytes()),
    }
}
