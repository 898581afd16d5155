//! A run of a script: read it, apply its records, and write the text in pieces.

ghost use Rattle.std.specs.Prelude.{◌≡◌, ◌≢◌, ◌⊎◌, ℕ, [], None, Some, Err, OnOk, IsErrOf};
ghost use Rattle.std.specs.Io.KnownBytes.{IsAtEnd};
ghost use Rattle.check_attr.specs.Outcomes.{CountsReads, CountsWrites, ReadsInputFirst};
ghost use Rattle.check_attr.specs.Program.{Plays};
ghost use Rattle.check_attr.specs.ScriptStates.{next_state};
ghost use Rattle.check_attr.specs.ScriptText.{AppendsFrontFrom, AppendsTextFrom, WritesText, WritesTextFront};
ghost use Rattle.check_attr.specs.inner.Whole.{ReadsAllFirst};
ghost use Rattle.check_attr.specs.inner.PassedText.{PassesAnswers, PassesRecord, PassesScript, PlaysInMemory};
ghost use Rattle.check_attr.specs.inner.ScriptViews.{question_view, record_view};

use crate::answers::pass_answers;
use crate::dropped_lines::pass_dropped;
use crate::fault::Fault;
use crate::global_lists::Globals;
use crate::held::Held;
use crate::reading::{Pull, read_all};
use crate::script::{Question, Record, record_of};
use crate::writing::{Push, write_all};
use gix_attributes::engine::Engine;
use std::alloc::Global;

/// Runs a script over global lists: adds and removes lists, selects names, and looks up paths. The
/// whole script is read before anything is written. The text is written in pieces, one whenever
/// 65,536 bytes are held, and flushed once, at the end.
///
/// # Errors
///
/// `Record` if a record is malformed: the text of those before it was written and flushed. `Read` if
/// the reader failed: nothing was written. `Write` if the writer failed or took no byte, and
/// `OutOfMemory` if a buffer could not grow: a beginning of the text may be written, and what was
/// held is dropped. A call that failed isn't tried again.
pub fn run<R: Pull, W: Push>(
    alloc: Global,
    reader: &mut R,
    writer: &mut W,
    globals: Globals,
) -> Result<(), Fault>
    ensures ok { OnOk result (WritesText globals (R.remaining reader.old) None
        (W.contents writer.old) (W.contents writer.new)) }
    ensures malformed { (k : ℕ) → result ≡ Err (Fault.Record k) →
        WritesText globals (R.remaining reader.old) (Some k)
        (W.contents writer.old) (W.contents writer.new) }
    ensures front { (IsErrOf result Fault.Write ⊎ IsErrOf result Fault.OutOfMemory) →
        WritesTextFront globals (R.remaining reader.old)
        (W.contents writer.old) (W.contents writer.new) }
    ensures end { OnOk result (IsAtEnd (R.remaining reader.new)) }
    ensures end_before { (k : ℕ) → result ≡ Err (Fault.Record k) →
        IsAtEnd (R.remaining reader.new) }
    ensures first { ReadsInputFirst (R.remaining reader.new) writer.old writer.new }
    ensures flushed { OnOk result (W.Flushed writer.new) }
    ensures flushed_before { (k : ℕ) → result ≡ Err (Fault.Record k) → W.Flushed writer.new }
    ensures unread { IsErrOf result Fault.Read → writer.new ≡ writer.old }
    ensures reads { CountsReads result (R.failed reader.old) (R.failed reader.new) }
    ensures writes { CountsWrites result (W.failed writer.old) (W.failed writer.new)
        (W.stalled writer.old) (W.stalled writer.new) }
{
    let mut engine = globals.into_engine(alloc);
    run_over(alloc, reader, writer, &mut engine)
}

// Reads a script and plays it over an engine, which stays: the caller frees it, or lets it be if the process ends.
pub(crate) fn run_over<R: Pull, W: Push>(
    alloc: Global,
    reader: &mut R,
    writer: &mut W,
    engine: &mut Engine,
) -> Result<(), Fault>
    ensures plays { Plays W.contents W.failed W.stalled W.Flushed engine.old.state
        (R.remaining reader.old) writer.old writer.new result }
    ensures reader { ReadsAllFirst R.remaining R.failed reader.old reader.new
        writer.old writer.new result }
{
    let script = read_all(alloc, reader)?;
    play_over(alloc, &script, engine, writer)
}

/// Plays a script that is in memory over an engine: adds and removes lists, selects names, and looks
/// up paths. The text is written in pieces, one whenever 65,536 bytes are held, and flushed once, at
/// the end.
///
/// # Errors
///
/// `Record` if a record is malformed: the text of those before it was written and flushed. `Write` if
/// the writer failed or took no byte, and `OutOfMemory` if a buffer could not grow: a beginning of the
/// text may be written, and what was held is dropped.
pub fn play<W: Push>(
    alloc: Global,
    script: &[u8],
    mut engine: Engine,
    writer: &mut W,
) -> Result<(), Fault>
    ensures ok { OnOk result (AppendsTextFrom engine.state script.now None
        (W.contents writer.old) (W.contents writer.new)) }
    ensures malformed { (k : ℕ) → result ≡ Err (Fault.Record k) →
        AppendsTextFrom engine.state script.now (Some k)
        (W.contents writer.old) (W.contents writer.new) }
    ensures front { (IsErrOf result Fault.Write ⊎ IsErrOf result Fault.OutOfMemory) →
        AppendsFrontFrom engine.state script.now (W.contents writer.old) (W.contents writer.new) }
    ensures read { result ≢ Err Fault.Read }
    ensures flushed { OnOk result (W.Flushed writer.new) }
    ensures flushed_before { (k : ℕ) → result ≡ Err (Fault.Record k) → W.Flushed writer.new }
    ensures writes { CountsWrites result (W.failed writer.old) (W.failed writer.new)
        (W.stalled writer.old) (W.stalled writer.new) }
{
    play_over(alloc, script, &mut engine, writer)
}

// Plays a script over an engine, which stays. It is no part of its callers, where its loop would take more instructions.
#[inline(never)]
fn play_over<W: Push>(
    alloc: Global,
    script: &[u8],
    engine: &mut Engine,
    writer: &mut W,
) -> Result<(), Fault>
    ensures { PlaysInMemory W.contents W.failed W.stalled W.Flushed engine.old.state
        script.now writer.old writer.new result }
{
    let mut held = Held::new(alloc);
    let malformed = answer(alloc, script, engine, writer, &mut held)?;
    write_all(writer, held.text())?;
    match malformed {
        None => Ok(()),
        Some(number) => Err(Fault::Record(number)),
    }
}

// Writes the text of a script up to its first malformed record, in pieces. What is left of the text is in `held`.
// Returns the number of the malformed record, from 1.
#[inline(always)]
fn answer<W: Push>(
    alloc: Global,
    script: &[u8],
    engine: &mut Engine,
    writer: &mut W,
    held: &mut Held,
) -> Result<Option<usize>, Fault>
    requires { held.old ≡ [] }
    ensures { PassesScript W.contents W.failed W.stalled engine.old.state script.now
        writer.old writer.new held.new result }
{
    let mut rest = script;
    let mut number = 1;
    while !rest.is_empty() {
        let Some((next, others)) = record_of(alloc, rest)? else {
            return Ok(Some(number));
        };
        apply(engine, alloc, next, writer, held)?;
        rest = others;
        number += 1;
    }
    Ok(None)
}

// Applies a record, and passes on the text that it writes, after what is held.
fn apply<W: Push>(
    engine: &mut Engine,
    alloc: Global,
    next: Record<'_>,
    writer: &mut W,
    held: &mut Held,
) -> Result<(), Fault>
    ensures state { OnOk result (engine.new.state
        ≡ next_state (record_view next.entry) engine.old.state) }
    ensures text { PassesRecord W.contents W.failed W.stalled engine.old.state
        (record_view next.entry) writer.old writer.new held.old held.new result }
{
    match next {
        Record::Add(addition) => {
            engine.add(alloc, addition)?;
            pass_dropped(writer, held, addition.source, engine.dropped())
        }
        Record::Pop => {
            engine.pop();
            Ok(())
        }
        Record::Names(names) => {
            engine.select(alloc, &names)?;
            Ok(())
        }
        Record::Ask(question) => ask(engine, alloc, question, writer, held),
    }
}

fn ask<W: Push>(
    engine: &mut Engine,
    alloc: Global,
    question: Question<'_>,
    writer: &mut W,
    held: &mut Held,
) -> Result<(), Fault>
    ensures state { OnOk result (engine.new.state ≡ engine.old.state) }
    ensures text { PassesAnswers W.contents W.failed W.stalled engine.old.state
        (question_view question.entry) writer.old writer.new held.old held.new result }
{
    engine.ask(alloc, question.asked)?;
    pass_answers(alloc, writer, held, question, engine)
}
