//! The program `check_attr`: its arguments, its statuses, and its texts on standard error.
ghost use Rattle.std.specs.Prelude.{◌≡◌, ◌≤◌, ◌⊎◌, ⊤, List, Result, IfOk, IfErr, IsTrue, ◌↔◌, map, string_bytes};
ghost use Rattle.gix_attributes.specs.Additions.{IsIo};
ghost use Rattle.gix_attributes.specs.Failures.{Fails};
ghost use Rattle.gix_attributes.specs.FileReads.{FileRead, names_read};
ghost use Rattle.check_attr.specs.GlobalFiles.{CountsDevice, ReadsNames, RefusesNames, all_dropped_text, loaded_from};
ghost use Rattle.check_attr.specs.Outcomes.{ReadsInputFirst, UsesReader, UsesWriter};
ghost use Rattle.check_attr.specs.inner.Whole.{WritesFlushed};
ghost use Rattle.check_attr.specs.Program.{IsLinesAlone, Prints, PrintsOutcome, WritesLinesOutcome, WritesOutcome, fault_line, refusal_line, status_after};

use crate::dropped_lines::push_dropped;
use crate::fault::Fault;
use crate::global_lists::{Globals, read_globals};
use crate::held::Held;
use crate::line_report::lines;
use crate::reading::Pull;
use crate::script_run::run_over;
use crate::writing::{Push, write_all, write_bytes};
use gix_attributes::files::Files;
use gix_attributes::search::{AddError, Dropped};
use itoa::Buffer;
use std::alloc::{AllocError, Global};
use std::mem::forget;

/// Runs the program with the arguments after its name, and returns its status. If the one argument
/// is `--lines`, it runs [`lines`]. Else the arguments are names of global files, and it runs a
/// script over their lists, as [`run`](crate::run) does. It does not free the lists, since the process
/// is to end.
///
/// The status is 0 after success, 2 after a malformed record and else 1. The lines that global files
/// drop are printed on `errors` before the script is read, and at the end a line for a run that
/// ended early. A failure of `errors` is ignored.
pub fn program<F: Files, R: Pull, W: Push, E: Push>(
    alloc: Global,
    files: &mut F,
    args: &[String],
    reader: &mut R,
    writer: &mut W,
    errors: &mut E,
) -> u8
    ensures lines { IsLinesAlone args.now →
        (files.new ≡ files.old)
        × (outcome : Result ⊤ Fault) × (result ≡ status_after outcome)
        × WritesLinesOutcome (R.remaining reader.old)
        (W.contents writer.old) (W.contents writer.new) outcome
        × UsesReader R.remaining R.failed reader.old reader.new outcome
        × UsesWriter W.failed W.stalled W.Flushed writer.old writer.new outcome
        × PrintsOutcome E.contents E.failed E.stalled E.Flushed errors.old errors.new outcome }

    // If the device fails or memory runs out, the global files are not read, nor is the script.
    // Else the lines that they drop are printed, and the script runs over their lists.
    ensures script { (IsLinesAlone args.now → ⊥) →
        ((e : AddError) × (result ≡ 1) × (reader.new ≡ reader.old) × (writer.new ≡ writer.old)
        × RefusesNames F.reads (map string_bytes args.now) files.old files.new e
        × (IsIo e → Fails (F.failed files.old) (F.failed files.new))
        × Prints E.contents E.failed E.stalled E.Flushed errors.old errors.new (refusal_line e))
        ⊎ ((read : List FileRead)
        × ReadsNames F.reads (map string_bytes args.now) files.old read files.new
        × (warned : E) × Prints E.contents E.failed E.stalled E.Flushed errors.old warned
        (all_dropped_text (names_read read) (loaded_from read).dropped)
        × (outcome : Result ⊤ Fault) × (result ≡ status_after outcome)
        × WritesOutcome (loaded_from read) (R.remaining reader.old)
        (W.contents writer.old) (W.contents writer.new) outcome
        × UsesReader R.remaining R.failed reader.old reader.new outcome
        × UsesWriter W.failed W.stalled W.Flushed writer.old writer.new outcome
        × PrintsOutcome E.contents E.failed E.stalled E.Flushed warned errors.new outcome) }
    ensures first { ReadsInputFirst (R.remaining reader.new) writer.old writer.new }
    ensures count { F.failed files.old ≤ F.failed files.new }
{
    if is_lines_alone(args) {
        let outcome = lines(alloc, reader, writer);
        return finish(errors, &outcome);
    }
    match load(alloc, files, args) {
        Ok((globals, report)) => {
            print(errors, report.text());
            let mut engine = globals.into_engine(alloc);
            let outcome = run_over(alloc, reader, writer, &mut engine);

            // The process ends, and the system takes its memory back faster than the lists are freed one by one.
            forget(engine);
            finish(errors, &outcome)
        }
        Err(error) => {
            print(errors, refusal_line(&error).as_bytes());
            1
        }
    }
}

// The global lists, and the text of the lines that their files drop.
fn load<F: Files>(
    alloc: Global,
    files: &mut F,
    names: &[String],
) -> Result<(Globals, Held), AddError>
    ensures loaded { IfOk result (λ r. (read : List FileRead)
        × ReadsNames F.reads (map string_bytes names.now) files.old read files.new
        × (r.0 ≡ loaded_from read)
        × (r.1 ≡ all_dropped_text (map string_bytes names.now) r.0.dropped)) }
    ensures refused { IfErr result (λ e.
        RefusesNames F.reads (map string_bytes names.now) files.old files.new e) }
    ensures counts { CountsDevice (F.failed files.old) (F.failed files.new) result }
{
    let globals = read_globals(alloc, files, names)?;
    let report = dropped_report(alloc, names, globals.dropped())?;
    Ok((globals, report))
}

// A line for each line that the file of one of these names drops.
fn dropped_report(
    alloc: Global,
    names: &[String],
    dropped: &[Vec<Dropped>],
) -> Result<Held, AllocError>
    ensures { IfOk result (λ held. held
        ≡ all_dropped_text (map string_bytes names.now) (map (λ lines. lines.items) dropped.now)) }
{
    let mut held = Held::new(alloc);
    for (name, lines) in names.iter().zip(dropped) {
        push_dropped(&mut held, name, lines)?;
    }
    Ok(held)
}

fn is_lines_alone(args: &[String]) -> bool
    ensures { IsTrue result ↔ IsLinesAlone args.now }
{
    match args {
        [only] => only.as_str() == "--lines",
        _ => false,
    }
}

// Prints why a run ended early, if it did, and returns the status.
fn finish<E: Push>(errors: &mut E, outcome: &Result<(), Fault>) -> u8
    ensures status { result ≡ status_after outcome.now }
    ensures printed { PrintsOutcome E.contents E.failed E.stalled E.Flushed
        errors.old errors.new outcome.now }
{
    match outcome {
        Ok(()) => 0,
        Err(fault) => {
            print_fault(errors, fault);
            match fault {
                Fault::Record(_) => 2,
                Fault::Read | Fault::Write | Fault::OutOfMemory => 1,
            }
        }
    }
}

// Prints why a run ended early. It takes no memory, since there may be none.
fn print_fault<E: Push>(errors: &mut E, fault: &Fault)
    ensures { Prints E.contents E.failed E.stalled E.Flushed errors.old errors.new
        (fault_line fault.now) }
{
    match fault {
        Fault::Record(number) => {
            let _ = write_malformed(errors, *number);
        }
        Fault::Read => print(errors, b"check_attr: reading failed\n"),
        Fault::Write => print(errors, b"check_attr: writing failed\n"),
        Fault::OutOfMemory => print(errors, b"check_attr: out of memory\n"),
    }
}

fn write_malformed<E: Push>(errors: &mut E, number: usize) -> Result<(), Fault>
    ensures { WritesFlushed E.contents E.failed E.stalled E.Flushed errors.old errors.new
        (fault_line (Fault.Record number)) result }
{
    let mut digits = Buffer::new();
    write_bytes(errors, b"check_attr: malformed record ")?;
    write_bytes(errors, digits.format(number).as_bytes())?;
    write_all(errors, b"\n")
}

// Why the global files are not read.
fn refusal_line<'a>(error: &AddError) -> &'a str
    ensures { result.now ≡ refusal_line error.now }
{
    match error {
        AddError::Io(_) => "check_attr: cannot read a global file\n",
        AddError::OutOfMemory => "check_attr: out of memory\n",
    }
}

// Prints a text. A failure of `errors` is ignored, since there is nowhere else to report it.
fn print<E: Push>(errors: &mut E, text: &[u8])
    ensures { Prints E.contents E.failed E.stalled E.Flushed errors.old errors.new text.now }
{
    let _ = write_all(errors, text);
}
