//! The report that `--lines` prints for an attributes file.
ghost use Rattle.std.specs.Prelude.{◌≡◌, ◌≢◌, ℕ, ◌++◌, codes, Err, IfOk, OnOk, OnErr, IsErrOf, MatchOption};
ghost use Rattle.std.specs.Io.KnownBytes.{IsAtEnd};
ghost use Rattle.std.specs.Fmt.{decimal};
ghost use Rattle.std.specs.List.{flat_map};
ghost use Rattle.gix_attributes.specs.LineViews.{item_view, line_view};
ghost use Rattle.check_attr.specs.Outcomes.{CountsReads, CountsWrites, ReadsInputFirst};
ghost use Rattle.check_attr.specs.LinesText.{WritesLines, WritesLinesFront, item_text, line_text, lines_text};

use crate::fault::Fault;
use crate::held::Held;
use crate::reading::{Pull, read_all};
use crate::writing::{Push, write_all};
use gix_attributes::parse::{AttrError, Iter, Kind};
use gix_attributes::{AssignmentRef, parse};
use std::alloc::{AllocError, Global};

/// Reads an attributes file, and writes a line for each of its lines: the line number and the items
/// as they are printed, with a `?` before a refused name, or the line number and why the line is
/// refused. The whole input is read before anything is written.
///
/// # Errors
///
/// `Read` if the reader failed: nothing was written. `Write` if the writer failed or took no byte,
/// `OutOfMemory` if a buffer could not grow: a beginning of the text may be written. A call that
/// failed isn't tried again.
pub fn lines<R: Pull, W: Push>(alloc: Global, reader: &mut R, writer: &mut W) -> Result<(), Fault>
    ensures ok { OnOk result (WritesLines (R.remaining reader.old)
        (W.contents writer.old) (W.contents writer.new)) }
    ensures front { OnErr result (WritesLinesFront (R.remaining reader.old)
        (W.contents writer.old) (W.contents writer.new)) }
    ensures end { OnOk result (IsAtEnd (R.remaining reader.new)) }
    ensures first { ReadsInputFirst (R.remaining reader.new) writer.old writer.new }
    ensures flushed { OnOk result (W.Flushed writer.new) }
    ensures unread { IsErrOf result Fault.Read → writer.new ≡ writer.old }
    ensures reads { CountsReads result (R.failed reader.old) (R.failed reader.new) }
    ensures writes { CountsWrites result (W.failed writer.old) (W.failed writer.new)
        (W.stalled writer.old) (W.stalled writer.new) }
    ensures no_record { (k : ℕ) → result ≢ Err (Fault.Record k) }
{
    let input = read_all(alloc, reader)?;
    let report = report(alloc, &input)?;
    write_all(writer, report.text())
}

// The text for a whole attributes file.
fn report(alloc: Global, input: &[u8]) -> Result<Held, AllocError>
    ensures { IfOk result (λ held. held ≡ lines_text input.now) }
{
    let mut held = Held::new(alloc);
    for line in parse::parse(alloc, input) {
        push_line(alloc, &mut held, line)?;
    }
    Ok(held)
}

fn push_line(
    alloc: Global,
    held: &mut Held,
    line: Result<(Kind, Iter<'_>, usize), parse::Error>,
) -> Result<(), AllocError>
    ensures { OnOk result (MatchOption (line_view line.entry) ⊥
        (λ x. held.new ≡ held.old ++ line_text x)) }
{
    match line {
        Ok((_kind, items, number)) => push_parsed(alloc, held, items, number),
        Err(parse::Error::MacroName { line, .. }) => push_refused(held, line, b"! macro-name\n"),
        Err(parse::Error::NegativePattern { line, .. }) => {
            push_refused(held, line, b"! negative\n")
        }
        Err(parse::Error::OutOfMemory) => Err(AllocError),
    }
}

fn push_parsed(
    alloc: Global,
    held: &mut Held,
    items: Iter<'_>,
    number: usize,
) -> Result<(), AllocError>
    ensures { OnOk result (held.new ≡ held.old
        ++ (decimal number ++ codes ":" ++ flat_map item_text items.entry ++ codes "\n")) }
{
    held.push_number(number)?;
    held.push(b":")?;
    for item in items {
        push_item(alloc, held, item)?;
    }
    held.push(b"\n")
}

fn push_refused(held: &mut Held, number: usize, why: &[u8]) -> Result<(), AllocError>
    ensures { OnOk result (held.new ≡ held.old ++ (decimal number ++ why.now)) }
{
    held.push_number(number)?;
    held.push(why)
}

// An item, or the refused name as its bytes.
fn push_item(
    alloc: Global,
    held: &mut Held,
    item: Result<AssignmentRef<'_>, AttrError<'_>>,
) -> Result<(), AllocError>
    ensures { OnOk result (held.new ≡ held.old ++ item_text (item_view item.entry)) }
{
    match item {
        Ok(assignment) => {
            let text = format!(in alloc; " {assignment}")?;
            held.push(text.as_bytes())
        }
        Err(AttrError::InvalidName(name) | AttrError::Reserved(name)) => {
            held.push(b" ?")?;
            held.push(name.as_bytes())
        }
    }
}
