//! The text that reports the lines that lists drop.

ghost use Rattle.std.specs.Prelude.{◌≡◌, ◌<◌, ◌+◌, ◌++◌, OnOk, length};
ghost use Rattle.std.specs.List.{flat_map};
ghost use Rattle.check_attr.specs.inner.Pieces.{Passes};
ghost use Rattle.check_attr.specs.ScriptText.{dropped_text, reason_word};

use crate::fault::Fault;
use crate::held::Held;
use crate::writing::Push;
use gix_attributes::search::{DropReason, Dropped};
use std::alloc::AllocError;

/// Appends a line of text for each dropped line of a list of this source.
///
/// # Errors
///
/// `AllocError` if `held` could not grow.
pub fn push_dropped(held: &mut Held, source: &str, dropped: &[Dropped]) -> Result<(), AllocError>
    ensures { OnOk result (held.new
        ≡ held.old ++ flat_map (dropped_text source.now) dropped.now) }
{
    for line in dropped {
        push_line(held, source, *line)?;
    }
    Ok(())
}

/// Appends a line of text to `held` for each dropped line of a list of this source, and writes `held` before each if
/// it fills a piece.
///
/// # Errors
///
/// `Write` if a write failed or took no byte, and `OutOfMemory` if a buffer could not grow. A beginning of the text
/// may be written then.
pub fn pass_dropped<W: Push>(
    writer: &mut W,
    held: &mut Held,
    source: &str,
    dropped: &[Dropped],
) -> Result<(), Fault>
    ensures { Passes W.contents W.failed W.stalled writer.old writer.new held.new
        (held.old ++ flat_map (dropped_text source.now) dropped.now) result }
{
    for line in dropped {
        pass_line(writer, held, source, *line)?;
    }
    Ok(())
}

// Passes a line on. No more is held after it than a piece and this line.
fn pass_line<W: Push>(
    writer: &mut W,
    held: &mut Held,
    source: &str,
    dropped: Dropped,
) -> Result<(), Fault>
    ensures passed { Passes W.contents W.failed W.stalled writer.old writer.new held.new
        (held.old ++ dropped_text source.now dropped) result }
    ensures bound { OnOk result (length held.new
        < 65536 + length (dropped_text source.now dropped)) }
{
    held.write_full(writer)?;
    push_line(held, source, dropped)?;
    Ok(())
}

fn push_line(held: &mut Held, source: &str, dropped: Dropped) -> Result<(), AllocError>
    ensures { OnOk result (held.new ≡ held.old ++ dropped_text source.now dropped) }
{
    held.push(b"dropped: ")?;
    held.push(source.as_bytes())?;
    held.push(b":")?;
    held.push_number(dropped.line)?;
    held.push(b": ")?;
    held.push(reason_word(dropped.reason).as_bytes())?;
    held.push(b"\n")
}

fn reason_word<'a>(reason: DropReason) -> &'a str
    ensures { result.now ≡ reason_word reason }
{
    match reason {
        DropReason::MacroName => "macro-name",
        DropReason::NegativePattern => "negative",
        DropReason::InvalidName => "attribute-name",
        DropReason::Reserved => "reserved",
    }
}
