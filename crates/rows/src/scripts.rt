//! The answers of rows about scripts and reports.

use attr_vectors::devices::Source;
use check_attr::{Pull, Push, Reader, Writer, globals, play, program, run};
use gix_attributes::engine::{Addition, Engine};
use gix_attributes::files::{Disk, Memory};
use list_rows::answer::Answer;
use list_rows::fault::Fault;
use list_rows::row::{Row, words_of};
use std::alloc::{AllocError, Global};

// The bytes of the longest input that is read byte by byte, too.
const SHORT: usize = 65_536;

/// What an input of a kind writes, and the number of its malformed record or a hyphen. It is read at once and, if it is short, byte
/// by byte; what it writes then follows if that differs.
pub(crate) fn run_twice(kind: &str, row: &Row, answer: &mut Answer) -> Result<(), Fault> {
    let (alloc, bytes) = (answer.alloc, row.bytes(0));
    let (mut written, mut slowly) = (Vec::new(alloc), Vec::new(alloc));
    let record = run_once(kind, &mut Reader::new(bytes), &mut written)?;
    answer.bytes(&written)?;
    answer.index(record)?;
    if bytes.len() <= SHORT {
        let mut slow = Reader::new(Source {
            rest: bytes,
            most: 1,
            failing: 0,
        });
        let slow_record = run_once(kind, &mut slow, &mut slowly)?;
        if slowly != written || slow_record != record {
            answer.bytes(&slowly)?;
        }
    }
    Ok(())
}

// Runs an input of a kind, and returns the number of its malformed record, if it has one.
fn run_once<R: Pull>(
    kind: &str,
    reader: &mut R,
    written: &mut Vec<u8>,
) -> Result<Option<usize>, Fault> {
    let alloc = *written.allocator();
    record_of(ended(alloc, kind, reader, &mut Writer::new(written))?)
}

/// How the run of an input of a kind ends: of a script over the built-in list alone, as there are no global files, or of the lines
/// of an attributes file.
pub(crate) fn ended<R: Pull, W: Push>(
    alloc: Global,
    kind: &str,
    reader: &mut R,
    writer: &mut W,
) -> Result<Result<(), check_attr::Fault>, Fault> {
    match kind {
        "script" => {
            let built_in = globals(alloc, &mut Memory::new(alloc), &[]);
            let built_in = built_in.or(Err(Fault::OutOfMemory))?;
            Ok(run(alloc, reader, writer, built_in))
        }
        "lines" => Ok(check_attr::lines(alloc, reader, writer)),
        _ => Err(Fault::NotARow),
    }
}

fn record_of(ended: Result<(), check_attr::Fault>) -> Result<Option<usize>, Fault> {
    match ended {
        Ok(()) => Ok(None),
        Err(check_attr::Fault::Record(number)) => Ok(Some(number)),
        Err(check_attr::Fault::OutOfMemory) => Err(Fault::OutOfMemory),
        Err(check_attr::Fault::Read | check_attr::Fault::Write) => Err(Fault::NotARow),
    }
}

/// What a script writes over an engine with the list `*.c b c=d`, and the number of its malformed record or a hyphen.
pub(crate) fn played(row: &Row, answer: &mut Answer) -> Result<(), Fault> {
    let mut written = Vec::new(answer.alloc);
    let engine = engine(answer.alloc)?;
    let mut writer = Writer::new(&mut written);
    let record = record_of(play(answer.alloc, row.bytes(0), engine, &mut writer))?;
    answer.bytes(&written)?;
    answer.index(record)
}

/// Of the arguments of the program, and its input: its status, and what it writes to standard output and to standard error.
pub(crate) fn call(rt: &HostRuntime, row: &Row, answer: &mut Answer) -> Result<(), Fault> {
    let (alloc, words) = (answer.alloc, words_of(answer.alloc, row.text(0))?);
    let (mut written, mut errors) = (Vec::new(alloc), Vec::new(alloc));
    let (files, reader) = (&mut Disk::new(rt), &mut Reader::new(row.bytes(1)));
    let out = &mut Writer::new(&mut written);
    let err = &mut Writer::new(&mut errors);
    let status = program(alloc, files, &words, reader, out, err);
    answer.shown(status)?;
    answer.bytes(&written)?;
    answer.bytes(&errors)
}

/// An engine with the list `*.c b c=d`.
pub(crate) fn engine(alloc: Global) -> Result<Engine, AllocError> {
    let mut engine = Engine::new(alloc)?;
    let list = Addition {
        allow_macros: true,
        source: "f",
        root: None,
        buffer: b"*.c b c=d\n",
    };
    engine.add(alloc, list)?;
    Ok(engine)
}
