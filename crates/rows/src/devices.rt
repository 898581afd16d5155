//! The answers of rows about devices in memory of which a call fails. A call that failed would succeed if it were made again,
//! since each fails once, as an interrupted one.

use crate::scripts::{ended, engine};
use attr_vectors::devices::{Sink, Source};
use check_attr::{Pull, Push, Reader, Writer, play, program};
use gix_attributes::files::{Files, Memory};
use list_rows::answer::Answer;
use list_rows::fault::Fault;
use list_rows::row::{Row, number_of, words_of};
use std::alloc::{AllocError, Global};

/// Of a program, its input, how its reader and its writer move bytes and which call of each fails: how the run ends, the text
/// that is written, how often it is flushed, whether all of it is, how many reads and writes failed, and how many writes took no
/// byte, if any did. The program is a report, a script over the built-in list alone, or one that is in memory and played over the list `*.c b c=d`.
pub(crate) fn left(row: &Row, answer: &mut Answer) -> Result<(), Fault> {
    let alloc = answer.alloc;
    let mut source = Reader::new(source_of(row)?);
    let mut sink = sink_of(alloc, row.text(4), row.text(5))?;
    let mut writer = Writer::new(&mut sink);
    let ended = match row.text(0) {
        "play" => play(alloc, row.bytes(1), engine(alloc)?, &mut writer),
        kind => ended(alloc, kind, &mut source, &mut writer)?,
    };
    match ended {
        Ok(()) => answer.text("whole")?,
        Err(fault) => answer.shown(fault)?,
    }
    let counts = [source.failures(), writer.failures(), writer.stalls()];
    let is_flushed = writer.is_flushed();
    push_left(&sink, is_flushed, counts, answer)
}

fn source_of(row: &Row) -> Result<Source<'_>, Fault> {
    Ok(Source {
        rest: row.bytes(1),
        most: most_of(row.text(2))?,
        failing: row.number(3)? as u64,
    })
}

// How many bytes a call moves at most.
fn most_of(text: &str) -> Result<usize, Fault> {
    match text {
        "all" => Ok(usize::MAX),
        "one" => Ok(1),
        "none" => Ok(0),
        _ => Err(Fault::NotARow),
    }
}

fn sink_of(alloc: Global, most: &str, failing: &str) -> Result<Sink, Fault> {
    let mut sink = Sink::new(Vec::new(alloc), most_of(most)?);
    match failing {
        "flush" => sink.fails_flush = true,
        write => sink.failing = number_of(write)? as u64,
    }
    Ok(sink)
}

// What the devices have. The counts are of failed reads, failed writes and stalls.
fn push_left(
    sink: &Sink,
    is_flushed: bool,
    [reads, writes, stalls]: [u64; 3],
    answer: &mut Answer,
) -> Result<(), Fault> {
    answer.bytes(&sink.bytes)?;
    answer.shown(sink.flushes)?;
    answer.flag(is_flushed)?;
    answer.shown(reads)?;
    answer.shown(writes)?;
    if stalls > 0 {
        answer.shown(stalls)?;
    }
    Ok(())
}

// The files `g1` and `g3`. One of the reads fails, or none at 0.
fn files_of(alloc: Global, failing: usize) -> Result<Memory, AllocError> {
    let mut files = Memory::new(alloc);
    files.insert("g1", b"* a\n!b c\n")?;
    files.insert("g3", b"* d\n")?;
    files.fail_read(failing as u64);
    Ok(files)
}

/// Of the arguments of the program, its input, its devices, and the read of a file in memory that fails: its status, what `left`
/// answers behind the end, what standard error has and how often it is flushed, how many bytes are left of the input, and how
/// many reads of files failed. What a field of the devices says behind a blank is of standard error. If nothing is, that moves as
/// many bytes a call as standard output, and does not fail.
pub(crate) fn left_by_call(row: &Row, answer: &mut Answer) -> Result<(), Fault> {
    let (alloc, words) = (answer.alloc, words_of(answer.alloc, row.text(0))?);
    let files = &mut files_of(alloc, row.number(6)?)?;
    let (most, failing) = (row.text(4), row.text(5));
    let (most, errors_most) = most.split_once(' ').unwrap_or((most, most));
    let (failing, errors_failing) = failing.split_once(' ').unwrap_or((failing, "0"));
    let (mut source, mut sink) = (source_of(row)?, sink_of(alloc, most, failing)?);
    let mut errors = sink_of(alloc, errors_most, errors_failing)?;
    let (mut reader, mut writer) = (Reader::new(&mut source), Writer::new(&mut sink));
    let err = &mut Writer::new(&mut errors);
    let status = program(alloc, files, &words, &mut reader, &mut writer, err);
    let counts = [reader.failures(), writer.failures(), writer.stalls()];
    let is_flushed = writer.is_flushed();
    answer.shown(status)?;
    push_left(&sink, is_flushed, counts, answer)?;
    answer.bytes(&errors.bytes)?;
    answer.shown(errors.flushes)?;
    answer.shown(source.rest.len())?;
    answer.shown(files.failures())
}
