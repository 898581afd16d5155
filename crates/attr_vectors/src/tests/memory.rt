//! Runs that pass whichever request for memory is refused.
use super::{argument, status_of};
use crate::devices::Sink;
use check_attr::{Fault, Globals, Reader, Writer, globals, lines, run};
use gix_attributes::files::Memory;
use gix_attributes::search::AddError;
use std::alloc::{AllocError, Global};

// An attributes file, and the report on its lines.
const INPUT: &[u8] = b"!a b\n* a =x b=\n";

const TEXT: &[u8] = b"1! negative\n2: a ? b=\n";

// A script, and the text that it writes.
const SCRIPT: &[u8] =
    b"add m 14 0 16\n.gitattributes*.sh text eol=lf\nnames 2\ntext\neol\nask l s f 9\nscript.sh\n";

const ANSWERS: &[u8] = b"script.sh: text: set\nscript.sh: eol: lf\n";

// A sink that takes no memory until it has more than 64 bytes.
fn with_room(alloc: Global) -> Result<Sink, AllocError> {
    Ok(Sink::new(Vec::with_capacity(alloc, 64)?, usize::MAX))
}

// Whether a run wrote its text, or a beginning of it for want of memory. No device failed.
fn wrote_what_it_could(ended: Result<(), Fault>, written: &[u8], text: &[u8]) -> bool {
    match ended {
        Ok(()) => written == text,
        Err(Fault::OutOfMemory) => text.starts_with(written),
        Err(Fault::Record(_) | Fault::Read | Fault::Write) => false,
    }
}

// The memory of the writer is reserved before the run.
#[test]
fn without_memory_a_beginning_is_written(rt: HostRuntime) {
    let Ok(mut sink) = with_room(rt.alloc()) else {
        return;
    };
    let (mut reader, mut writer) = (Reader::new(INPUT), Writer::new(&mut sink));
    let ended = lines(rt.alloc(), &mut reader, &mut writer);
    assert!(rt; wrote_what_it_could(ended, &sink.bytes, TEXT));
}

// The lists of a global file, of which one line is dropped.
fn lists_of_a_file(alloc: Global) -> Result<Globals, AddError> {
    let mut files = Memory::new(alloc);
    files.insert("g1", b"*.sh -eol\n!b c\n")?;
    globals(alloc, &mut files, &argument(alloc, "g1")?)
}

// How many lines of that file are dropped.
fn count_of_dropped(alloc: Global) -> Result<usize, AddError> {
    let lists = lists_of_a_file(alloc)?;
    let counts = lists.dropped().iter().map(|lines| lines.len());
    Ok(counts.fold(0, usize::saturating_add))
}

#[test]
fn without_memory_global_files_are_read_again(rt: HostRuntime) -> Result<(), AddError> {
    let alloc = rt.alloc();
    let count = count_of_dropped(alloc).or_else(|_| count_of_dropped(alloc))?;
    assert_eq!(rt; count, 1);
    Ok(())
}

// The lists and the memory of the writer are there before the run.
#[test]
fn without_memory_a_beginning_of_the_answers_is_written(rt: HostRuntime) {
    let (Ok(mut sink), Ok(lists)) = (with_room(rt.alloc()), lists_of_a_file(rt.alloc())) else {
        return;
    };
    let (mut reader, mut writer) = (Reader::new(SCRIPT), Writer::new(&mut sink));
    let ended = run(rt.alloc(), &mut reader, &mut writer, lists);
    assert!(rt; wrote_what_it_could(ended, &sink.bytes, ANSWERS));
}

// Whether the program printed its text, or a beginning of it and the words for want of memory.
fn printed_what_it_could(status: u8, written: &[u8], errors: &[u8]) -> bool {
    match status {
        0 => written == TEXT && errors.is_empty(),
        1 => TEXT.starts_with(written) && errors == b"check_attr: out of memory\n".as_slice(),
        _ => false,
    }
}

// The line on standard error takes no memory, and `errors` has its own.
#[test]
fn without_memory_the_program_prints_it(rt: HostRuntime) {
    let alloc = rt.alloc();
    let (Ok(mut writer), Ok(mut errors)) = (with_room(alloc), with_room(alloc)) else {
        return;
    };
    let Ok(status) = status_of(alloc, "--lines", INPUT, &mut writer, &mut errors) else {
        return;
    };
    let is_right = printed_what_it_could(status, &writer.bytes, &errors.bytes);
    assert!(rt; is_right, "status {status}");
}
