//! Readers and writers of std, and the texts of faults.
use crate::devices::Sink;
use check_attr::{Fault, Pull, Push, Reader, Writer, lines};
use std::io::{self, ErrorKind, Read, Write};
use std::test::Fail;

// A reader of which each call fails.
#[derive(Drop)]
struct Interrupted;

impl Read for Interrupted {
    fn read(&mut self, _buf: &mut [u8]) -> io::Result<usize> {
        Err(io::Error::from(ErrorKind::Interrupted))
    }
}

// The count of a call, if it did not fail. An error of std is dropped here and in `is_done` alone.
fn count_of(outcome: io::Result<usize>) -> Option<usize> {
    outcome.ok()
}

fn is_done(outcome: io::Result<()>) -> bool {
    outcome.is_ok()
}

#[test]
fn counts_each_error_of_std(rt: HostRuntime) {
    let mut reader = Reader::new(Interrupted);
    let mut chunk = [0u8; 4];
    let first = count_of(Pull::read(&mut reader, &mut chunk));
    let second = count_of(Pull::read(&mut reader, &mut chunk));
    let mut sink = Sink::new(Vec::new(rt.alloc()), usize::MAX);
    (sink.failing, sink.fails_flush) = (1, true);
    let mut writer = Writer::new(sink);
    let write = count_of(Push::write(&mut writer, b"a"));
    let is_flushed = is_done(Push::flush(&mut writer));
    let failures = (reader.failures(), writer.failures());
    let outcomes = (first, second, write, is_flushed);
    assert_eq!(rt; (outcomes, failures), ((None, None, None, false), (2, 2)));
}

// How many bytes a write takes, and whether the writer is flushed behind it and behind a flush. Neither call fails.
fn write_and_flush<W: Write>(writer: &mut Writer<W>, text: &[u8]) -> Option<(usize, bool, bool)> {
    let count = count_of(Push::write(writer, text))?;
    let is_flushed = writer.is_flushed();
    let is_done = is_done(Push::flush(writer));
    is_done.then_some((count, is_flushed, writer.is_flushed()))
}

#[test]
fn flags_follow_the_calls(rt: HostRuntime) {
    let mut writer = Writer::new(Vec::new(rt.alloc()));
    let is_flushed = writer.is_flushed();
    let first = write_and_flush(&mut writer, b"a");
    let second = write_and_flush(&mut writer, b"bc");
    let flags = (is_flushed, first, second);
    let counts = (writer.failures(), writer.stalls());
    let wanted = (false, Some((1, false, true)), Some((2, false, true)));
    assert_eq!(rt; (flags, counts), (wanted, (0, 0)));
}

// A write that has no byte to take stalls nothing, and a stall before a run is none of that run.
#[test]
fn counts_each_write_that_took_no_byte_of_some(rt: HostRuntime) {
    let mut full = Writer::new(Sink::new(Vec::new(rt.alloc()), 0));
    let count = count_of(Push::write(&mut full, b""));
    assert_eq!(rt; (count, full.stalls()), (Some(0), 0));
    for stalls in 1..4 {
        let count = count_of(Push::write(&mut full, b"a"));
        assert_eq!(rt;
            (count, full.stalls(), full.failures()),
            (Some(0), stalls, 0)
        );
    }
    let is_flushed = full.is_flushed();
    let ended = lines(rt.alloc(), &mut Reader::new(b"* a\n".as_slice()), &mut full);
    let counts = (full.stalls(), full.failures());
    assert!(rt; matches!(&ended, Err(Fault::Write)));
    assert_eq!(rt; (is_flushed, counts), (false, (4, 0)));
}

#[test]
fn counts_no_call_that_succeeded(rt: HostRuntime) {
    let mut reader = Reader::new(b"abc".as_slice());
    let mut chunk = [0u8; 2];
    for wanted in [2, 1, 0] {
        let count = count_of(Pull::read(&mut reader, &mut chunk));
        assert_eq!(rt; (count, reader.failures()), (Some(wanted), 0));
    }
    let mut writer = Writer::new(Vec::new(rt.alloc()));
    let flags = write_and_flush(&mut writer, b"abc");
    let counts = (writer.failures(), writer.stalls());
    assert_eq!(rt; (flags, counts), (Some((3, false, true)), (0, 0)));
}

const FAULTS: &[(Fault, &str)] = &[
    (Fault::Record(12), "malformed record 12"),
    (Fault::Read, "reading failed"),
    (Fault::Write, "writing failed"),
    (Fault::OutOfMemory, "out of memory"),
];

#[test]
fn faults_have_texts(rt: HostRuntime) -> Result<(), Fail> {
    for (fault, text) in FAULTS {
        assert_eq!(rt; fault.to_string(rt.alloc())?.as_str(), *text);
    }
    Ok(())
}
