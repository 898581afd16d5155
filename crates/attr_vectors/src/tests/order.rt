//! The program prints the lines that global files drop, and flushes them, before it reads its script. A contract knows no order
//! of calls of two devices, so here a cell tells the reader how much standard error has flushed.
use super::status_of;
use std::alloc::AllocError;
use std::cell::Cell;
use std::io;
use std::io::{ErrorKind, Read, Write};

const DROPPED: &[u8] = b"dropped: g:1: negative\ndropped: g:2: reserved\n";

// Standard error: it holds what is written until a flush, and then counts it.
#[derive(Drop)]
struct Errors<'a> {
    held: usize,
    flushed: &'a Cell<usize>,
}

impl<'a> Write for Errors<'a> {
    fn write(&mut self, bytes: &[u8]) -> io::Result<usize> {
        self.held = self.held.saturating_add(bytes.len());
        Ok(bytes.len())
    }

    fn flush(&mut self) -> io::Result<()> {
        self.flushed
            .set(self.flushed.get().saturating_add(self.held));
        self.held = 0;
        Ok(())
    }
}

// A reader that fails unless all of `DROPPED` was flushed before.
#[derive(Drop)]
struct Waiting<'a> {
    rest: &'a [u8],
    flushed: &'a Cell<usize>,
}

impl<'a> Read for Waiting<'a> {
    fn read(&mut self, buf: &mut [u8]) -> io::Result<usize> {
        if self.flushed.get() != DROPPED.len() {
            return Err(io::Error::from(ErrorKind::Other));
        }
        self.rest.read(buf)
    }
}

#[test]
fn dropped_lines_are_flushed_before_the_script_is_read(rt: HostRuntime) -> Result<(), AllocError> {
    let (mut text, flushed) = (Vec::new(rt.alloc()), &Cell::new(0));
    let rest = b"ask l s f 1\nf\n";
    let (script, errors) = (Waiting { rest, flushed }, Errors { held: 0, flushed });
    let status = status_of(rt.alloc(), "g", script, &mut text, errors)?;
    assert_eq!(rt; (status, text.as_slice()), (0, b"f: d: set\n".as_slice()));
    Ok(())
}
