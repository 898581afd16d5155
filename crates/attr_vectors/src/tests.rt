//! Runs over devices that no row has, calls of one device, and refused memory.
mod bytes;
mod memory;
mod order;
mod std_devices;

use check_attr::{Reader, Writer, program};
use gix_attributes::files::Memory;
use std::alloc::{AllocError, Global};
use std::io::{Read, Write};

// The arguments of a call that has one.
fn argument(alloc: Global, word: &str) -> Result<Vec<String>, AllocError> {
    let mut words = Vec::new(alloc);
    words.push(String::from_str(alloc, word)?)?;
    Ok(words)
}

// The status of a call that has one argument. There is a global file `g`, of which two lines are dropped.
fn status_of<R: Read + Drop, W: Write + Drop, E: Write + Drop>(
    alloc: Global,
    word: &str,
    input: R,
    output: W,
    errors: E,
) -> Result<u8, AllocError> {
    let (mut files, args) = (Memory::new(alloc), argument(alloc, word)?);
    files.insert("g", b"!a b\n* builtin_c\n* d\n")?;
    let (reader, writer) = (&mut Reader::new(input), &mut Writer::new(output));
    let errors = &mut Writer::new(errors);
    Ok(program(alloc, &mut files, &args, reader, writer, errors))
}
