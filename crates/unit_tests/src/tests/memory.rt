//! Files in memory stay when there is no memory for their new contents.
//!
//! `tests/refused_memory.sh` refuses one request of a test in turn. The repeated call gets its memory.
use gix_attributes::files::{Files, Memory};
use std::alloc::{AllocError, Global};

const OLD: &[u8] = b"* a\n";

const NEW: &[u8] = b"* b\n* c\n* d\n";

// Whether a file has its new contents, or the old ones if there was no memory for the new.
fn is_replaced(alloc: Global) -> Result<bool, AllocError> {
    let (mut files, mut buf) = (Memory::new(alloc), Vec::new(alloc));
    files.insert("g", OLD)?;
    let is_new = files.insert("g", NEW).is_ok();
    files.read_into("g", &mut buf).or(Err(AllocError))?;
    Ok(buf.as_slice() == if is_new { NEW } else { OLD })
}

#[test]
fn without_memory_files_stay(rt: HostRuntime) -> Result<(), AllocError> {
    let alloc = rt.alloc();
    assert!(rt; is_replaced(alloc).or_else(|_| is_replaced(alloc))?);
    Ok(())
}
