//! Reads of real files, and of files in memory.
use gix_attributes::files::{Disk, Files, Memory, ReadError};
use std::alloc::{AllocError, Global};
use std::os::unix::fs::symlink;
use std::path::Path;
use std::process::Abort;
use std::rt::Files as HostFiles;
use std::test::Fail;
use std::{env, fs, process};

// A file and a link to it.
fn write_files<R: HostFiles>(rt: &R, alloc: Global, directory: Path<'_>) -> Result<(), Fail> {
    fs::create_dir_all(rt, directory)?;
    let file = directory.join(alloc, "plain")?;
    fs::write(rt, file.as_path(), "* text\n")?;
    let link = directory.join(alloc, "link")?;
    Ok(symlink(rt, file.as_path(), link.as_path())?)
}

// What a read into a buffer that isn't empty answers, and what is in the buffer then.
fn push_read<F: Files>(files: &mut F, name: &str, out: &mut Vec<u8>) -> Result<(), AllocError> {
    let mut buf = b"before".to_vec(*out.allocator())?;
    let answer = match files.read_into(name, &mut buf) {
        Ok(true) => "read ",
        Ok(false) => "missing ",
        Err(ReadError::Device(_)) => return out.extend_from_slice(b"failed "),
        Err(ReadError::OutOfMemory) => return Err(AllocError),
    };
    out.extend_from_slice(answer.as_bytes())?;
    out.extend_from_slice(&buf)
}

const NAMES: &[&str] = &["plain", "link", "missing", "plain/below", "."];

// Expects these answers of the directory's files.
fn expect_reads<R: HostFiles + Abort>(
    rt: &R,
    alloc: Global,
    directory: Path<'_>,
    wanted: &[u8],
) -> Result<(), Fail> {
    let (mut disk, mut out) = (Disk::new(rt), Vec::new(alloc));
    for name in NAMES {
        let path = directory.join(alloc, name)?;
        push_read(&mut disk, path.as_str(), &mut out)?;
    }
    let found = (out.as_slice(), disk.files_read(), disk.failures());
    assert_eq!(rt; found, (wanted, 2, 0));
    Ok(())
}

#[test]
fn reads_real_files(rt: HostRuntime) -> Result<(), Fail> {
    let name = format!(in rt.alloc(); "gix_attributes-files-{}", process::id(rt.process()))?;
    let directory = env::temp_dir(&rt)?.join(rt.alloc(), name.as_str())?;
    write_files(&rt, rt.alloc(), directory.as_path())?;
    let wanted = b"read * text\nread * text\nmissing missing missing ";
    expect_reads(&rt, rt.alloc(), directory.as_path(), wanted)?;
    Ok(fs::remove_dir_all(&rt, directory.as_path())?)
}

#[test]
fn counts_what_the_disk_fails(rt: HostRuntime) -> Result<(), AllocError> {
    let (mut disk, mut out) = (Disk::new(&rt), Vec::new(rt.alloc()));
    let long = format!(in rt.alloc(); "{:a>5000}", "")?;
    for name in [long.as_str(), "no\0name"] {
        push_read(&mut disk, name, &mut out)?;
    }
    let found = (out.as_slice(), disk.files_read(), disk.failures());
    assert_eq!(rt; found, (b"failed failed ".as_slice(), 0, 2));
    Ok(())
}

#[test]
fn reads_files_in_memory(rt: HostRuntime) -> Result<(), AllocError> {
    let (mut files, mut out) = (Memory::new(rt.alloc()), Vec::new(rt.alloc()));
    files.insert("g1", b"* gone\n")?;
    files.insert("g1", b"* a\n!b c\n")?;
    files.insert("g3", b"* d\n")?;
    files.fail_read(3);
    for name in ["g2", "g1", "g3", "g3", "g2"] {
        push_read(&mut files, name, &mut out)?;
    }
    let wanted = b"missing read * a\n!b c\nfailed read * d\nmissing ".as_slice();
    assert_eq!(rt; (out.as_slice(), files.failures()), (wanted, 1));
    Ok(())
}
