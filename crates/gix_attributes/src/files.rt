//! Sources of files: the trait [`Files`], the real disk ([`Disk`]) and files in memory ([`Memory`]).
ghost use Rattle.std.specs.Prelude.{◌≡◌, ◌≤◌, ◌↔◌, ℕ, List, [], true, false, Ok, Err, IfErr, IsErrAnd, IsOk, IsTrue};
ghost use Rattle.std.specs.IoError.{error_kind};
ghost use Rattle.gix_attributes.specs.Answers.{ReadAnswer, read_answer, IsDevice};
ghost use Rattle.gix_attributes.specs.Failures.{Fails};
ghost use Rattle.gix_attributes.specs.inner.MissingFiles.{IsOfNoFile, TellsNoFile};
ghost use Rattle.gix_attributes.specs.declared.files.ReadError.TheVariants.{OutOfMemory};

mod memory;

pub use self::memory::Memory;
use std::alloc::AllocError;
use std::fs::File;
use std::io;
use std::io::{ErrorKind, Read};
use std::marker::Model;
use std::rt::Files as HostFiles;
use thiserror::Error;

/// Why a file could not be read.
#[derive(Debug, Drop, Error)]
pub enum ReadError {
    /// The device failed, with its error. A file that doesn't exist is no failure.
    #[error("reading failed")]
    Device(io::Error),
    /// The buffer could not grow.
    #[error("out of memory")]
    OutOfMemory,
}

impl From<AllocError> for ReadError {
    ghost from_gives = { λ _ e. e ≡ OutOfMemory };

    fn from(_error: AllocError) -> ReadError {
        ReadError::OutOfMemory
    }
}

/// A source of files, which a search reads by their paths.
pub trait Files {
    // A read of this path from the state before may return this answer and leave the state after.
    ghost reads: { Self → List ℕ → ReadAnswer → Self → Type 0 };

    // How many reads the device failed so far.
    ghost failed: { Self → ℕ };

    /// Replaces the contents of `buf` by those of a whole file, and returns whether the file exists. A directory is no
    /// file.
    ///
    /// # Errors
    ///
    /// [`ReadError::Device`] if the device fails, and [`ReadError::OutOfMemory`] if `buf` can't grow. The contents of
    /// `buf` are not specified then.
    fn read_into(&mut self, path: &str, buf: &mut Vec<u8>) -> Result<bool, ReadError>
        ensures answer { reads self.old path.now (read_answer result buf.new.items) self.new }
        ensures missing { result ≡ Ok false → buf.new.items ≡ [] }
        ensures kept { failed self.old ≤ failed self.new }
        ensures device { IfErr result (λ e.
            IsDevice e → Fails (failed self.old) (failed self.new)) };

    /// The number of reads that the device failed so far, `u64::MAX` if there were more.
    fn failures(&self) -> u64
        ensures { result ≡ failed self.now };
}

/// The files of the real disk, which are reached through the runtime. Links are followed.
#[derive(Drop)]
pub struct Disk<'a, R: HostFiles> {
    rt: &'a R,
    files_read: u64,
    failures: u64,
}

impl<'a, R: HostFiles> Model for Disk<'a, R> {
    ghost use Rattle.gix_attributes.specs.DiskReads.{DiskCounts};

    ghost Value = { DiskCounts };

    ghost view = { λ s. record { files_read = s.files_read; failures = s.failures } };
}

impl<'a, R: HostFiles> Disk<'a, R> {
    /// The disk of the runtime. Its counts begin at 0.
    pub fn new(rt: &'a R) -> Disk<'a, R>
        ensures { result ≡ record { files_read = 0; failures = 0 } }
    {
        Disk {
            rt,
            files_read: 0,
            failures: 0,
        }
    }

    /// The number of files that were read to their ends so far, `u64::MAX` if there were more.
    pub fn files_read(&self) -> u64
        ensures { result ≡ self.now.files_read }
    {
        self.files_read
    }
}

const CHUNK: usize = 8192;

// Replaces the contents of the buffer by those of a whole file. The buffer grows only here and in no call of the
// device, so that a lack of memory here is not reported as a failure of the device.
fn read_file<R: HostFiles>(rt: &R, path: &str, buf: &mut Vec<u8>) -> Result<(), ReadError> {
    buf.clear();
    let mut file = match File::open(rt, path) {
        Ok(file) => file,
        Err(error) => return Err(ReadError::Device(error)),
    };
    let mut chunk = [0u8; CHUNK];
    for _ in 0..u64::MAX {
        match file.read(&mut chunk) {
            Ok(0) => return Ok(()),
            Ok(count) => buf.extend_from_slice(&chunk[..count])?,
            Err(error) if error.kind() == ErrorKind::Interrupted => {}
            Err(error) => return Err(ReadError::Device(error)),
        }
    }
    Err(ReadError::Device(io::Error::from(ErrorKind::Interrupted)))
}

// Whether an error says that there is no such file: nothing has its path, a part of that is no directory, or it is a directory.
fn is_missing(error: &io::Error) -> bool
    ensures { IsTrue result ↔ IsOfNoFile (error_kind error.now) }
{
    matches!(
        error.kind(),
        ErrorKind::NotFound | ErrorKind::NotADirectory | ErrorKind::IsADirectory
    )
}

// Whether a file exists, by a read of it.
fn exists(read: Result<(), ReadError>) -> Result<bool, ReadError>
    ensures found { result ≡ Ok true ↔ IsOk read }
    ensures missing { result ≡ Ok false ↔ IsErrAnd read TellsNoFile }
    ensures refused { IfErr result (λ e. read ≡ Err e) }
{
    match read {
        Ok(()) => Ok(true),
        Err(ReadError::Device(error)) if is_missing(&error) => Ok(false),
        Err(error) => Err(error),
    }
}

impl<'a, R: HostFiles> Files for Disk<'a, R> {
    ghost use Rattle.gix_attributes.specs.DiskReads.{DiskReads};

    ghost reads = { λ old path answer new. DiskReads old answer new };

    ghost failed = { λ counts. counts.failures };

    fn read_into(&mut self, path: &str, buf: &mut Vec<u8>) -> Result<bool, ReadError> {
        let answer = exists(read_file(self.rt, path, buf));
        match &answer {
            Ok(true) => self.files_read = self.files_read.saturating_add(1),
            Ok(false) => buf.clear(),
            Err(ReadError::Device(_)) => self.failures = self.failures.saturating_add(1),
            Err(ReadError::OutOfMemory) => {}
        }
        answer
    }

    fn failures(&self) -> u64 {
        self.failures
    }
}
