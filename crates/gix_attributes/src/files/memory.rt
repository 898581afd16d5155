//! Files in memory, for tests and for programs that have their files already.
ghost use Rattle.std.specs.Prelude.{◌≡◌, OnOk, OnErr};
ghost use Rattle.gix_attributes.specs.MemoryFiles.{StoresFile, no_files};
ghost use Rattle.gix_attributes.specs.MemoryView.{memory_view};

use super::{Files, ReadError};
use std::alloc::{AllocError, Global};
use std::collections::HashMap;
use std::io;
use std::io::ErrorKind;

/// Files in memory. One read of them can be made to fail, as a device fails.
#[derive(Drop)]
pub struct Memory {
    alloc: Global,
    contents: HashMap<String, Vec<u8>>,
    failing: u64,
    failures: u64,
}

impl Memory {
    /// No files, and no read that fails. It takes no memory.
    pub fn new(alloc: Global) -> Memory
        ensures { memory_view result ≡ no_files }
    {
        Memory {
            alloc,
            contents: HashMap::new(alloc),
            failing: 0,
            failures: 0,
        }
    }

    /// Stores the contents of the file with this path, in place of those that it had.
    ///
    /// # Errors
    ///
    /// If memory runs out. Nothing changes then.
    pub fn insert(&mut self, path: &str, bytes: &[u8]) -> Result<(), AllocError>
        ensures files { OnOk result
            (StoresFile path.now bytes.now (memory_view self.old) (memory_view self.new)) }
        ensures failing { (memory_view self.new).failing ≡ (memory_view self.old).failing }
        ensures failures { (memory_view self.new).failures ≡ (memory_view self.old).failures }
        ensures err { OnErr result (memory_view self.new ≡ memory_view self.old) }
    {
        let name = String::from_str(self.alloc, path)?;
        let contents = bytes.to_vec(self.alloc)?;
        self.contents.insert(name, contents)?;
        Ok(())
    }

    /// Makes the `n`th read from now on fail, once. The next read is the first, and with 0 none fails.
    pub fn fail_read(&mut self, n: u64)
        ensures { memory_view self.new ≡ record (memory_view self.old) { failing = n } }
    {
        self.failing = n;
    }
}

impl Files for Memory {
    ghost use Rattle.gix_attributes.specs.MemoryFiles.{MemoryReads};

    ghost reads = { λ old path answer new.
        MemoryReads (memory_view old) path answer (memory_view new) };

    ghost failed = { λ memory. memory.failures };

    fn read_into(&mut self, path: &str, buf: &mut Vec<u8>) -> Result<bool, ReadError> {
        buf.clear();
        if self.failing == 1 {
            self.failing = 0;
            self.failures = self.failures.saturating_add(1);
            return Err(ReadError::Device(io::Error::from(ErrorKind::Other)));
        }
        self.failing = self.failing.saturating_sub(1);
        match self.contents.get(path) {
            Some(bytes) => {
                buf.extend_from_slice(bytes)?;
                Ok(true)
            }
            None => Ok(false),
        }
    }

    fn failures(&self) -> u64 {
        self.failures
    }
}
