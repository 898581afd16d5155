//! The faults that end a run early.
ghost use Rattle.std.specs.Prelude.{◌≡◌};
ghost use Rattle.check_attr.specs.declared.fault.Fault.TheVariants.{OutOfMemory};

use std::alloc::{AllocError, AllocFailed};
use thiserror::Error;

/// Why a run ends early.
#[derive(Debug, Drop, Error)]
pub enum Fault {
    /// The record with this number, counted from 1, is malformed. The text of those before it was
    /// written.
    #[error("malformed record {0}")]
    Record(usize),
    /// The reader failed. Nothing was written.
    #[error("reading failed")]
    Read,
    /// The writer failed, or took no byte of a write that had some. A beginning of the text may be
    /// written.
    #[error("writing failed")]
    Write,
    /// A buffer could not grow. A beginning of the text may be written.
    #[error("out of memory")]
    OutOfMemory,
}

impl From<AllocError> for Fault {
    ghost from_gives = { λ _ e. e ≡ OutOfMemory };

    fn from(_error: AllocError) -> Fault {
        Fault::OutOfMemory
    }
}

impl<T: Drop> From<AllocFailed<T>> for Fault {
    ghost from_gives = { λ _ e. e ≡ OutOfMemory };

    fn from(_error: AllocFailed<T>) -> Fault {
        Fault::from(AllocError)
    }
}
