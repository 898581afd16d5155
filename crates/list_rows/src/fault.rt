//! Why a comparison ends early, and why a row has no answer.

use std::alloc::{AllocError, AllocFailed};
use std::io;
use std::io::ErrorKind;
use thiserror::Error;

/// Why a comparison ends early, or a row has no answer.
#[derive(Debug, Clone, Copy, PartialEq, Eq, Error)]
pub enum Fault {
    /// Some rows answer otherwise than they have to. Each was printed.
    #[error("rows differ")]
    Differ,
    /// A file is not there, can't be read, or is no UTF-8.
    #[error("cannot be read")]
    Unread,
    /// The arguments can't be read, or a count or a difference can't be printed.
    #[error("reading arguments or printing failed")]
    Print,
    /// A row is not written as its file wants.
    #[error("is no row")]
    NotARow,
    /// A step that found no memory changed what it was taken on, or found none again.
    #[error("a refused step changed it")]
    Changed,
    /// A copy of a value is not equal to it.
    #[error("another copy")]
    AnotherCopy,
    /// The tokens that are kept of a pattern answer otherwise than its text.
    #[error("other tokens")]
    OtherTokens,
    /// The call that a row is about found no memory.
    #[error("takes memory")]
    CallOutOfMemory,
    /// Memory was refused.
    #[error("out of memory")]
    OutOfMemory,
}

impl From<io::Error> for Fault {
    fn from(error: io::Error) -> Fault {
        match error.kind() {
            ErrorKind::OutOfMemory => Fault::OutOfMemory,
            _ => Fault::Print,
        }
    }
}

impl From<AllocError> for Fault {
    fn from(_error: AllocError) -> Fault {
        Fault::OutOfMemory
    }
}

impl<T: Drop> From<AllocFailed<T>> for Fault {
    fn from(_error: AllocFailed<T>) -> Fault {
        Fault::OutOfMemory
    }
}

/// A copy has to be equal to what it is made of.
///
/// # Errors
/// [`Fault::AnotherCopy`] if it isn't.
pub fn expect_equal<T: PartialEq>(copy: &T, value: &T) -> Result<(), Fault> {
    if copy == value {
        Ok(())
    } else {
        Err(Fault::AnotherCopy)
    }
}
