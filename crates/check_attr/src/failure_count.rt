//! The count of failed calls of a reader or a writer.
ghost use Rattle.std.specs.Prelude.{◌≡◌};
ghost use Rattle.check_attr.specs.Failures.{CountsFailure};

use std::io;

/// Returns the result of a call, and counts it if it is an error.
///
/// # Errors
///
/// The error of the call.
pub(crate) fn counted<T>(failures: &mut u64, outcome: io::Result<T>) -> io::Result<T>
    ensures same { result ≡ outcome }
    ensures count { CountsFailure outcome failures.old failures.new }
{
    if outcome.is_err() {
        *failures = failures.saturating_add(1);
    }
    outcome
}
