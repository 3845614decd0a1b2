// Why an attempt does not begin.
ghost use Rattle.std.specs.Prelude.{◌≡◌, Some};
ghost use Rattle.vm_start.specs.Starts.{start_code, start_text};
ghost use Rattle.vm_start.specs.declared.error.StartError.TheVariants.{OutOfMemory};

use protocol_errors::{
    BadEagerStateKeyError, InvocationErrorCode, KNOWN_ENTRIES_IS_ZERO, WithInvocationErrorCode,
    codes,
};
use std::alloc::{AllocError, AllocFailed};
use std::fmt;

/// Why an attempt does not begin. The keys of the state are looked at before the number of entries.
#[derive(Debug, Drop)]
pub enum StartError {
    /// A key of the object's state is no text; this is the first that is none.
    BadStateKey(BadEagerStateKeyError),
    /// No entry is announced, not even the input.
    KnownEntriesIsZero,
    /// Memory was refused.
    OutOfMemory,
}

/// Prints the error that it holds.
impl fmt::Display for StartError {
    ghost output = { λ error. Some (start_text error) };

    fn fmt<W: fmt::Write>(&self, f: &mut fmt::Formatter<W>) -> fmt::Result {
        match self {
            StartError::BadStateKey(error) => write!(f, "{error}"),
            StartError::KnownEntriesIsZero => write!(f, "{KNOWN_ENTRIES_IS_ZERO}"),
            StartError::OutOfMemory => write!(f, "out of memory"),
        }
    }
}

impl From<AllocError> for StartError {
    ghost from_gives = { λ _ error. error ≡ OutOfMemory };

    fn from(_refused: AllocError) -> StartError {
        StartError::OutOfMemory
    }
}

impl std::error::Error for StartError {}

/// A key that is no text and memory that was refused are internal, no entry is the fault of the other side.
impl WithInvocationErrorCode for StartError {
    ghost code_of = { start_code };

    fn code(&self) -> InvocationErrorCode {
        match self {
            StartError::BadStateKey(error) => error.code(),
            StartError::KnownEntriesIsZero => KNOWN_ENTRIES_IS_ZERO.code(),
            StartError::OutOfMemory => codes::INTERNAL,
        }
    }
}

impl<T: Drop> From<AllocFailed<T>> for StartError {
    ghost from_gives = { λ _ error. error ≡ OutOfMemory };

    fn from(_refused: AllocFailed<T>) -> StartError {
        StartError::OutOfMemory
    }
}
