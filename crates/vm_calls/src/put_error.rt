// Why the command of a call was neither matched nor written.
use protocol_errors::{InvocationErrorCode, WithInvocationErrorCode};
use protocol_stream::EncodingError;
use std::fmt;
use vm_commands::{CommandMessageHeaderDiff, ReplayError};

/// Why the command of a call was neither matched nor written.
#[derive(Debug, Drop)]
pub enum PutError<M> {
    /// The next recorded command is not the call's.
    Replay(ReplayError<M>),
    /// The frame could not be made.
    Encoding(EncodingError),
}

/// Prints the error that it holds.
impl<M: CommandMessageHeaderDiff> fmt::Display for PutError<M> {
    ghost use Rattle.std.specs.Prelude.{Some};
    ghost use Rattle.vm_calls.specs.RequestPuts.{put_error_text};

    ghost output = { λ error. Some (put_error_text M.difference error) };

    fn fmt<W: fmt::Write>(&self, f: &mut fmt::Formatter<W>) -> fmt::Result {
        match self {
            PutError::Replay(error) => write!(f, "{error}"),
            PutError::Encoding(error) => write!(f, "{error}"),
        }
    }
}

impl<M: CommandMessageHeaderDiff + fmt::Debug + Drop> std::error::Error for PutError<M> {}

/// The code of the error that it holds: a frame that could not be made is internal.
impl<M> WithInvocationErrorCode for PutError<M> {
    ghost use Rattle.vm_calls.specs.RequestPuts.{put_code};

    ghost code_of = { put_code };

    fn code(&self) -> InvocationErrorCode {
        match self {
            PutError::Replay(error) => error.code(),
            PutError::Encoding(error) => error.code(),
        }
    }
}
