// Why the next recorded command is not the one that a call makes.
ghost use Rattle.std.specs.Prelude.{Some};
ghost use Rattle.vm_commands.specs.NextCommand.{replay_code, replay_text};

use crate::ToldMismatch;
use protocol_differences::CommandMessageHeaderDiff;
use protocol_errors::{InvocationErrorCode, UnavailableEntryError, WithInvocationErrorCode, codes};
use protocol_stream::DecodingError;
use std::fmt;

/// Why the next recorded command is not the one that a call makes.
#[derive(Debug, Drop)]
pub enum ReplayError<M> {
    /// No recorded command is left.
    Unavailable(UnavailableEntryError),
    /// The recorded message is of another type, or its payload cannot be read. Want of memory is none of these.
    Decoding(DecodingError),
    /// The recorded command is of the same type, and has another header.
    Mismatch(ToldMismatch<M>),
    /// Memory was refused.
    OutOfMemory,
}

/// Prints the error that it holds.
impl<M: CommandMessageHeaderDiff> fmt::Display for ReplayError<M> {
    ghost output = { λ error. Some (replay_text M.difference error) };

    fn fmt<W: fmt::Write>(&self, f: &mut fmt::Formatter<W>) -> fmt::Result {
        match self {
            ReplayError::Unavailable(error) => write!(f, "{error}"),
            ReplayError::Decoding(error) => write!(f, "{error}"),
            ReplayError::Mismatch(error) => write!(f, "{error}"),
            ReplayError::OutOfMemory => write!(f, "out of memory"),
        }
    }
}

impl<M: CommandMessageHeaderDiff + fmt::Debug + Drop> std::error::Error for ReplayError<M> {}

/// Memory that was refused is internal, a payload that cannot be read the fault of the other side, anything else a mismatch of
/// the journal.
impl<M> WithInvocationErrorCode for ReplayError<M> {
    ghost code_of = { λ error. replay_code error };

    fn code(&self) -> InvocationErrorCode {
        match self {
            ReplayError::Unavailable(_) | ReplayError::Mismatch(_) => codes::JOURNAL_MISMATCH,
            ReplayError::Decoding(error) => error.code(),
            ReplayError::OutOfMemory => codes::INTERNAL,
        }
    }
}
