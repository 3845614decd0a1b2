// Why a message that comes is not taken.
ghost use Rattle.std.specs.Prelude.{◌≡◌};
ghost use Rattle.vm_machine.specs.Entries.{unread_as};
ghost use Rattle.vm_machine.specs.declared.entry_error.EntryError.TheVariants.{OutOfMemory};

use crate::Incoming;
use protocol_errors::{BadProposeRunCompletionAck, FixedError};
use protocol_stream::DecodingError;
use std::alloc::{AllocError, AllocFailed};
use vm_start::StartError;

/// Why a message that comes is not taken.
#[derive(Debug, Drop)]
pub enum EntryError {
    /// No machine in this phase is told such a message.
    Fixed(FixedError),
    /// The machine is not in a state for it.
    Unexpected(Incoming),
    /// Its payload is none of its type.
    Decoding(DecodingError),
    /// The attempt does not begin with this start.
    Start(StartError),
    /// No run has an outcome that this could acknowledge.
    UnknownRun(BadProposeRunCompletionAck),
    OutOfMemory,
}

impl From<AllocError> for EntryError {
    ghost from_gives = { λ _ error. error ≡ OutOfMemory };

    fn from(_refused: AllocError) -> EntryError {
        EntryError::OutOfMemory
    }
}

impl<T: Drop> From<AllocFailed<T>> for EntryError {
    ghost from_gives = { λ _ error. error ≡ OutOfMemory };

    fn from(_refused: AllocFailed<T>) -> EntryError {
        EntryError::OutOfMemory
    }
}

/// Want of memory has a name of its own.
pub(crate) fn unread(error: DecodingError) -> EntryError
    ensures { result ≡ unread_as error }
{
    match error {
        DecodingError::OutOfMemory => EntryError::OutOfMemory,
        error => EntryError::Decoding(error),
    }
}
