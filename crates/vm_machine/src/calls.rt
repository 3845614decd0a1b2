// What a call fails with.
ghost use Rattle.std.specs.Prelude.{◌≡◌};
ghost use Rattle.vm_machine.specs.Causes.{put_lacks_memory, PutCauses, CallCauses, NumberCauses, InputCauses, child_not_id_error};

use crate::about::{about_last, about_nothing};
use crate::{CallError, IdsExhausted, InputError, Journal, NumberError, PutError, ReplayError};
use bytes::ByteStr;
use protocol_differences::CommandMessageHeaderDiff;
use protocol_errors::{Error, codes};
use protocol_stream::EncodingError;
use std::alloc::{AllocError, Global};

fn lacks_memory<M>(error: &PutError<M>) -> bool
    ensures { result ≡ put_lacks_memory error.now }
{
    match error {
        PutError::Replay(ReplayError::OutOfMemory) => true,
        PutError::Encoding(EncodingError::OutOfMemory) => true,
        PutError::Replay(ReplayError::Unavailable(_)) => false,
        PutError::Replay(ReplayError::Decoding(_)) => false,
        PutError::Replay(ReplayError::Mismatch(_)) => false,
        PutError::Encoding(EncodingError::PayloadTooLong) => false,
    }
}

// Of a command that was neither matched nor written.
fn put_cause<M: CommandMessageHeaderDiff>(
    alloc: Global,
    journal: &Journal,
    error: &PutError<M>,
) -> Result<Error, AllocError>
    ensures { PutCauses M.difference journal.now error.now result }
{
    if lacks_memory(error) {
        return Err(AllocError);
    }
    about_last(alloc, journal, error)
}

/// What a call fails with that puts one command: it is about that command.
pub fn call_cause<M: CommandMessageHeaderDiff>(
    alloc: Global,
    journal: &Journal,
    error: &CallError<M>,
) -> Result<Error, AllocError>
    ensures { CallCauses M.difference journal.now error.now result }
{
    match error {
        CallError::Number(NumberError::IdsExhausted) => about_last(alloc, journal, &IdsExhausted),
        CallError::Number(NumberError::OutOfMemory) => Err(AllocError),
        CallError::Put(error) => put_cause(alloc, journal, error),
        CallError::OutOfMemory => Err(AllocError),
    }
}

/// What a call fails with that makes a handle and puts no command: it is about none.
pub fn number_cause(alloc: Global, error: NumberError) -> Result<Error, AllocError>
    ensures { NumberCauses error result }
{
    match error {
        NumberError::IdsExhausted => about_nothing(alloc, &IdsExhausted),
        NumberError::OutOfMemory => Err(AllocError),
    }
}

/// What a machine fails with where what came for the invocation id of a child is none: it is about no command.
pub fn child_not_id() -> Error
    ensures { result ≡ child_not_id_error }
{
    Error::new(
        codes::INTERNAL,
        ByteStr::from_static("What came for the invocation id of a child is none"),
    )
}

/// What a machine fails with whose input cannot be read: it is about the input's command.
pub fn input_cause(
    alloc: Global,
    journal: &Journal,
    error: &InputError,
) -> Result<Error, AllocError>
    ensures { InputCauses journal.now error.now result }
{
    match error {
        InputError::Unavailable(error) => about_last(alloc, journal, error),
        InputError::Decoding(error) => about_last(alloc, journal, error),
        InputError::OutOfMemory => Err(AllocError),
    }
}
