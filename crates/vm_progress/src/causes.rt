// What a machine fails with where a read of the object's state fails.
ghost use Rattle.std.specs.Prelude.{◌≡◌};
ghost use Rattle.vm_progress.specs.Causes.{ReplayCauses, EncodingCauses, MatchCauses, ReadCauses};

use protocol_differences::CommandMessageHeaderDiff;
use protocol_errors::{Error, FixedError};
use protocol_stream::EncodingError;
use std::alloc::{AllocError, Global};
use vm_calls::NumberError;
use vm_commands::{ReplayError, StateReadError};
use vm_context::{IdsExhausted, Journal};
use vm_machine::about_last;
use vm_state_reads::ReadError;

// Of a recorded command that is not the read.
fn replay_cause<M: CommandMessageHeaderDiff>(
    alloc: Global,
    journal: &Journal,
    error: &ReplayError<M>,
) -> Result<Error, AllocError>
    ensures { ReplayCauses M.difference journal.now error.now result }
{
    match error {
        ReplayError::Unavailable(error) => about_last(alloc, journal, error),
        ReplayError::Decoding(error) => about_last(alloc, journal, error),
        ReplayError::Mismatch(error) => about_last(alloc, journal, error),
        ReplayError::OutOfMemory => Err(AllocError),
    }
}

// Of a frame that could not be made.
fn encoding_cause(
    alloc: Global,
    journal: &Journal,
    error: &EncodingError,
) -> Result<Error, AllocError>
    ensures { EncodingCauses journal.now error.now result }
{
    match error {
        EncodingError::PayloadTooLong => about_last(alloc, journal, error),
        EncodingError::OutOfMemory => Err(AllocError),
    }
}

// Of the next recorded command, which is the read of neither kind.
fn match_cause<L: CommandMessageHeaderDiff, E: CommandMessageHeaderDiff>(
    alloc: Global,
    journal: &Journal,
    empty: FixedError,
    error: &StateReadError<L, E>,
) -> Result<Error, AllocError>
    ensures { MatchCauses L.difference E.difference empty journal.now error.now result }
{
    match error {
        StateReadError::OtherType(error) => about_last(alloc, journal, error),
        StateReadError::Lazy(error) => replay_cause(alloc, journal, error),
        StateReadError::Eager(error) => replay_cause(alloc, journal, error),
        StateReadError::Empty => about_last(alloc, journal, &empty),
    }
}

/// What a read fails with: it is about the read's command. `empty` is told of a recorded read whose answer was known, and is not
/// there.
pub fn read_cause<L: CommandMessageHeaderDiff, E: CommandMessageHeaderDiff>(
    alloc: Global,
    journal: &Journal,
    empty: FixedError,
    error: &ReadError<L, E>,
) -> Result<Error, AllocError>
    ensures { ReadCauses L.difference E.difference empty journal.now error.now result }
{
    match error {
        ReadError::Number(NumberError::IdsExhausted) => about_last(alloc, journal, &IdsExhausted),
        ReadError::Number(NumberError::OutOfMemory) => Err(AllocError),
        ReadError::Replay(error) => match_cause(alloc, journal, empty, error),
        ReadError::Encoding(error) => encoding_cause(alloc, journal, error),
        ReadError::OutOfMemory => Err(AllocError),
    }
}
