// Taking the next recorded command as the one that a call makes.
ghost use Rattle.std.specs.Prelude.{◌≡◌, List, Some, drop};
ghost use Rattle.journal_model.specs.Request.{Request};
ghost use Rattle.vm_commands.specs.NextCommand.{next_of, unread_as, Compares, TakesAs, Matches};

use crate::{Command, ReplayError, ToldMismatch};
use protocol_errors::UnavailableEntryError;
use protocol_messages::RawMessageExt;
use protocol_stream::{DecodingError, RawMessage};
use std::alloc::Global;
use std::collections::VecDeque;

// The first message leaves, if there is one.
pub(crate) fn take_first(commands: &mut VecDeque<RawMessage>) -> Option<RawMessage>
    ensures first { result ≡ next_of commands.old.items }
    ensures left { commands.new.items ≡ drop 1 commands.old.items }
{
    commands.pop_front()
}

// Want of memory has a name of its own.
pub(crate) fn unread<M>(error: DecodingError) -> ReplayError<M>
    ensures { result ≡ unread_as error }
{
    match error {
        DecodingError::OutOfMemory => ReplayError::OutOfMemory,
        error => ReplayError::Decoding(error),
    }
}

// The recorded command, where it has the header of the call's.
pub(crate) fn compare<M: Command>(
    alloc: Global,
    command_index: i64,
    recorded: M,
    expected: M,
    ignore_payload_equality: bool,
) -> Result<M, ReplayError<M>>
    ensures { Compares M.erased command_index ignore_payload_equality recorded expected result }
{
    if recorded.header_eq(&expected, ignore_payload_equality) {
        drop(expected);
        return Ok(recorded);
    }
    match ToldMismatch::new(alloc, command_index, recorded, expected) {
        Ok(told) => Err(ReplayError::Mismatch(told)),
        Err(_) => Err(ReplayError::OutOfMemory),
    }
}

// The message as the command that a call makes.
#[tactic(auto, using(crate::proofs::NextCommand::compares_next))]
pub(crate) fn take_next<M: Command>(
    alloc: Global,
    next: Option<RawMessage>,
    command_index: i64,
    expected: M,
    ignore_payload_equality: bool,
) -> Result<M, ReplayError<M>>
    ensures { TakesAs M.record_type M.of M.erased command_index ignore_payload_equality expected next result }
{
    let Some(message) = next else {
        drop(expected);
        return Err(ReplayError::Unavailable(UnavailableEntryError::new(M::ty())));
    };
    let read = message.decode_to::<M>(alloc, command_index);
    drop(message);
    match read {
        Ok(recorded) => compare(
            alloc,
            command_index,
            recorded,
            expected,
            ignore_payload_equality,
        ),
        Err(error) => {
            drop(expected);
            Err(unread(error))
        }
    }
}

/// Takes the next recorded command, which has to be the one that a call makes.
///
/// The first message leaves the queue in every case, also where it is another command or memory is refused. The moments of a
/// sleep and of a send are not compared, nor payloads where they are ignored: the answer is the recorded command.
pub fn pop_journal_entry<M: Command>(
    alloc: Global,
    commands: &mut VecDeque<RawMessage>,
    command_index: i64,
    expected: M,
    ignore_payload_equality: bool,
) -> Result<M, ReplayError<M>>
    ensures left { commands.new.items ≡ drop 1 commands.old.items }
    ensures taken { TakesAs M.record_type M.of M.erased command_index ignore_payload_equality expected (next_of commands.old.items) result }
    ensures matched { (made : Request) (written : List Request) → M.request_of expected ≡ Some made → Matches ignore_payload_equality made written commands.old.items result commands.new.items }
{
    let next = take_first(commands);
    take_next(
        alloc,
        next,
        command_index,
        expected,
        ignore_payload_equality,
    )
}
