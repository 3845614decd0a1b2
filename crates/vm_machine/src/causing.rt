// What a machine fails with that takes no message.
ghost use Rattle.std.specs.Prelude.{◌≡◌, IfOk, ◌||◌};
ghost use Rattle.vm_machine.specs.Causes.{event_of, EntryCauses};

use crate::about::about_nothing;
use crate::{EntryError, Incoming, Phase, StartError, unexpected};
use bytes::ByteStr;
use protocol_errors::Error;
use std::alloc::{AllocError, Global};

// The name that errors have for a message that comes.
fn event_name(kind: Incoming) -> ByteStr
    ensures { result ≡ event_of kind }
{
    match kind {
        Incoming::Start => ByteStr::from_static("NewStartMessage"),
        Incoming::Command => ByteStr::from_static("NewCommandMessage"),
        Incoming::Notification => ByteStr::from_static("NewNotificationMessage"),
        Incoming::RunAcknowledgement => {
            ByteStr::from_static("NewProposeRunCompletionAckMessage")
        }
        Incoming::EphemeralAnswer => {
            ByteStr::from_static("NewGetStateEphemeralNotificationMessage")
        }
        Incoming::Other => ByteStr::from_static("NewMessage"),
    }
}

/// What a machine fails with that takes no message that has come: it is about no command.
pub fn entry_cause(
    alloc: Global,
    phase: &Phase,
    is_replaying: bool,
    error: EntryError,
) -> Result<Error, AllocError>
    ensures { EntryCauses phase.now is_replaying error result }
{
    match error {
        EntryError::Fixed(error) => Ok(error.into()),
        EntryError::Unexpected(kind) => unexpected(alloc, phase, is_replaying, event_name(kind)),
        EntryError::Decoding(error) => about_nothing(alloc, &error),
        EntryError::Start(StartError::OutOfMemory) => Err(AllocError),
        EntryError::Start(error) => about_nothing(alloc, &error),
        EntryError::UnknownRun(error) => about_nothing(alloc, &error),
        EntryError::OutOfMemory => Err(AllocError),
    }
}
