// The entries of the journal come: commands that were recorded before, and notifications.
ghost use Rattle.std.specs.Prelude.{◌≡◌, ◌∷◌, ◌++◌, [], OnErr, OnOk};
ghost use Rattle.vm_awaits.specs.Views.{results_of};
ghost use Rattle.vm_start.specs.Phases.{phase_after_entry};
ghost use Rattle.vm_machine.specs.Entries.{ComesCommand, ComesNotification, Queues};

use crate::Incoming;
use crate::entry_error::{EntryError, unread};
use protocol_errors::UNEXPECTED_ENTRY_MESSAGE;
use protocol_messages::RawMessageExt;
use protocol_stream::RawMessage;
use std::alloc::{AllocError, Global};
use std::collections::VecDeque;
use std::mem::replace;
use vm_awaits::AsyncResultsState;
use vm_calls::Active;
use vm_start::Phase;

// One entry more has come, where so many were left.
fn after_entry(left: u32) -> Phase
    ensures { result ≡ phase_after_entry left }
{
    if left > 1 {
        return Phase::WaitingReplayEntries { left: left - 1 };
    }
    Phase::Active
}

// One command more is to be matched.
fn push_command(commands: &mut VecDeque<RawMessage>, message: RawMessage) -> Result<(), AllocError>
    ensures ok { OnOk result (commands.new.items ≡ commands.old.items ++ message ∷ []) }
    ensures err { OnErr result (commands.new.items ≡ commands.old.items) }
{
    commands.push_back(message)?;
    Ok(())
}

// What the message notifies waits in line.
fn queue(
    results: &mut AsyncResultsState,
    alloc: Global,
    message: RawMessage,
) -> Result<(), EntryError>
    ensures { Queues message (results_of results.old) result (results_of results.new) }
{
    let read = message.decode_as_notification(alloc);
    drop(message);
    match read {
        Ok(notification) => match results.enqueue(notification) {
            Ok(()) => Ok(()),
            Err(_) => Err(EntryError::OutOfMemory),
        },
        Err(error) => Err(unread(error)),
    }
}

/// A command comes that was recorded before: it is to be matched by the calls, in the order of the commands.
pub fn receive_command(
    phase: &mut Phase,
    active: &mut Active,
    message: RawMessage,
) -> Result<(), EntryError>
    ensures { ComesCommand message phase.old active.old result phase.new active.new }
{
    match phase {
        Phase::WaitingReplayEntries { left } => {
            let left = *left;
            push_command(&mut active.commands, message)?;
            drop(replace(phase, after_entry(left)));
            Ok(())
        }
        Phase::WaitingStart | Phase::Active | Phase::Closed | Phase::Failed(_) => {
            drop(message);
            Err(EntryError::Fixed(UNEXPECTED_ENTRY_MESSAGE))
        }
    }
}

/// A notification comes: it waits in line until an await looks at it. One that was recorded before counts as an entry; behind the
/// end each is ignored.
pub fn receive_notification(
    phase: &mut Phase,
    active: &mut Active,
    alloc: Global,
    message: RawMessage,
) -> Result<(), EntryError>
    ensures { ComesNotification message phase.old active.old result phase.new active.new }
{
    match phase {
        Phase::WaitingReplayEntries { left } => {
            let left = *left;
            queue(&mut active.results, alloc, message)?;
            drop(replace(phase, after_entry(left)));
            Ok(())
        }
        Phase::Active => queue(&mut active.results, alloc, message),
        Phase::Closed => {
            drop(message);
            Ok(())
        }
        Phase::WaitingStart | Phase::Failed(_) => {
            drop(message);
            Err(EntryError::Unexpected(Incoming::Notification))
        }
    }
}
