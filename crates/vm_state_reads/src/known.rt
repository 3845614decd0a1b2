// What is left of a read once it has begun.
ghost use Rattle.std.specs.Prelude.{◌≡◌, Some, OnOk, IfErr};
ghost use Rattle.protocol_types.specs.declared.message_type.MessageType.{MessageType};
ghost use Rattle.protocol_messages.specs.RecordMessage.{type_of_record};
ghost use Rattle.vm_calls.specs.MismatchedCommands.{command_place, TellsPut};
ghost use Rattle.vm_awaits.specs.Views.{results_of};
ghost use Rattle.vm_state_reads.specs.ReadAnswers.{PutsReadAs, arrivals_of, with_known};

use journal_model::{Notification, NotificationHandle, NotificationId, NotificationResult};
use std::alloc::{AllocError, Global};
use vm_awaits::AsyncResultsState;
use vm_calls::{Active, PutError};
use vm_commands::Command;

/// The result of a completion is there at once, where it is known.
pub(crate) fn ready_at_once(
    results: &mut AsyncResultsState,
    id: u32,
    known: Option<NotificationResult>,
) -> Result<(), AllocError>
    ensures { OnOk result (results_of results.new ≡ with_known (arrivals_of id known) (results_of results.old)) }
{
    match known {
        None => Ok(()),
        Some(result) => results.insert_ready(Notification {
            id: NotificationId::CompletionId(id),
            result,
        }),
    }
}

/// Puts the command of a read that has begun, and answers the handle of its completion.
pub(crate) fn put_read<M: Command>(
    active: &mut Active,
    alloc: Global,
    command: M,
    ignoring: bool,
    handle: NotificationHandle,
) -> Result<NotificationHandle, PutError<M>>
    ensures put { PutsReadAs (M.request_of command) ignoring handle active.old result active.new }
    ensures found { (ty : MessageType) → type_of_record M.record_type ≡ Some ty
        → IfErr result (λ error. TellsPut ty (command_place active.new.journal) active.old.commands.items error) }
    ensures journal { active.new.journal ≡ active.old.journal }
{
    match active.put(alloc, command, ignoring) {
        Ok(()) => Ok(handle),
        Err(error) => Err(error),
    }
}
