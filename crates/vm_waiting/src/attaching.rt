// The calls that are about the answer of another invocation.
ghost use Rattle.std.specs.Prelude.{◌≡◌, [], None};
ghost use Rattle.journal_model.specs.Refusal.{refusal_of};
ghost use Rattle.protocol_types.specs.declared.message_type.MessageType.TheVariants.{AttachInvocationCommand, GetInvocationOutputCommand};
ghost use Rattle.vm_calls.specs.Words.{Call, Answer, Invocation, Machine};
ghost use Rattle.vm_calls.specs.Active.{Sees, IsAtCommand};
ghost use Rattle.vm_calls.specs.CommandCalls.{MakesCommand};
ghost use Rattle.vm_calls.specs.SpentReplay.{IsSpent, FailsSpent};
ghost use Rattle.vm_calls.specs.MismatchedCommands.{FindsAs};

use crate::targets::to_invocation_target;
use bytes::ByteStr;
use journal_model::{AttachInvocationTarget, NotificationHandle};
use protocol_calls::{AttachInvocationCommandMessage, GetInvocationOutputCommandMessage};
use protocol_types::MessageType;
use std::alloc::Global;
use vm_calls::{Active, CallError};

/// Waits for the answer of another invocation: the handle's notification brings it.
pub fn attach(
    active: &mut Active,
    alloc: Global,
    checks_off: bool,
    target: AttachInvocationTarget,
) -> Result<NotificationHandle, CallError<AttachInvocationCommandMessage>>
    ensures made { (given : Invocation) (m : Machine) → refusal_of given.version (Call.Attach target) ≡ None → Sees given active.old m
        → MakesCommand checks_off given m (Call.Attach target) (λ handle. Answer.Handle handle) active.old result active.new }
    ensures spent { IsSpent active.old → FailsSpent 1 active.old result active.new }
    ensures found { FindsAs AttachInvocationCommand active.old result active.new }
    ensures told { IsAtCommand AttachInvocationCommand [] active.old.journal active.new.journal }
{
    let target = to_invocation_target(target);
    let (name, result_completion_id, handle) = active.begin(
        MessageType::AttachInvocationCommand,
        ByteStr::new(),
    )?;
    let command = AttachInvocationCommandMessage {
        target: Some(target),
        result_completion_id,
        name,
    };
    active.put_completable(alloc, command, checks_off, handle)
}

/// Looks whether another invocation has answered: the handle's notification says so, and with what.
pub fn get_output(
    active: &mut Active,
    alloc: Global,
    checks_off: bool,
    target: AttachInvocationTarget,
) -> Result<NotificationHandle, CallError<GetInvocationOutputCommandMessage>>
    ensures made { (given : Invocation) (m : Machine) → refusal_of given.version (Call.GetOutput target) ≡ None
        → Sees given active.old m
        → MakesCommand checks_off given m (Call.GetOutput target) (λ handle. Answer.Handle handle) active.old result active.new }
    ensures spent { IsSpent active.old → FailsSpent 1 active.old result active.new }
    ensures found { FindsAs GetInvocationOutputCommand active.old result active.new }
    ensures told { IsAtCommand GetInvocationOutputCommand [] active.old.journal active.new.journal }
{
    let (name, id, handle) = active.begin(MessageType::GetInvocationOutputCommand, ByteStr::new())?;
    let target = to_invocation_target(target);
    let command = GetInvocationOutputCommandMessage {
        target: Some(target),
        result_completion_id: id,
        name,
    };
    active.put_completable(alloc, command, checks_off, handle)
}
