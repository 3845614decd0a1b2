// A call of another handler whose answer is not waited for.
ghost use Rattle.std.specs.Prelude.{◌≡◌, Option, None, IfOk};
ghost use Rattle.journal_model.specs.declared.call.Moment.{Moment};
ghost use Rattle.journal_model.specs.Refusal.{refusal_of};
ghost use Rattle.journal_model.specs.Run.{call_record, invoke_time, name_or_empty};
ghost use Rattle.protocol_types.specs.declared.message_type.MessageType.TheVariants.{OneWayCallCommand};
ghost use Rattle.protocol_laws.specs.Requests.{request_of_one_way_call};
ghost use Rattle.vm_calls.specs.Words.{Call, Answer, Request, Invocation, Machine};
ghost use Rattle.vm_calls.specs.Active.{Sees, IsAtCommand};
ghost use Rattle.vm_calls.specs.CommandCalls.{MakesCommand};
ghost use Rattle.vm_calls.specs.SpentReplay.{IsSpent, FailsSpent};
ghost use Rattle.vm_calls.specs.MismatchedCommands.{FindsAs};

use crate::calling::put_call;
use crate::tracking::{begin_tracked, tracks_sends};
use bytes::{ByteStr, Bytes};
use journal_model::{ImplicitCancellationOption, NotificationHandle, PayloadOptions, Target};
use protocol_calls::OneWayCallCommandMessage;
use protocol_stream::to_header_records;
use protocol_types::MessageType;
use std::alloc::{AllocError, Global};
use vm_calls::{Active, CallError, ignores, or_empty};

// The command that calls the target at this moment, with its one completion.
fn to_send_command(
    alloc: Global,
    target: Target,
    parameter: Bytes,
    invoke_time: u64,
    invocation_id_notification_idx: u32,
    name: ByteStr,
) -> Result<OneWayCallCommandMessage, AllocError>
    ensures { IfOk result (λ command. request_of_one_way_call command
        ≡ Request.OneWayCall (call_record target parameter) invoke_time invocation_id_notification_idx name) }
{
    let Target {
        service,
        handler,
        key,
        idempotency_key,
        scope,
        limit_key,
        headers,
    } = target;
    match to_header_records(alloc, headers) {
        Ok(headers) => Ok(OneWayCallCommandMessage {
            service_name: service,
            handler_name: handler,
            parameter,
            headers,
            key: or_empty(key),
            idempotency_key,
            scope,
            limit_key,
            invoke_time,
            invocation_id_notification_idx,
            name,
        }),
        Err(error) => Err(error),
    }
}

/// Calls a handler without waiting for its answer, at a moment in milliseconds, or at once where that is 0: the handle's
/// notification tells the invocation's id.
///
/// Whether target and moment are refused is to be asked before, by `vm_refusals`.
pub fn send(
    active: &mut Active,
    alloc: Global,
    cancellation: ImplicitCancellationOption,
    checks_off: bool,
    target: Target,
    parameter: Bytes,
    execution_time: u64,
    name: Option<ByteStr>,
    options: PayloadOptions,
) -> Result<NotificationHandle, CallError<OneWayCallCommandMessage>>
    ensures made { (given : Invocation) (m : Machine) (moment : Option Moment) → invoke_time moment ≡ execution_time
        → refusal_of given.version (Call.Send target parameter moment name options) ≡ None
        → given.options.implicit_cancellation ≡ cancellation → Sees given active.old m
        → MakesCommand checks_off given m (Call.Send target parameter moment name options) (λ handle. Answer.Handle handle) active.old result active.new }
    ensures spent { IsSpent active.old → FailsSpent 1 active.old result active.new }
    ensures found { FindsAs OneWayCallCommand active.old result active.new }
    ensures told { IsAtCommand OneWayCallCommand (name_or_empty name) active.old.journal active.new.journal }
{
    let (name, id, handle) = begin_tracked(
        active,
        tracks_sends(cancellation),
        MessageType::OneWayCallCommand,
        or_empty(name),
    )?;
    let command = to_send_command(alloc, target, parameter, execution_time, id, name)?;
    let ignore = ignores(checks_off, options);
    put_call(active, handle, alloc, command, ignore)
}
