// A call of another handler, which takes two completions.
ghost use Rattle.std.specs.Prelude.{◌≡◌, ◌||◌, ℕ, Bool, Some, None, IfOk, IfErr};
ghost use Rattle.attempt_model.specs.Machine.{next_slot};
ghost use Rattle.attempt_model.specs.Requests.{answer_by};
ghost use Rattle.journal_model.specs.Run.{call_record, name_or_empty};
ghost use Rattle.journal_model.specs.Refusal.{refusal_of};
ghost use Rattle.protocol_laws.specs.Requests.{request_of_call};
ghost use Rattle.vm_commands.specs.HeaderEquality.{is_unstable};
ghost use Rattle.protocol_messages.specs.RecordMessage.{type_of_record};
ghost use Rattle.vm_calls.specs.Words.{Call, Answer, Request, Invocation, Machine};
ghost use Rattle.vm_calls.specs.Active.{Sees, asking, IsAtCommand, TellsSame, LacksCompletions, HasCompletions};
ghost use Rattle.vm_calls.specs.CommandCalls.{MakesCommand, AsksOne, IsReadyToPut};
ghost use Rattle.vm_calls.specs.SpentReplay.{IsSpent, FailsSpent, KeepsRest};
ghost use Rattle.vm_calls.specs.MismatchedCommands.{FindsAs};
ghost use Rattle.vm_calls.specs.declared.call_error.NumberError.TheVariants.{IdsExhausted};
ghost use Rattle.vm_waiting.specs.CompletionPairs.{TakesTwo};
ghost use Rattle.vm_waiting.specs.TrackedChildren.{Tracks};

use crate::tracking::{keep_child, tracks_calls};
use bytes::{ByteStr, Bytes};
use journal_model::{ImplicitCancellationOption, NotificationId, PayloadOptions, Target};
use protocol_calls::CallCommandMessage;
use protocol_stream::to_header_records;
use protocol_types::MessageType;
use std::alloc::{AllocError, Global};
use vm_calls::{Active, CallError, NumberError, handle_for, ignores, or_empty};
use vm_commands::Command;
use vm_types::CallHandle;

// The command of a call with these two completions.
fn to_call_command(
    alloc: Global,
    target: Target,
    parameter: Bytes,
    invocation_id_notification_idx: u32,
    result_completion_id: u32,
    name: ByteStr,
) -> Result<CallCommandMessage, AllocError>
    ensures { IfOk result (λ command. request_of_call command
        ≡ Request.CallService (call_record target parameter) invocation_id_notification_idx result_completion_id name) }
{
    let Target {
        service,
        handler,
        key,
        idempotency_key,
        scope,
        limit_key,
        headers,
    } = target;
    match to_header_records(alloc, headers) {
        Ok(headers) => Ok(CallCommandMessage {
            service_name: service,
            handler_name: handler,
            parameter,
            headers,
            key: or_empty(key),
            idempotency_key,
            scope,
            limit_key,
            invocation_id_notification_idx,
            result_completion_id,
            name,
        }),
        Err(error) => Err(error),
    }
}

// Takes the next two completion ids, and the handles that stand for them.
fn next_two(active: &mut Active) -> Result<(u32, u32, CallHandle), NumberError>
    ensures ok { IfOk result (λ made. TakesTwo made.0 made.1
        (made.2.invocation_id_notification_handle, made.2.call_notification_handle) active.old active.new) }
    ensures err { IfErr result (λ error. error ≡ IdsExhausted → LacksCompletions 2 active.old) }
    ensures output { active.new.output ≡ active.old.output }
    ensures told { TellsSame active.old.journal active.new.journal }
{
    let Ok((first, second)) = active.journal.next_two_completion_notification_ids() else {
        return Err(NumberError::IdsExhausted);
    };
    let invocation_id_notification_handle = handle_for(
        &mut active.results,
        NotificationId::CompletionId(first),
    )?;
    let call_notification_handle = handle_for(
        &mut active.results,
        NotificationId::CompletionId(second),
    )?;
    let handles = CallHandle {
        invocation_id_notification_handle,
        call_notification_handle,
    };
    Ok((first, second, handles))
}

// Begins a call of two completions: as `Active::begin`.
fn begin_two(
    active: &mut Active,
    ty: MessageType,
    name: ByteStr,
) -> Result<(ByteStr, u32, u32, CallHandle), NumberError>
    ensures told { IsAtCommand ty name active.old.journal active.new.journal }
    ensures name { IfOk result (λ taken. taken.0 ≡ name) }
    ensures taken { IfOk result (λ taken. TakesTwo taken.1 taken.2
        (taken.3.invocation_id_notification_handle, taken.3.call_notification_handle) (asking ty name active.old) active.new) }
    ensures err { IfErr result (λ error. error ≡ IdsExhausted → LacksCompletions 2 active.old) }
    ensures output { active.new.output ≡ active.old.output }
{
    let copy = active.ask(ty, name);
    let (first, second, handles) = next_two(active)?;
    match copy {
        Ok(name) => Ok((name, first, second, handles)),
        Err(_) => Err(NumberError::OutOfMemory),
    }
}

// Begins one whose first completion gives the invocation id of what is called.
fn begin_two_tracked(
    active: &mut Active,
    tracked: bool,
    ty: MessageType,
    name: ByteStr,
) -> Result<(ByteStr, u32, u32, CallHandle), NumberError>
    ensures told { IsAtCommand ty name active.old.journal active.new.journal }
    ensures name { IfOk result (λ taken. taken.0 ≡ name) }
    ensures taken { IfOk result (λ taken. Tracks tracked taken.1
        (TakesTwo taken.1 taken.2 (taken.3.invocation_id_notification_handle, taken.3.call_notification_handle) (asking ty name active.old)) active.new) }
    ensures err { IfErr result (λ error. error ≡ IdsExhausted → LacksCompletions 2 active.old) }
    ensures output { active.new.output ≡ active.old.output }
{
    let (name, first, second, handles) = begin_two(active, ty, name)?;
    match keep_child(&mut active.children, tracked, first) {
        Ok(()) => Ok((name, first, second, handles)),
        Err(_) => {
            drop(name);
            Err(NumberError::OutOfMemory)
        }
    }
}

/// Puts the command of a call that has begun, and answers the handles of its completions.
pub(crate) fn put_call<M: Command, T: Copy>(
    active: &mut Active,
    handles: T,
    alloc: Global,
    command: M,
    ignore: bool,
) -> Result<T, CallError<M>>
    ensures journal { active.new.journal ≡ active.old.journal }
    ensures makes { (checks_off : Bool) (given : Invocation) (m : Machine) (call : Call) (request : Request) (old : Active) → M.request_of command ≡ Some request
        → (answer : T → Answer) → AsksOne given m call request → ignore ≡ (checks_off || is_unstable call) → IsReadyToPut given m call request old active.old
        → answer_by given.input.invocation_id (next_slot m) m.signals call ≡ answer handles → MakesCommand checks_off given m call answer old result active.new }
    ensures spent { (request : Request) (taken : ℕ) (old : Active) → M.request_of command ≡ Some request → KeepsRest old active.old → HasCompletions taken old
        → IsSpent old → FailsSpent taken old result active.new }
    ensures found { (ty : MessageType) (old : Active) → type_of_record M.record_type ≡ Some ty → KeepsRest old active.old → FindsAs ty old result active.new }
{
    match active.put(alloc, command, ignore) {
        Err(error) => Err(CallError::Put(error)),
        Ok(()) => Ok(handles),
    }
}

/// Calls another handler: of the two notifications the first tells the invocation's id, the second brings its answer.
///
/// Whether the target is refused is to be asked before, by `vm_refusals::refuse_target`.
pub fn call(
    active: &mut Active,
    alloc: Global,
    cancellation: ImplicitCancellationOption,
    checks_off: bool,
    target: Target,
    parameter: Bytes,
    name: Option<ByteStr>,
    options: PayloadOptions,
) -> Result<CallHandle, CallError<CallCommandMessage>>
    ensures made { (given : Invocation) (m : Machine) → refusal_of given.version (Call.Call target parameter name options) ≡ None
        → given.options.implicit_cancellation ≡ cancellation → Sees given active.old m
        → MakesCommand checks_off given m (Call.Call target parameter name options)
        (λ made. Answer.Handles made.invocation_id_notification_handle made.call_notification_handle) active.old result active.new }
    ensures spent { IsSpent active.old → FailsSpent 2 active.old result active.new }
    ensures found { FindsAs MessageType.CallCommand active.old result active.new }
    ensures told { IsAtCommand MessageType.CallCommand (name_or_empty name) active.old.journal active.new.journal }
{
    let (name, first, second, handles) = begin_two_tracked(
        active,
        tracks_calls(cancellation),
        MessageType::CallCommand,
        or_empty(name),
    )?;
    let command = to_call_command(alloc, target, parameter, first, second, name)?;
    let ignore = ignores(checks_off, options);
    put_call(active, handles, alloc, command, ignore)
}
