// What payloads of records tell.
ghost use Rattle.std.specs.Prelude.{◌≡◌, Some, IfOk, option_map};
ghost use Rattle.protocol_wire.specs.Fields.{fields};
ghost use Rattle.protocol_wire.specs.declared.record.TheConstants.{LEVELS};
ghost use Rattle.vm_c_values.specs.Arguments.{IsAttachTarget, IsCallTarget, IsFailure, IsRecord, IsValue, Reads};
ghost use Rattle.vm_c_values.specs.Records.{attached, attach_target_in, call_target_in, failure_in, target_told, value_in};

use crate::Unread;
use crate::texts::{copied_bytes, given};
use bytes::ByteStr;
use journal_model::{AttachInvocationTarget, NonEmptyValue, Target, TerminalFailure};
use protocol_calls::{
    AttachInvocationCommandMessage, CallCommandMessage, IdempotentRequestTarget, InvocationTarget,
    WorkflowTarget,
};
use protocol_stream::{to_headers, to_terminal_failure};
use protocol_wire::{DecodeError, Record, decode};
use std::alloc::{AllocError, Global};

// The record that a payload is, where it is one.
fn record<R: Record>(alloc: Global, payload: &[u8]) -> Result<R, Unread>
    ensures { Reads (IsRecord R.record_type payload.now) (λ read. read ≡ R.of LEVELS (fields payload.now)) result }
{
    match decode(alloc, payload) {
        Ok(read) => Ok(read),
        Err(DecodeError::Memory) => Err(Unread::Memory),
        Err(DecodeError::Fault(_)) => Err(Unread::Malformed),
    }
}

/// The failure that a payload of a `Failure` tells. A code of more than sixteen bits is 500.
pub fn terminal_failure(alloc: Global, payload: &[u8]) -> Result<TerminalFailure, Unread>
    ensures { Reads (IsFailure payload.now) (λ failure. failure ≡ failure_in payload.now) result }
{
    Ok(to_terminal_failure(alloc, record(alloc, payload)?)?)
}

/// A value, or the failure that a payload tells.
pub fn non_empty_value(alloc: Global, content: &[u8], failed: u32) -> Result<NonEmptyValue, Unread>
    ensures { Reads (IsValue failed content.now) (λ value. value ≡ value_in failed content.now) result }
{
    if failed == 0 {
        Ok(NonEmptyValue::Success(copied_bytes(alloc, content)?))
    } else {
        Ok(NonEmptyValue::Failure(terminal_failure(alloc, content)?))
    }
}

/// Whom a call or a send is for, and its name.
#[derive(Drop)]
pub struct NamedTarget {
    pub target: Target,
    pub name: Option<ByteStr>,
}

fn target_told(alloc: Global, read: CallCommandMessage) -> Result<NamedTarget, AllocError>
    ensures { IfOk result (λ named. named ≡ target_told read) }
{
    let CallCommandMessage {
        service_name,
        handler_name,
        headers,
        key,
        idempotency_key,
        scope,
        limit_key,
        name,
        ..
    } = read;
    Ok(NamedTarget {
        target: Target {
            service: service_name,
            handler: handler_name,
            key: given(key),
            idempotency_key,
            scope,
            limit_key,
            headers: to_headers(alloc, headers)?,
        },
        name: given(name),
    })
}

/// The target that a payload of a `CallCommandMessage` tells: its parameter and its ids are not looked at.
pub fn call_target(alloc: Global, payload: &[u8]) -> Result<NamedTarget, Unread>
    ensures { Reads (IsCallTarget payload.now) (λ named. named ≡ call_target_in payload.now) result }
{
    Ok(target_told(alloc, record(alloc, payload)?)?)
}

fn attached_to(target: InvocationTarget) -> AttachInvocationTarget
    ensures { result ≡ attached target }
{
    match target {
        InvocationTarget::InvocationId(id) => AttachInvocationTarget::InvocationId(id),
        InvocationTarget::WorkflowTarget(
            WorkflowTarget {
                workflow_name,
                workflow_key,
                scope,
            },
        ) => AttachInvocationTarget::WorkflowId {
            name: workflow_name,
            key: workflow_key,
            scope,
        },
        InvocationTarget::IdempotentRequestTarget(
            IdempotentRequestTarget {
                service_name,
                service_key,
                handler_name,
                idempotency_key,
                scope,
            },
        ) => AttachInvocationTarget::IdempotencyId {
            service_name,
            handler_name,
            idempotency_key,
            service_key,
            scope,
        },
    }
}

/// The target that a payload of an `AttachInvocationCommandMessage` tells; one that tells none is malformed.
pub fn attach_target(alloc: Global, payload: &[u8]) -> Result<AttachInvocationTarget, Unread>
    ensures { Reads (IsAttachTarget payload.now) (λ target. Some target ≡ attach_target_in payload.now) result }
{
    let AttachInvocationCommandMessage { target, .. } = record(alloc, payload)?;
    match target {
        Some(target) => Ok(attached_to(target)),
        None => Err(Unread::Malformed),
    }
}
