//! Which invocation a command is about. All commands that say so have the same fields for it.

ghost use Rattle.std.specs.Prelude.{◌≡◌, ◌++◌, ◌-◌, IfOk, OnOk};
ghost use Rattle.protocol_wire.specs.Fields.{fields};
ghost use Rattle.protocol_wire.specs.Check.{payload_fault};
ghost use Rattle.protocol_wire.specs.Sound.{AreSound, AreTexts};
ghost use Rattle.protocol_wire.specs.Selection.{values};
ghost use Rattle.protocol_wire.specs.Parts.{payload_of};
ghost use Rattle.protocol_wire.specs.Lengths.{counted_bytes};
ghost use Rattle.protocol_table.specs.declared.table.RecordType.TheVariants.{IdempotentRequestTarget as idempotent_request_target_type, WorkflowTarget as workflow_target_type};
ghost use Rattle.protocol_calls.specs.InvocationTarget.{target_of, target_parts};

use crate::idempotent_request_target::IdempotentRequestTarget;
use crate::workflow_target::WorkflowTarget;
use bytes::ByteStr;
use protocol_wire::table::attach_invocation_command::{
    IDEMPOTENT_REQUEST_TARGET, INVOCATION_ID, TARGET, WORKFLOW_TARGET,
};
use protocol_wire::{
    Payload, chosen_record_at, chosen_text_at, len_present_text, len_record, put_present_text,
    put_record,
};
use std::alloc::{AllocError, Global};

/// Which invocation is meant.
#[derive(Debug, Drop)]
pub enum InvocationTarget {
    InvocationId(ByteStr),
    WorkflowTarget(WorkflowTarget),
    IdempotentRequestTarget(IdempotentRequestTarget),
}

/// Which is meant by the last run of its fields, in a record with which nothing is wrong there.
pub fn target_at(
    alloc: Global,
    payload: &Payload<'_>,
    levels: u32,
) -> Result<Option<InvocationTarget>, AllocError>
    requires { AreTexts (values INVOCATION_ID.number (fields payload.now)) × AreSound (payload_fault (levels - 1) workflow_target_type) (values WORKFLOW_TARGET.number (fields payload.now)) × AreSound (payload_fault (levels - 1) idempotent_request_target_type) (values IDEMPOTENT_REQUEST_TARGET.number (fields payload.now)) }
    ensures { IfOk result (λ r. r ≡ target_of levels (fields payload.now)) }
{
    if let Some(invocation_id) = chosen_text_at(alloc, payload, &TARGET, INVOCATION_ID)? {
        return Ok(Some(InvocationTarget::InvocationId(invocation_id)));
    }
    if let Some(workflow_target) = chosen_record_at(
        alloc,
        payload,
        &TARGET,
        WORKFLOW_TARGET,
        levels,
    )? {
        return Ok(Some(InvocationTarget::WorkflowTarget(workflow_target)));
    }
    if let Some(idempotent_request_target) = chosen_record_at(
        alloc,
        payload,
        &TARGET,
        IDEMPOTENT_REQUEST_TARGET,
        levels,
    )? {
        return Ok(Some(InvocationTarget::IdempotentRequestTarget(idempotent_request_target)));
    }
    Ok(None)
}

/// Puts the fields of the target, where there is one.
pub fn put_target(
    alloc: Global,
    out: &mut Vec<u8>,
    one: &Option<InvocationTarget>,
) -> Result<(), AllocError>
    ensures { OnOk result (out.new.items ≡ out.old.items ++ payload_of (target_parts one.now)) }
{
    match one {
        None => Ok(()),
        Some(InvocationTarget::InvocationId(invocation_id)) => put_present_text(
            out,
            INVOCATION_ID,
            invocation_id,
        ),
        Some(InvocationTarget::WorkflowTarget(workflow_target)) => put_record(
            alloc,
            out,
            WORKFLOW_TARGET,
            workflow_target,
        ),
        Some(InvocationTarget::IdempotentRequestTarget(idempotent_request_target)) => put_record(
            alloc,
            out,
            IDEMPOTENT_REQUEST_TARGET,
            idempotent_request_target,
        ),
    }
}

/// How long the fields of the target are, behind the bytes before them.
pub fn len_target(before: u64, one: &Option<InvocationTarget>) -> u64
    ensures { result ≡ counted_bytes before (payload_of (target_parts one.now)) }
{
    match one {
        None => before,
        Some(InvocationTarget::InvocationId(invocation_id)) => len_present_text(
            before,
            INVOCATION_ID,
            invocation_id,
        ),
        Some(InvocationTarget::WorkflowTarget(workflow_target)) => len_record(
            before,
            WORKFLOW_TARGET,
            workflow_target,
        ),
        Some(InvocationTarget::IdempotentRequestTarget(idempotent_request_target)) => len_record(
            before,
            IDEMPOTENT_REQUEST_TARGET,
            idempotent_request_target,
        ),
    }
}
