ghost use Rattle.std.specs.Prelude.{◌≡◌, ◌++◌, None, IfOk, OnOk};
ghost use Rattle.protocol_wire.specs.Fields.{fields};
ghost use Rattle.protocol_wire.specs.Check.{payload_fault};
ghost use Rattle.protocol_wire.specs.Parts.{payload_of};
ghost use Rattle.protocol_wire.specs.Lengths.{counted_bytes};
ghost use Rattle.protocol_table.specs.declared.table.RecordType.TheVariants.{Notification as notification_type};
ghost use Rattle.protocol_controls.specs.Notification.{notification_id_of, id_parts, notification_result_of, result_parts};

use bytes::ByteStr;
use protocol_records::{Failure, StateKeys, Value, Void, both};
use protocol_wire::table::notification::{
    COMPLETION_ID, FAILURE, ID, INVOCATION_ID, RESULT, SIGNAL_ID, SIGNAL_NAME, STATE_KEYS, VALUE,
    VOID,
};
use protocol_wire::{
    Payload, Record, RecordType, chosen_record_at, chosen_text_at, chosen_u32_at, len_present_text,
    len_present_u32, len_record, put_present_text, put_present_u32, put_record,
};
use std::alloc::{AllocError, Global};

/// What is notified: a completion, or a signal by its number or its name.
#[derive(Debug, Drop)]
pub enum NotificationMessageId {
    CompletionId(u32),
    SignalId(u32),
    SignalName(ByteStr),
}

/// What a notification brings.
#[derive(Debug, Drop)]
pub enum NotificationMessageResult {
    Void(Void),
    Value(Value),
    Failure(Failure),
    InvocationId(ByteStr),
    StateKeys(StateKeys),
}

/// A completion notification or a signal: one shape for all of them, whatever the message type. The store asks for an id and a result.
#[derive(Debug, Drop)]
pub struct NotificationMessage {
    pub id: Option<NotificationMessageId>,
    pub result: Option<NotificationMessageResult>,
}

fn id_at(
    alloc: Global,
    payload: &Payload<'_>,
    levels: u32,
) -> Result<Option<NotificationMessageId>, AllocError>
    requires { payload_fault levels notification_type payload.now ≡ None }
    ensures { IfOk result (λ r. r ≡ notification_id_of levels (fields payload.now)) }
{
    if let Some(completion_id) = chosen_u32_at(payload, &ID, COMPLETION_ID) {
        return Ok(Some(NotificationMessageId::CompletionId(completion_id)));
    }
    if let Some(signal_id) = chosen_u32_at(payload, &ID, SIGNAL_ID) {
        return Ok(Some(NotificationMessageId::SignalId(signal_id)));
    }
    if let Some(signal_name) = chosen_text_at(alloc, payload, &ID, SIGNAL_NAME)? {
        return Ok(Some(NotificationMessageId::SignalName(signal_name)));
    }
    Ok(None)
}

fn put_id(out: &mut Vec<u8>, one: &Option<NotificationMessageId>) -> Result<(), AllocError>
    ensures { OnOk result (out.new.items ≡ out.old.items ++ payload_of (id_parts one.now)) }
{
    match one {
        None => Ok(()),
        Some(NotificationMessageId::CompletionId(completion_id)) => put_present_u32(
            out,
            COMPLETION_ID,
            *completion_id,
        ),
        Some(NotificationMessageId::SignalId(signal_id)) => put_present_u32(
            out, SIGNAL_ID, *signal_id,
        ),
        Some(NotificationMessageId::SignalName(signal_name)) => put_present_text(
            out,
            SIGNAL_NAME,
            signal_name,
        ),
    }
}

fn len_id(before: u64, one: &Option<NotificationMessageId>) -> u64
    ensures { result ≡ counted_bytes before (payload_of (id_parts one.now)) }
{
    match one {
        None => before,
        Some(NotificationMessageId::CompletionId(completion_id)) => len_present_u32(
            before,
            COMPLETION_ID,
            *completion_id,
        ),
        Some(NotificationMessageId::SignalId(signal_id)) => len_present_u32(
            before, SIGNAL_ID, *signal_id,
        ),
        Some(NotificationMessageId::SignalName(signal_name)) => len_present_text(
            before,
            SIGNAL_NAME,
            signal_name,
        ),
    }
}

fn result_at(
    alloc: Global,
    payload: &Payload<'_>,
    levels: u32,
) -> Result<Option<NotificationMessageResult>, AllocError>
    requires { payload_fault levels notification_type payload.now ≡ None }
    ensures { IfOk result (λ r. r ≡ notification_result_of levels (fields payload.now)) }
{
    if let Some(void) = chosen_record_at(alloc, payload, &RESULT, VOID, levels)? {
        return Ok(Some(NotificationMessageResult::Void(void)));
    }
    if let Some(value) = chosen_record_at(alloc, payload, &RESULT, VALUE, levels)? {
        return Ok(Some(NotificationMessageResult::Value(value)));
    }
    if let Some(failure) = chosen_record_at(alloc, payload, &RESULT, FAILURE, levels)? {
        return Ok(Some(NotificationMessageResult::Failure(failure)));
    }
    if let Some(invocation_id) = chosen_text_at(alloc, payload, &RESULT, INVOCATION_ID)? {
        return Ok(Some(NotificationMessageResult::InvocationId(invocation_id)));
    }
    if let Some(state_keys) = chosen_record_at(alloc, payload, &RESULT, STATE_KEYS, levels)? {
        return Ok(Some(NotificationMessageResult::StateKeys(state_keys)));
    }
    Ok(None)
}

fn put_result(
    alloc: Global,
    out: &mut Vec<u8>,
    one: &Option<NotificationMessageResult>,
) -> Result<(), AllocError>
    ensures { OnOk result (out.new.items ≡ out.old.items ++ payload_of (result_parts one.now)) }
{
    match one {
        None => Ok(()),
        Some(NotificationMessageResult::Void(void)) => put_record(alloc, out, VOID, void),
        Some(NotificationMessageResult::Value(value)) => put_record(alloc, out, VALUE, value),
        Some(NotificationMessageResult::Failure(failure)) => put_record(
            alloc, out, FAILURE, failure,
        ),
        Some(NotificationMessageResult::InvocationId(invocation_id)) => put_present_text(
            out,
            INVOCATION_ID,
            invocation_id,
        ),
        Some(NotificationMessageResult::StateKeys(state_keys)) => put_record(
            alloc, out, STATE_KEYS, state_keys,
        ),
    }
}

fn len_result(before: u64, one: &Option<NotificationMessageResult>) -> u64
    ensures { result ≡ counted_bytes before (payload_of (result_parts one.now)) }
{
    match one {
        None => before,
        Some(NotificationMessageResult::Void(void)) => len_record(before, VOID, void),
        Some(NotificationMessageResult::Value(value)) => len_record(before, VALUE, value),
        Some(NotificationMessageResult::Failure(failure)) => len_record(before, FAILURE, failure),
        Some(NotificationMessageResult::InvocationId(invocation_id)) => len_present_text(
            before,
            INVOCATION_ID,
            invocation_id,
        ),
        Some(NotificationMessageResult::StateKeys(state_keys)) => len_record(
            before, STATE_KEYS, state_keys,
        ),
    }
}

impl Record for NotificationMessage {
    ghost use Rattle.protocol_controls.specs.Notification.{notification_of, notification_parts, NotificationFits};
    ghost use Rattle.protocol_controls.specs.ReadBack.{notification_reads};

    ghost record_type = { notification_type };

    ghost of = { notification_of };

    ghost parts = { notification_parts };

    ghost fits = { NotificationFits };

    fn record_type() -> RecordType {
        RecordType::Notification
    }

    fn select(alloc: Global, payload: &Payload<'_>, levels: u32) -> Result<Self, AllocError> {
        let (id, result) = both(
            id_at(alloc, payload, levels),
            result_at(alloc, payload, levels),
        )?;
        Ok(NotificationMessage { id, result })
    }

    fn spell(&self, alloc: Global, out: &mut Vec<u8>) -> Result<(), AllocError> {
        put_id(out, &self.id)?;
        put_result(alloc, out, &self.result)?;
        Ok(())
    }

    fn payload_len(&self) -> u64 {
        let len = len_id(0, &self.id);
        len_result(len, &self.result)
    }

    ghost reads = { notification_reads };
}
