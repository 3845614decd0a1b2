ghost use Rattle.std.specs.Prelude.{◌≡◌, ◌++◌, None, IfOk, OnOk};
ghost use Rattle.protocol_wire.specs.Fields.{fields};
ghost use Rattle.protocol_wire.specs.Check.{payload_fault};
ghost use Rattle.protocol_wire.specs.Parts.{payload_of};
ghost use Rattle.protocol_wire.specs.Lengths.{counted_bytes};
ghost use Rattle.protocol_table.specs.declared.table.RecordType.TheVariants.{GetStateEphemeralNotification as get_state_ephemeral_notification_type};
ghost use Rattle.protocol_records.specs.Choice.{choice_parts, chosen};
ghost use Rattle.protocol_controls.specs.Choices.{ephemeral_choice};

use protocol_records::{Value, Void};
use protocol_wire::table::get_state_ephemeral_notification::{
    EPHEMERAL_COMPLETION_ID, RESULT, VALUE, VOID,
};
use protocol_wire::{
    Payload, Record, RecordType, chosen_record_at, len_record, len_u32, put_record, put_u32, u32_at,
};
use std::alloc::{AllocError, Global};

/// What a key holds, if anything.
#[derive(Debug, Drop)]
pub enum GetStateEphemeralNotificationResult {
    Void(Void),
    Value(Value),
}

/// The answer to a read of the object's state that is not recorded.
#[derive(Debug, Drop)]
pub struct GetStateEphemeralNotificationMessage {
    pub ephemeral_completion_id: u32,
    pub result: Option<GetStateEphemeralNotificationResult>,
}

fn result_at(
    alloc: Global,
    payload: &Payload<'_>,
    levels: u32,
) -> Result<Option<GetStateEphemeralNotificationResult>, AllocError>
    requires { payload_fault levels get_state_ephemeral_notification_type payload.now ≡ None }
    ensures { IfOk result (λ r. r ≡ chosen ephemeral_choice levels (fields payload.now)) }
{
    if let Some(void) = chosen_record_at(alloc, payload, &RESULT, VOID, levels)? {
        return Ok(Some(GetStateEphemeralNotificationResult::Void(void)));
    }
    if let Some(value) = chosen_record_at(alloc, payload, &RESULT, VALUE, levels)? {
        return Ok(Some(GetStateEphemeralNotificationResult::Value(value)));
    }
    Ok(None)
}

fn put_result(
    alloc: Global,
    out: &mut Vec<u8>,
    one: &Option<GetStateEphemeralNotificationResult>,
) -> Result<(), AllocError>
    ensures { OnOk result (out.new.items ≡ out.old.items ++ payload_of (choice_parts ephemeral_choice one.now)) }
{
    match one {
        None => Ok(()),
        Some(GetStateEphemeralNotificationResult::Void(void)) => put_record(alloc, out, VOID, void),
        Some(GetStateEphemeralNotificationResult::Value(value)) => put_record(
            alloc, out, VALUE, value,
        ),
    }
}

fn len_result(before: u64, one: &Option<GetStateEphemeralNotificationResult>) -> u64
    ensures { result ≡ counted_bytes before (payload_of (choice_parts ephemeral_choice one.now)) }
{
    match one {
        None => before,
        Some(GetStateEphemeralNotificationResult::Void(void)) => len_record(before, VOID, void),
        Some(GetStateEphemeralNotificationResult::Value(value)) => len_record(before, VALUE, value),
    }
}

impl Record for GetStateEphemeralNotificationMessage {
    ghost use Rattle.protocol_controls.specs.GetStateEphemeralNotification.{get_state_ephemeral_notification_of, get_state_ephemeral_notification_parts, GetStateEphemeralNotificationFits};
    ghost use Rattle.protocol_controls.specs.ReadBack.{get_state_ephemeral_notification_reads};

    ghost record_type = { get_state_ephemeral_notification_type };

    ghost of = { get_state_ephemeral_notification_of };

    ghost parts = { get_state_ephemeral_notification_parts };

    ghost fits = { GetStateEphemeralNotificationFits };

    fn record_type() -> RecordType {
        RecordType::GetStateEphemeralNotification
    }

    fn select(alloc: Global, payload: &Payload<'_>, levels: u32) -> Result<Self, AllocError> {
        Ok(GetStateEphemeralNotificationMessage {
            ephemeral_completion_id: u32_at(payload, EPHEMERAL_COMPLETION_ID),
            result: result_at(alloc, payload, levels)?,
        })
    }

    fn spell(&self, alloc: Global, out: &mut Vec<u8>) -> Result<(), AllocError> {
        put_u32(out, EPHEMERAL_COMPLETION_ID, self.ephemeral_completion_id)?;
        put_result(alloc, out, &self.result)?;
        Ok(())
    }

    fn payload_len(&self) -> u64 {
        let len = len_u32(0, EPHEMERAL_COMPLETION_ID, self.ephemeral_completion_id);
        len_result(len, &self.result)
    }

    ghost reads = { get_state_ephemeral_notification_reads };
}
