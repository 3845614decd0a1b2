ghost use Rattle.std.specs.Prelude.{◌≡◌, ◌++◌, None, IfOk, OnOk};
ghost use Rattle.protocol_wire.specs.Fields.{fields};
ghost use Rattle.protocol_wire.specs.Check.{payload_fault};
ghost use Rattle.protocol_wire.specs.Parts.{payload_of};
ghost use Rattle.protocol_wire.specs.Lengths.{counted_bytes};
ghost use Rattle.protocol_table.specs.declared.table.RecordType.TheVariants.{SendSignalCommand as send_signal_command_type};
ghost use Rattle.protocol_calls.specs.SendSignalCommand.{send_signal_command_signal_id_of, signal_id_parts, send_signal_command_result_of, result_parts};

use bytes::ByteStr;
use protocol_records::{Failure, Value, Void, all_three, both};
use protocol_wire::table::send_signal_command::{
    ENTRY_NAME, FAILURE, IDX, NAME, RESULT, SIGNAL_ID, TARGET_INVOCATION_ID, VALUE, VOID,
};
use protocol_wire::{
    Payload, Record, RecordType, chosen_record_at, chosen_text_at, chosen_u32_at, len_present_text,
    len_present_u32, len_record, len_text, put_present_text, put_present_u32, put_record, put_text,
    text_at,
};
use std::alloc::{AllocError, Global};

/// Which signal is sent.
#[derive(Debug, Drop)]
pub enum SendSignalCommandSignalId {
    Idx(u32),
    Name(ByteStr),
}

/// What a signal brings.
#[derive(Debug, Drop)]
pub enum SendSignalCommandResult {
    Void(Void),
    Value(Value),
    Failure(Failure),
}

/// The command that sends a signal to an invocation. The store asks for a signal and a result.
#[derive(Debug, Drop)]
pub struct SendSignalCommandMessage {
    pub target_invocation_id: ByteStr,
    pub signal_id: Option<SendSignalCommandSignalId>,
    pub result: Option<SendSignalCommandResult>,
    pub entry_name: ByteStr,
}

fn signal_id_at(
    alloc: Global,
    payload: &Payload<'_>,
    levels: u32,
) -> Result<Option<SendSignalCommandSignalId>, AllocError>
    requires { payload_fault levels send_signal_command_type payload.now ≡ None }
    ensures { IfOk result (λ r. r ≡ send_signal_command_signal_id_of levels (fields payload.now)) }
{
    if let Some(idx) = chosen_u32_at(payload, &SIGNAL_ID, IDX) {
        return Ok(Some(SendSignalCommandSignalId::Idx(idx)));
    }
    if let Some(name) = chosen_text_at(alloc, payload, &SIGNAL_ID, NAME)? {
        return Ok(Some(SendSignalCommandSignalId::Name(name)));
    }
    Ok(None)
}

fn put_signal_id(
    out: &mut Vec<u8>,
    one: &Option<SendSignalCommandSignalId>,
) -> Result<(), AllocError>
    ensures { OnOk result (out.new.items ≡ out.old.items ++ payload_of (signal_id_parts one.now)) }
{
    match one {
        None => Ok(()),
        Some(SendSignalCommandSignalId::Idx(idx)) => put_present_u32(out, IDX, *idx),
        Some(SendSignalCommandSignalId::Name(name)) => put_present_text(out, NAME, name),
    }
}

fn len_signal_id(before: u64, one: &Option<SendSignalCommandSignalId>) -> u64
    ensures { result ≡ counted_bytes before (payload_of (signal_id_parts one.now)) }
{
    match one {
        None => before,
        Some(SendSignalCommandSignalId::Idx(idx)) => len_present_u32(before, IDX, *idx),
        Some(SendSignalCommandSignalId::Name(name)) => len_present_text(before, NAME, name),
    }
}

fn result_at(
    alloc: Global,
    payload: &Payload<'_>,
    levels: u32,
) -> Result<Option<SendSignalCommandResult>, AllocError>
    requires { payload_fault levels send_signal_command_type payload.now ≡ None }
    ensures { IfOk result (λ r. r ≡ send_signal_command_result_of levels (fields payload.now)) }
{
    if let Some(void) = chosen_record_at(alloc, payload, &RESULT, VOID, levels)? {
        return Ok(Some(SendSignalCommandResult::Void(void)));
    }
    if let Some(value) = chosen_record_at(alloc, payload, &RESULT, VALUE, levels)? {
        return Ok(Some(SendSignalCommandResult::Value(value)));
    }
    if let Some(failure) = chosen_record_at(alloc, payload, &RESULT, FAILURE, levels)? {
        return Ok(Some(SendSignalCommandResult::Failure(failure)));
    }
    Ok(None)
}

fn put_result(
    alloc: Global,
    out: &mut Vec<u8>,
    one: &Option<SendSignalCommandResult>,
) -> Result<(), AllocError>
    ensures { OnOk result (out.new.items ≡ out.old.items ++ payload_of (result_parts one.now)) }
{
    match one {
        None => Ok(()),
        Some(SendSignalCommandResult::Void(void)) => put_record(alloc, out, VOID, void),
        Some(SendSignalCommandResult::Value(value)) => put_record(alloc, out, VALUE, value),
        Some(SendSignalCommandResult::Failure(failure)) => put_record(alloc, out, FAILURE, failure),
    }
}

fn len_result(before: u64, one: &Option<SendSignalCommandResult>) -> u64
    ensures { result ≡ counted_bytes before (payload_of (result_parts one.now)) }
{
    match one {
        None => before,
        Some(SendSignalCommandResult::Void(void)) => len_record(before, VOID, void),
        Some(SendSignalCommandResult::Value(value)) => len_record(before, VALUE, value),
        Some(SendSignalCommandResult::Failure(failure)) => len_record(before, FAILURE, failure),
    }
}

impl Record for SendSignalCommandMessage {
    ghost use Rattle.protocol_calls.specs.SendSignalCommand.{send_signal_command_of, send_signal_command_parts, SendSignalCommandFits};
    ghost use Rattle.protocol_calls.specs.ReadBack.{send_signal_command_reads};

    ghost record_type = { send_signal_command_type };

    ghost of = { send_signal_command_of };

    ghost parts = { send_signal_command_parts };

    ghost fits = { SendSignalCommandFits };

    fn record_type() -> RecordType {
        RecordType::SendSignalCommand
    }

    fn select(alloc: Global, payload: &Payload<'_>, levels: u32) -> Result<Self, AllocError> {
        let names = both(
            text_at(alloc, payload, TARGET_INVOCATION_ID),
            text_at(alloc, payload, ENTRY_NAME),
        );
        let signal_id = signal_id_at(alloc, payload, levels);
        let result = result_at(alloc, payload, levels);
        let ((target_invocation_id, entry_name), signal_id, result) = all_three(
            names, signal_id, result,
        )?;
        Ok(SendSignalCommandMessage {
            target_invocation_id,
            signal_id,
            result,
            entry_name,
        })
    }

    fn spell(&self, alloc: Global, out: &mut Vec<u8>) -> Result<(), AllocError> {
        put_text(out, TARGET_INVOCATION_ID, &self.target_invocation_id)?;
        put_signal_id(out, &self.signal_id)?;
        put_result(alloc, out, &self.result)?;
        put_text(out, ENTRY_NAME, &self.entry_name)?;
        Ok(())
    }

    fn payload_len(&self) -> u64 {
        let len = len_text(0, TARGET_INVOCATION_ID, &self.target_invocation_id);
        let len = len_signal_id(len, &self.signal_id);
        let len = len_result(len, &self.result);
        len_text(len, ENTRY_NAME, &self.entry_name)
    }

    ghost reads = { send_signal_command_reads };
}
