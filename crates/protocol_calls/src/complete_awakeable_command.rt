ghost use Rattle.std.specs.Prelude.{◌≡◌, ◌++◌, None, IfOk, OnOk};
ghost use Rattle.protocol_wire.specs.Fields.{fields};
ghost use Rattle.protocol_wire.specs.Check.{payload_fault};
ghost use Rattle.protocol_wire.specs.Parts.{payload_of};
ghost use Rattle.protocol_wire.specs.Lengths.{counted_bytes};
ghost use Rattle.protocol_table.specs.declared.table.RecordType.TheVariants.{CompleteAwakeableCommand as complete_awakeable_command_type};
ghost use Rattle.protocol_records.specs.Choice.{choice_parts, chosen};
ghost use Rattle.protocol_calls.specs.Choices.{awakeable_choice};

use bytes::ByteStr;
use protocol_records::{Failure, Value, all_three};
use protocol_wire::table::complete_awakeable_command::{
    AWAKEABLE_ID, FAILURE, NAME, RESULT, VALUE,
};
use protocol_wire::{
    Payload, Record, RecordType, chosen_record_at, len_record, len_text, put_record, put_text,
    text_at,
};
use std::alloc::{AllocError, Global};

/// What an awakeable is completed with.
#[derive(Debug, Drop)]
pub enum CompleteAwakeableCommandResult {
    Value(Value),
    Failure(Failure),
}

/// The command that completes an awakeable. The store asks for a result.
#[derive(Debug, Drop)]
pub struct CompleteAwakeableCommandMessage {
    pub awakeable_id: ByteStr,
    pub result: Option<CompleteAwakeableCommandResult>,
    pub name: ByteStr,
}

fn result_at(
    alloc: Global,
    payload: &Payload<'_>,
    levels: u32,
) -> Result<Option<CompleteAwakeableCommandResult>, AllocError>
    requires { payload_fault levels complete_awakeable_command_type payload.now ≡ None }
    ensures { IfOk result (λ r. r ≡ chosen awakeable_choice levels (fields payload.now)) }
{
    if let Some(value) = chosen_record_at(alloc, payload, &RESULT, VALUE, levels)? {
        return Ok(Some(CompleteAwakeableCommandResult::Value(value)));
    }
    if let Some(failure) = chosen_record_at(alloc, payload, &RESULT, FAILURE, levels)? {
        return Ok(Some(CompleteAwakeableCommandResult::Failure(failure)));
    }
    Ok(None)
}

fn put_result(
    alloc: Global,
    out: &mut Vec<u8>,
    one: &Option<CompleteAwakeableCommandResult>,
) -> Result<(), AllocError>
    ensures { OnOk result (out.new.items ≡ out.old.items ++ payload_of (choice_parts awakeable_choice one.now)) }
{
    match one {
        None => Ok(()),
        Some(CompleteAwakeableCommandResult::Value(value)) => put_record(alloc, out, VALUE, value),
        Some(CompleteAwakeableCommandResult::Failure(failure)) => put_record(
            alloc, out, FAILURE, failure,
        ),
    }
}

fn len_result(before: u64, one: &Option<CompleteAwakeableCommandResult>) -> u64
    ensures { result ≡ counted_bytes before (payload_of (choice_parts awakeable_choice one.now)) }
{
    match one {
        None => before,
        Some(CompleteAwakeableCommandResult::Value(value)) => len_record(before, VALUE, value),
        Some(CompleteAwakeableCommandResult::Failure(failure)) => len_record(
            before, FAILURE, failure,
        ),
    }
}

impl Record for CompleteAwakeableCommandMessage {
    ghost use Rattle.protocol_calls.specs.CompleteAwakeableCommand.{complete_awakeable_command_of, complete_awakeable_command_parts, CompleteAwakeableCommandFits};
    ghost use Rattle.protocol_calls.specs.ReadBack.{complete_awakeable_command_reads};

    ghost record_type = { complete_awakeable_command_type };

    ghost of = { complete_awakeable_command_of };

    ghost parts = { complete_awakeable_command_parts };

    ghost fits = { CompleteAwakeableCommandFits };

    fn record_type() -> RecordType {
        RecordType::CompleteAwakeableCommand
    }

    fn select(alloc: Global, payload: &Payload<'_>, levels: u32) -> Result<Self, AllocError> {
        let (awakeable_id, result, name) = all_three(
            text_at(alloc, payload, AWAKEABLE_ID),
            result_at(alloc, payload, levels),
            text_at(alloc, payload, NAME),
        )?;
        Ok(CompleteAwakeableCommandMessage {
            awakeable_id,
            result,
            name,
        })
    }

    fn spell(&self, alloc: Global, out: &mut Vec<u8>) -> Result<(), AllocError> {
        put_text(out, AWAKEABLE_ID, &self.awakeable_id)?;
        put_result(alloc, out, &self.result)?;
        put_text(out, NAME, &self.name)?;
        Ok(())
    }

    fn payload_len(&self) -> u64 {
        let len = len_text(0, AWAKEABLE_ID, &self.awakeable_id);
        let len = len_result(len, &self.result);
        len_text(len, NAME, &self.name)
    }

    ghost reads = { complete_awakeable_command_reads };
}
