ghost use Rattle.std.specs.Prelude.{◌≡◌, ◌++◌, None, IfOk, OnOk};
ghost use Rattle.protocol_wire.specs.Fields.{fields};
ghost use Rattle.protocol_wire.specs.Check.{payload_fault};
ghost use Rattle.protocol_wire.specs.Parts.{payload_of};
ghost use Rattle.protocol_wire.specs.Lengths.{counted_bytes};
ghost use Rattle.protocol_table.specs.declared.table.RecordType.TheVariants.{GetEagerStateCommand as get_eager_state_command_type};
ghost use Rattle.protocol_records.specs.Choice.{choice_parts, chosen};
ghost use Rattle.protocol_commands.specs.Choices.{eager_choice};

use bytes::{ByteStr, Bytes};
use protocol_records::{Value, Void, all_three};
use protocol_wire::table::get_eager_state_command::{KEY, NAME, RESULT, VALUE, VOID};
use protocol_wire::{
    Payload, Record, RecordType, bytes_at, chosen_record_at, len_bytes, len_record, len_text,
    put_bytes, put_record, put_text, text_at,
};
use std::alloc::{AllocError, Global};

/// What a key holds, if anything.
#[derive(Debug, Drop)]
pub enum GetEagerStateCommandResult {
    Void(Void),
    Value(Value),
}

/// The command that reads a key of the object's state, with its answer. The store asks for a result.
#[derive(Debug, Drop)]
pub struct GetEagerStateCommandMessage {
    pub key: Bytes,
    pub name: ByteStr,
    pub result: Option<GetEagerStateCommandResult>,
}

fn result_at(
    alloc: Global,
    payload: &Payload<'_>,
    levels: u32,
) -> Result<Option<GetEagerStateCommandResult>, AllocError>
    requires { payload_fault levels get_eager_state_command_type payload.now ≡ None }
    ensures { IfOk result (λ r. r ≡ chosen eager_choice levels (fields payload.now)) }
{
    if let Some(void) = chosen_record_at(alloc, payload, &RESULT, VOID, levels)? {
        return Ok(Some(GetEagerStateCommandResult::Void(void)));
    }
    if let Some(value) = chosen_record_at(alloc, payload, &RESULT, VALUE, levels)? {
        return Ok(Some(GetEagerStateCommandResult::Value(value)));
    }
    Ok(None)
}

fn put_result(
    alloc: Global,
    out: &mut Vec<u8>,
    one: &Option<GetEagerStateCommandResult>,
) -> Result<(), AllocError>
    ensures { OnOk result (out.new.items ≡ out.old.items ++ payload_of (choice_parts eager_choice one.now)) }
{
    match one {
        None => Ok(()),
        Some(GetEagerStateCommandResult::Void(void)) => put_record(alloc, out, VOID, void),
        Some(GetEagerStateCommandResult::Value(value)) => put_record(alloc, out, VALUE, value),
    }
}

fn len_result(before: u64, one: &Option<GetEagerStateCommandResult>) -> u64
    ensures { result ≡ counted_bytes before (payload_of (choice_parts eager_choice one.now)) }
{
    match one {
        None => before,
        Some(GetEagerStateCommandResult::Void(void)) => len_record(before, VOID, void),
        Some(GetEagerStateCommandResult::Value(value)) => len_record(before, VALUE, value),
    }
}

impl Record for GetEagerStateCommandMessage {
    ghost use Rattle.protocol_commands.specs.GetEagerStateCommand.{get_eager_state_command_of, get_eager_state_command_parts, GetEagerStateCommandFits};
    ghost use Rattle.protocol_commands.specs.ReadBack.{get_eager_state_command_reads};

    ghost record_type = { get_eager_state_command_type };

    ghost of = { get_eager_state_command_of };

    ghost parts = { get_eager_state_command_parts };

    ghost fits = { GetEagerStateCommandFits };

    fn record_type() -> RecordType {
        RecordType::GetEagerStateCommand
    }

    fn select(alloc: Global, payload: &Payload<'_>, levels: u32) -> Result<Self, AllocError> {
        let (key, name, result) = all_three(
            bytes_at(alloc, payload, KEY),
            text_at(alloc, payload, NAME),
            result_at(alloc, payload, levels),
        )?;
        Ok(GetEagerStateCommandMessage { key, name, result })
    }

    fn spell(&self, alloc: Global, out: &mut Vec<u8>) -> Result<(), AllocError> {
        put_bytes(out, KEY, &self.key)?;
        put_text(out, NAME, &self.name)?;
        put_result(alloc, out, &self.result)?;
        Ok(())
    }

    fn payload_len(&self) -> u64 {
        let len = len_bytes(0, KEY, &self.key);
        let len = len_text(len, NAME, &self.name);
        len_result(len, &self.result)
    }

    ghost reads = { get_eager_state_command_reads };
}
