ghost use Rattle.std.specs.Prelude.{◌≡◌, ◌++◌, None, IfOk, OnOk};
ghost use Rattle.protocol_wire.specs.Fields.{fields};
ghost use Rattle.protocol_wire.specs.Check.{payload_fault};
ghost use Rattle.protocol_wire.specs.Parts.{payload_of};
ghost use Rattle.protocol_wire.specs.Lengths.{counted_bytes};
ghost use Rattle.protocol_table.specs.declared.table.RecordType.TheVariants.{OutputCommand as output_command_type};
ghost use Rattle.protocol_records.specs.Choice.{choice_parts, chosen};
ghost use Rattle.protocol_records.specs.OutputCommand.{output_choice};

use crate::failure::Failure;
use crate::gather::both;
use crate::value::Value;
use bytes::ByteStr;
use protocol_wire::table::output_command::{FAILURE, NAME, RESULT, VALUE};
use protocol_wire::{
    Payload, Record, RecordType, chosen_record_at, len_record, len_text, put_record, put_text,
    text_at,
};
use std::alloc::{AllocError, Global};

/// What an invocation ends with.
#[derive(Debug, Drop)]
pub enum OutputCommandResult {
    Value(Value),
    Failure(Failure),
}

/// The output of an invocation. The store asks for a result.
#[derive(Debug, Drop)]
pub struct OutputCommandMessage {
    pub name: ByteStr,
    pub result: Option<OutputCommandResult>,
}

fn result_at(
    alloc: Global,
    payload: &Payload<'_>,
    levels: u32,
) -> Result<Option<OutputCommandResult>, AllocError>
    requires { payload_fault levels output_command_type payload.now ≡ None }
    ensures { IfOk result (λ r. r ≡ chosen output_choice levels (fields payload.now)) }
{
    if let Some(value) = chosen_record_at(alloc, payload, &RESULT, VALUE, levels)? {
        return Ok(Some(OutputCommandResult::Value(value)));
    }
    if let Some(failure) = chosen_record_at(alloc, payload, &RESULT, FAILURE, levels)? {
        return Ok(Some(OutputCommandResult::Failure(failure)));
    }
    Ok(None)
}

fn put_result(
    alloc: Global,
    out: &mut Vec<u8>,
    one: &Option<OutputCommandResult>,
) -> Result<(), AllocError>
    ensures { OnOk result (out.new.items ≡ out.old.items ++ payload_of (choice_parts output_choice one.now)) }
{
    match one {
        None => Ok(()),
        Some(OutputCommandResult::Value(value)) => put_record(alloc, out, VALUE, value),
        Some(OutputCommandResult::Failure(failure)) => put_record(alloc, out, FAILURE, failure),
    }
}

fn len_result(before: u64, one: &Option<OutputCommandResult>) -> u64
    ensures { result ≡ counted_bytes before (payload_of (choice_parts output_choice one.now)) }
{
    match one {
        None => before,
        Some(OutputCommandResult::Value(value)) => len_record(before, VALUE, value),
        Some(OutputCommandResult::Failure(failure)) => len_record(before, FAILURE, failure),
    }
}

impl Record for OutputCommandMessage {
    ghost use Rattle.protocol_records.specs.OutputCommand.{output_command_of, output_command_parts, OutputCommandFits};
    ghost use Rattle.protocol_records.specs.ReadBack.{output_command_reads};

    ghost record_type = { output_command_type };

    ghost of = { output_command_of };

    ghost parts = { output_command_parts };

    ghost fits = { OutputCommandFits };

    fn record_type() -> RecordType {
        RecordType::OutputCommand
    }

    fn select(alloc: Global, payload: &Payload<'_>, levels: u32) -> Result<Self, AllocError> {
        let (name, result) = both(
            text_at(alloc, payload, NAME),
            result_at(alloc, payload, levels),
        )?;
        Ok(OutputCommandMessage { name, result })
    }

    fn spell(&self, alloc: Global, out: &mut Vec<u8>) -> Result<(), AllocError> {
        put_text(out, NAME, &self.name)?;
        put_result(alloc, out, &self.result)?;
        Ok(())
    }

    fn payload_len(&self) -> u64 {
        let len = len_text(0, NAME, &self.name);
        len_result(len, &self.result)
    }

    ghost reads = { output_command_reads };
}
