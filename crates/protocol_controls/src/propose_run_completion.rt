ghost use Rattle.std.specs.Prelude.{◌≡◌, ◌++◌, None, IfOk, OnOk};
ghost use Rattle.protocol_wire.specs.Fields.{fields};
ghost use Rattle.protocol_wire.specs.Check.{payload_fault};
ghost use Rattle.protocol_wire.specs.Parts.{payload_of};
ghost use Rattle.protocol_wire.specs.Lengths.{counted_bytes};
ghost use Rattle.protocol_table.specs.declared.table.RecordType.TheVariants.{ProposeRunCompletion as propose_run_completion_type};
ghost use Rattle.protocol_records.specs.Choice.{choice_parts, chosen};
ghost use Rattle.protocol_controls.specs.Choices.{proposal_choice};

use bytes::Bytes;
use protocol_records::Failure;
use protocol_wire::table::propose_run_completion::{FAILURE, RESULT, RESULT_COMPLETION_ID, VALUE};
use protocol_wire::{
    Payload, Record, RecordType, chosen_bytes_at, chosen_record_at, len_present_bytes, len_record,
    len_u32, put_present_bytes, put_record, put_u32, u32_at,
};
use std::alloc::{AllocError, Global};

/// What an effect answered.
#[derive(Debug, Drop)]
pub enum ProposeRunCompletionResult {
    Value(Bytes),
    Failure(Failure),
}

/// The result of a run's effect, proposed to be recorded. The store asks for a result.
#[derive(Debug, Drop)]
pub struct ProposeRunCompletionMessage {
    pub result_completion_id: u32,
    pub result: Option<ProposeRunCompletionResult>,
}

fn result_at(
    alloc: Global,
    payload: &Payload<'_>,
    levels: u32,
) -> Result<Option<ProposeRunCompletionResult>, AllocError>
    requires { payload_fault levels propose_run_completion_type payload.now ≡ None }
    ensures { IfOk result (λ r. r ≡ chosen proposal_choice levels (fields payload.now)) }
{
    if let Some(value) = chosen_bytes_at(alloc, payload, &RESULT, VALUE)? {
        return Ok(Some(ProposeRunCompletionResult::Value(value)));
    }
    if let Some(failure) = chosen_record_at(alloc, payload, &RESULT, FAILURE, levels)? {
        return Ok(Some(ProposeRunCompletionResult::Failure(failure)));
    }
    Ok(None)
}

fn put_result(
    alloc: Global,
    out: &mut Vec<u8>,
    one: &Option<ProposeRunCompletionResult>,
) -> Result<(), AllocError>
    ensures { OnOk result (out.new.items ≡ out.old.items ++ payload_of (choice_parts proposal_choice one.now)) }
{
    match one {
        None => Ok(()),
        Some(ProposeRunCompletionResult::Value(value)) => put_present_bytes(out, VALUE, value),
        Some(ProposeRunCompletionResult::Failure(failure)) => put_record(
            alloc, out, FAILURE, failure,
        ),
    }
}

fn len_result(before: u64, one: &Option<ProposeRunCompletionResult>) -> u64
    ensures { result ≡ counted_bytes before (payload_of (choice_parts proposal_choice one.now)) }
{
    match one {
        None => before,
        Some(ProposeRunCompletionResult::Value(value)) => len_present_bytes(before, VALUE, value),
        Some(ProposeRunCompletionResult::Failure(failure)) => len_record(before, FAILURE, failure),
    }
}

impl Record for ProposeRunCompletionMessage {
    ghost use Rattle.protocol_controls.specs.ProposeRunCompletion.{propose_run_completion_of, propose_run_completion_parts, ProposeRunCompletionFits};
    ghost use Rattle.protocol_controls.specs.ReadBack.{propose_run_completion_reads};

    ghost record_type = { propose_run_completion_type };

    ghost of = { propose_run_completion_of };

    ghost parts = { propose_run_completion_parts };

    ghost fits = { ProposeRunCompletionFits };

    fn record_type() -> RecordType {
        RecordType::ProposeRunCompletion
    }

    fn select(alloc: Global, payload: &Payload<'_>, levels: u32) -> Result<Self, AllocError> {
        Ok(ProposeRunCompletionMessage {
            result_completion_id: u32_at(payload, RESULT_COMPLETION_ID),
            result: result_at(alloc, payload, levels)?,
        })
    }

    fn spell(&self, alloc: Global, out: &mut Vec<u8>) -> Result<(), AllocError> {
        put_u32(out, RESULT_COMPLETION_ID, self.result_completion_id)?;
        put_result(alloc, out, &self.result)?;
        Ok(())
    }

    fn payload_len(&self) -> u64 {
        let len = len_u32(0, RESULT_COMPLETION_ID, self.result_completion_id);
        len_result(len, &self.result)
    }

    ghost reads = { propose_run_completion_reads };
}
