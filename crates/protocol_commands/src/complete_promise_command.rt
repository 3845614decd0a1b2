ghost use Rattle.std.specs.Prelude.{◌≡◌, ◌++◌, None, IfOk, OnOk};
ghost use Rattle.protocol_wire.specs.Fields.{fields};
ghost use Rattle.protocol_wire.specs.Check.{payload_fault};
ghost use Rattle.protocol_wire.specs.Parts.{payload_of};
ghost use Rattle.protocol_wire.specs.Lengths.{counted_bytes};
ghost use Rattle.protocol_table.specs.declared.table.RecordType.TheVariants.{CompletePromiseCommand as complete_promise_command_type};
ghost use Rattle.protocol_records.specs.Choice.{choice_parts, chosen};
ghost use Rattle.protocol_commands.specs.Choices.{promise_choice};

use bytes::ByteStr;
use protocol_records::{Failure, Value, all_three};
use protocol_wire::table::complete_promise_command::{
    COMPLETION, COMPLETION_FAILURE, COMPLETION_VALUE, KEY, NAME, RESULT_COMPLETION_ID,
};
use protocol_wire::{
    Payload, Record, RecordType, chosen_record_at, len_record, len_text, len_u32, put_record,
    put_text, put_u32, text_at, u32_at,
};
use std::alloc::{AllocError, Global};

/// What a promise is completed with.
#[derive(Debug, Drop)]
pub enum CompletePromiseCommandCompletion {
    CompletionValue(Value),
    CompletionFailure(Failure),
}

/// The command that completes a promise. The store asks for a completion.
#[derive(Debug, Drop)]
pub struct CompletePromiseCommandMessage {
    pub key: ByteStr,
    pub completion: Option<CompletePromiseCommandCompletion>,
    /// The completion id that the command's notification will carry.
    pub result_completion_id: u32,
    pub name: ByteStr,
}

fn completion_at(
    alloc: Global,
    payload: &Payload<'_>,
    levels: u32,
) -> Result<Option<CompletePromiseCommandCompletion>, AllocError>
    requires { payload_fault levels complete_promise_command_type payload.now ≡ None }
    ensures { IfOk result (λ r. r ≡ chosen promise_choice levels (fields payload.now)) }
{
    if let Some(completion_value) = chosen_record_at(
        alloc,
        payload,
        &COMPLETION,
        COMPLETION_VALUE,
        levels,
    )? {
        return Ok(Some(CompletePromiseCommandCompletion::CompletionValue(completion_value)));
    }
    if let Some(completion_failure) = chosen_record_at(
        alloc,
        payload,
        &COMPLETION,
        COMPLETION_FAILURE,
        levels,
    )? {
        return Ok(Some(CompletePromiseCommandCompletion::CompletionFailure(completion_failure)));
    }
    Ok(None)
}

fn put_completion(
    alloc: Global,
    out: &mut Vec<u8>,
    one: &Option<CompletePromiseCommandCompletion>,
) -> Result<(), AllocError>
    ensures { OnOk result (out.new.items ≡ out.old.items ++ payload_of (choice_parts promise_choice one.now)) }
{
    match one {
        None => Ok(()),
        Some(CompletePromiseCommandCompletion::CompletionValue(completion_value)) => put_record(
            alloc,
            out,
            COMPLETION_VALUE,
            completion_value,
        ),
        Some(CompletePromiseCommandCompletion::CompletionFailure(completion_failure)) => put_record(
            alloc,
            out,
            COMPLETION_FAILURE,
            completion_failure,
        ),
    }
}

fn len_completion(before: u64, one: &Option<CompletePromiseCommandCompletion>) -> u64
    ensures { result ≡ counted_bytes before (payload_of (choice_parts promise_choice one.now)) }
{
    match one {
        None => before,
        Some(CompletePromiseCommandCompletion::CompletionValue(completion_value)) => len_record(
            before,
            COMPLETION_VALUE,
            completion_value,
        ),
        Some(CompletePromiseCommandCompletion::CompletionFailure(completion_failure)) => len_record(
            before,
            COMPLETION_FAILURE,
            completion_failure,
        ),
    }
}

impl Record for CompletePromiseCommandMessage {
    ghost use Rattle.protocol_commands.specs.CompletePromiseCommand.{complete_promise_command_of, complete_promise_command_parts, CompletePromiseCommandFits};
    ghost use Rattle.protocol_commands.specs.ReadBack.{complete_promise_command_reads};

    ghost record_type = { complete_promise_command_type };

    ghost of = { complete_promise_command_of };

    ghost parts = { complete_promise_command_parts };

    ghost fits = { CompletePromiseCommandFits };

    fn record_type() -> RecordType {
        RecordType::CompletePromiseCommand
    }

    fn select(alloc: Global, payload: &Payload<'_>, levels: u32) -> Result<Self, AllocError> {
        let (key, completion, name) = all_three(
            text_at(alloc, payload, KEY),
            completion_at(alloc, payload, levels),
            text_at(alloc, payload, NAME),
        )?;
        Ok(CompletePromiseCommandMessage {
            key,
            completion,
            result_completion_id: u32_at(payload, RESULT_COMPLETION_ID),
            name,
        })
    }

    fn spell(&self, alloc: Global, out: &mut Vec<u8>) -> Result<(), AllocError> {
        put_text(out, KEY, &self.key)?;
        put_completion(alloc, out, &self.completion)?;
        put_u32(out, RESULT_COMPLETION_ID, self.result_completion_id)?;
        put_text(out, NAME, &self.name)?;
        Ok(())
    }

    fn payload_len(&self) -> u64 {
        let len = len_text(0, KEY, &self.key);
        let len = len_completion(len, &self.completion);
        let len = len_u32(len, RESULT_COMPLETION_ID, self.result_completion_id);
        len_text(len, NAME, &self.name)
    }

    ghost reads = { complete_promise_command_reads };
}
