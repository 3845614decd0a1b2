// What handlers hand out, as commands carry it.
ghost use Rattle.std.specs.Prelude.{◌≡◌, IfOk};
ghost use Rattle.protocol_laws.specs.Records.{promise_completion, awakeable_result, signal_record};
ghost use Rattle.protocol_messages.specs.ProposedValues.{proposed_record};

use journal_model::NonEmptyValue;
use protocol_calls::{CompleteAwakeableCommandResult, SendSignalCommandResult};
use protocol_commands::CompletePromiseCommandCompletion;
use protocol_controls::ProposeRunCompletionResult;
use protocol_records::Value as ValueRecord;
use protocol_stream::to_failure_record;
use std::alloc::{AllocError, Global};

/// What the command that completes a promise holds of the value.
pub fn to_promise_completion(
    alloc: Global,
    value: NonEmptyValue,
) -> Result<CompletePromiseCommandCompletion, AllocError>
    ensures { IfOk result (λ recorded. recorded ≡ promise_completion value) }
{
    match value {
        NonEmptyValue::Success(content) => Ok(CompletePromiseCommandCompletion::CompletionValue(
            ValueRecord { content },
        )),
        NonEmptyValue::Failure(failure) => Ok(CompletePromiseCommandCompletion::CompletionFailure(
            to_failure_record(alloc, failure)?,
        )),
    }
}

/// What the command that completes an awakeable holds of the value.
pub fn to_awakeable_result(
    alloc: Global,
    value: NonEmptyValue,
) -> Result<CompleteAwakeableCommandResult, AllocError>
    ensures { IfOk result (λ recorded. recorded ≡ awakeable_result value) }
{
    match value {
        NonEmptyValue::Success(content) => {
            Ok(CompleteAwakeableCommandResult::Value(ValueRecord { content }))
        }
        NonEmptyValue::Failure(failure) => Ok(CompleteAwakeableCommandResult::Failure(
            to_failure_record(alloc, failure)?,
        )),
    }
}

/// What the command that sends a signal holds of the value.
pub fn to_signal_result(
    alloc: Global,
    value: NonEmptyValue,
) -> Result<SendSignalCommandResult, AllocError>
    ensures { IfOk result (λ recorded. recorded ≡ signal_record value) }
{
    match value {
        NonEmptyValue::Success(content) => {
            Ok(SendSignalCommandResult::Value(ValueRecord { content }))
        }
        NonEmptyValue::Failure(failure) => Ok(SendSignalCommandResult::Failure(to_failure_record(
            alloc, failure,
        )?)),
    }
}

/// What a run proposal holds of the value.
pub fn to_proposed_result(
    alloc: Global,
    value: NonEmptyValue,
) -> Result<ProposeRunCompletionResult, AllocError>
    ensures { IfOk result (λ recorded. recorded ≡ proposed_record value) }
{
    match value {
        NonEmptyValue::Success(content) => Ok(ProposeRunCompletionResult::Value(content)),
        NonEmptyValue::Failure(failure) => Ok(ProposeRunCompletionResult::Failure(to_failure_record(
            alloc, failure,
        )?)),
    }
}
