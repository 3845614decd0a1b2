// What the proposal of a run's outcome is read as.
ghost use Rattle.std.specs.Prelude.{◌≡◌, IfOk};
ghost use Rattle.journal_model.specs.Value.{result_of_value};
ghost use Rattle.protocol_table.specs.declared.table.RecordType.TheVariants.{ProposeRunCompletion};
ghost use Rattle.protocol_wire.specs.declared.record.TheConstants.{LEVELS};
ghost use Rattle.protocol_controls.specs.ProposeRunCompletion.{propose_run_completion_of};
ghost use Rattle.store_frames.specs.Requests.{outcome_told};
ghost use Rattle.store_frames.specs.RecordFrames.{told_as, told_proposal};

use crate::fault::faulty;
use crate::frame::AttemptFrame;
use journal_model::NotificationResult;
use protocol_controls::{ProposeRunCompletionMessage, ProposeRunCompletionResult};
use protocol_stream::to_failure;
use protocol_wire::{DecodeError, decode};
use std::alloc::{AllocError, Global};

/// What is recorded of an outcome.
fn result_of(
    alloc: Global,
    outcome: ProposeRunCompletionResult,
) -> Result<NotificationResult, AllocError>
    ensures { IfOk result (λ brought. brought ≡ result_of_value (outcome_told outcome)) }
{
    match outcome {
        ProposeRunCompletionResult::Value(value) => Ok(NotificationResult::Value(value)),
        ProposeRunCompletionResult::Failure(failure) => {
            let failure = to_failure(alloc, failure)?;
            Ok(NotificationResult::Failure(failure))
        }
    }
}

/// What is kept of a proposal. One without an outcome is broken.
fn to_frame(
    alloc: Global,
    one: ProposeRunCompletionMessage,
    is_acknowledged: bool,
) -> Result<AttemptFrame, AllocError>
    ensures { IfOk result (λ frame. frame ≡ told_proposal is_acknowledged one) }
{
    let ProposeRunCompletionMessage {
        result_completion_id: completion,
        result: outcome,
    } = one;
    match outcome {
        None => Ok(AttemptFrame::Broken),
        Some(outcome) => Ok(AttemptFrame::RunOutcome {
            completion,
            result: result_of(alloc, outcome)?,
            is_acknowledged,
        }),
    }
}

/// What is kept of the proposal whose payload this is, and whose header asks for an acknowledgement or does not.
pub(crate) fn read_proposal(
    alloc: Global,
    is_acknowledged: bool,
    payload: &[u8],
) -> Result<AttemptFrame, AllocError>
    ensures { IfOk result (λ frame. frame ≡ told_as ProposeRunCompletion (λ fs. told_proposal is_acknowledged (propose_run_completion_of LEVELS fs)) payload.now) }
{
    match decode::<ProposeRunCompletionMessage>(alloc, payload) {
        Ok(one) => to_frame(alloc, one, is_acknowledged),
        Err(DecodeError::Fault(fault)) => Ok(faulty(fault)),
        Err(DecodeError::Memory) => Err(AllocError),
    }
}
