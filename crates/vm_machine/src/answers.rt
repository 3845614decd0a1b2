// What else comes while calls are made.
ghost use Rattle.std.specs.Prelude.{◌≡◌};
ghost use Rattle.journal_model.specs.Value.{result_of_value};
ghost use Rattle.vm_awaits.specs.Views.{results_of};
ghost use Rattle.vm_machine.specs.Answers.{value_told, AnswersRead, stage_of, CompletesRead, ComesAnswer};
ghost use Rattle.vm_machine.specs.AcknowledgementReceipt.{TellsOutcome, ComesOutcome, TakesTold, ComesAcknowledgement};

use crate::Incoming;
use crate::entry_error::{EntryError, unread};
use journal_model::{
    Failure, NonEmptyValue, Notification, NotificationId, NotificationResult, Value,
};
use protocol_controls::{
    GetStateEphemeralNotificationMessage, GetStateEphemeralNotificationResult,
    ProposeRunCompletionAckMessage,
};
use protocol_errors::{BadProposeRunCompletionAck, EMPTY_GET_STATE_EPHEMERAL_NOTIFICATION};
use protocol_messages::RawMessageExt;
use protocol_stream::RawMessage;
use std::alloc::Global;
use vm_awaits::AsyncResultsState;
use vm_calls::Active;
use vm_runs::RunState;
use vm_start::Phase;
use vm_types::{EphemeralCommands, EphemeralCompletionId};

// What the answer of an ephemeral read hands out.
fn to_value(brought: GetStateEphemeralNotificationResult) -> Value
    ensures { result ≡ value_told brought }
{
    match brought {
        GetStateEphemeralNotificationResult::Void(_) => Value::Void,
        GetStateEphemeralNotificationResult::Value(value) => Value::Success(value.content),
    }
}

// The answered read, and its answer.
fn read(alloc: Global, message: RawMessage) -> Result<(EphemeralCompletionId, Value), EntryError>
    ensures { AnswersRead message result }
{
    let decoded = message.decode_to::<GetStateEphemeralNotificationMessage>(alloc, 0);
    drop(message);
    match decoded {
        Err(error) => Err(unread(error)),
        Ok(told) => {
            let GetStateEphemeralNotificationMessage {
                ephemeral_completion_id,
                result,
            } = told;
            match result {
                None => Err(EntryError::Fixed(EMPTY_GET_STATE_EPHEMERAL_NOTIFICATION)),
                Some(brought) => Ok((
                    EphemeralCompletionId {
                        number: ephemeral_completion_id,
                    },
                    to_value(brought),
                )),
            }
        }
    }
}

// Where a machine stands for what is told of it while it makes commands.
#[derive(Clone, Copy)]
enum Stage {
    /// It makes none yet.
    Before,
    Processing,
    /// It makes none any more.
    Behind,
}

fn stage_in(phase: &Phase, is_replaying: bool) -> Stage
    ensures { result ≡ stage_of phase.now is_replaying }
{
    match phase {
        Phase::Active => {
            if is_replaying {
                Stage::Before
            } else {
                Stage::Processing
            }
        }
        Phase::Closed => Stage::Behind,
        Phase::WaitingStart | Phase::WaitingReplayEntries { .. } | Phase::Failed(_) => {
            Stage::Before
        }
    }
}

// The answer is kept.
fn complete(
    reads: &mut EphemeralCommands,
    alloc: Global,
    message: RawMessage,
) -> Result<(), EntryError>
    ensures { CompletesRead message reads.old result reads.new }
{
    let (id, value) = read(alloc, message)?;
    reads.complete(id, value)?;
    Ok(())
}

/// The answer of an ephemeral read comes: it replaces one that was not taken, and one of a read that waits for none is ignored, as
/// each behind the end is.
pub fn receive_ephemeral_answer(
    phase: &Phase,
    is_replaying: bool,
    reads: &mut EphemeralCommands,
    alloc: Global,
    message: RawMessage,
) -> Result<(), EntryError>
    ensures { ComesAnswer message (stage_of phase.now is_replaying) reads.old result reads.new }
{
    match stage_in(phase, is_replaying) {
        Stage::Processing => complete(reads, alloc, message),
        Stage::Before => {
            drop(message);
            Err(EntryError::Unexpected(Incoming::EphemeralAnswer))
        }
        Stage::Behind => {
            drop(message);
            Ok(())
        }
    }
}

// The completion whose outcome is acknowledged.
fn acknowledged_completion(alloc: Global, message: RawMessage) -> Result<u32, EntryError>
    ensures { TellsOutcome message result }
{
    let decoded = message.decode_to::<ProposeRunCompletionAckMessage>(alloc, 0);
    drop(message);
    match decoded {
        Ok(told) => Ok(told.completion_id),
        Err(error) => Err(unread(error)),
    }
}

// What is recorded of an outcome.
fn recorded(value: NonEmptyValue) -> NotificationResult
    ensures { result ≡ result_of_value value }
{
    match value {
        NonEmptyValue::Success(bytes) => NotificationResult::Value(bytes),
        NonEmptyValue::Failure(failure) => NotificationResult::Failure(Failure {
            code: failure.code as u32,
            message: failure.message,
            metadata: failure.metadata,
        }),
    }
}

// The outcome that was kept for a completion comes.
fn outcome_comes(
    results: &mut AsyncResultsState,
    number: u32,
    kept: Option<NonEmptyValue>,
) -> Result<(), EntryError>
    ensures { ComesOutcome number kept (results_of results.old) result (results_of results.new) }
{
    let Some(value) = kept else {
        return Err(EntryError::UnknownRun(BadProposeRunCompletionAck::new(number)));
    };
    let queued = results.enqueue(Notification {
        id: NotificationId::CompletionId(number),
        result: recorded(value),
    });
    match queued {
        Ok(()) => Ok(()),
        Err(_) => Err(EntryError::OutOfMemory),
    }
}

// Takes what was told of a completion.
fn acknowledge(
    results: &mut AsyncResultsState,
    runs: &mut RunState,
    told: Result<u32, EntryError>,
) -> Result<(), EntryError>
    ensures { TakesTold told runs.old (results_of results.old) result runs.new (results_of results.new) }
{
    match told {
        Ok(number) => {
            let kept = runs.acknowledge(number);
            outcome_comes(results, number, kept)
        }
        Err(error) => Err(error),
    }
}

/// An outcome that was proposed of a run is acknowledged: it comes as a notification does. That none was kept for its completion is
/// the fault of the other side; behind the end an acknowledgement is ignored.
pub fn receive_run_acknowledgement(
    phase: &Phase,
    active: &mut Active,
    runs: &mut RunState,
    alloc: Global,
    message: RawMessage,
) -> Result<(), EntryError>
    ensures { ComesAcknowledgement message (stage_of phase.now active.old.is_replaying) runs.old active.old result runs.new active.new }
{
    match stage_in(phase, active.is_replaying) {
        Stage::Processing => {
            let told = acknowledged_completion(alloc, message);
            acknowledge(&mut active.results, runs, told)
        }
        Stage::Before => {
            drop(message);
            Err(EntryError::Unexpected(Incoming::RunAcknowledgement))
        }
        Stage::Behind => {
            drop(message);
            Ok(())
        }
    }
}
