// What an attempt at the body of a run has ended with is proposed.
ghost use Rattle.std.specs.Prelude.{◌≡◌, IfOk, OnOk, OnErr};
ghost use Rattle.std.specs.Option.{option_copied};
ghost use Rattle.vm_awaits.specs.Views.{slots_of};
ghost use Rattle.vm_refusals.specs.RetryDecisions.{tried};
ghost use Rattle.vm_runs.specs.KeptBodies.{copy_of, ProposesOutcome};
ghost use Rattle.vm_runs.specs.Runs.{after_proposal, run_at};
ghost use Rattle.protocol_types.specs.Version.{version_number};
ghost use Rattle.vm_proposals.specs.ProposalEffects.{is_processing, tried_at_start, proposal, WritesProposal, UnwrittenCauses, SettlesProposal, ProposesValue, GoesOnAs, EndsKnown, open_run, EndsRun, ProposesIf, ProposesWhere, ProposesRun};

use crate::failing::{fail_for_memory, fail_unsupported, run_told, unknown_run, with_delay};
use journal_model::{NonEmptyValue, NotificationHandle};
use protocol_controls::ProposeRunCompletionMessage;
use protocol_errors::{CommandMetadata, Error};
use protocol_messages::to_proposed_result;
use protocol_records::StartMessage;
use protocol_stream::EncodingError;
use protocol_types::{Feature, Version};
use std::alloc::{AllocError, Global};
use std::time::Duration;
use vm_awaits::AsyncResultsState;
use vm_context::Output;
use vm_machine::{MachineState, Phase, about_nothing, again};
use vm_refusals::{
    BodyEnd, EntryRetryInfo, RetryPolicy, RunExitResult, end_of_body, feature_lacked, inherited,
};
use vm_runs::{Run, RunState};

// How often the runs of an attempt were tried before it, as its start has told.
fn tried_at_start(start: &Option<StartMessage>) -> EntryRetryInfo
    ensures { tried result ≡ tried_at_start start.now }
{
    match start {
        Some(start) => EntryRetryInfo {
            retry_count: start.retry_count_since_last_stored_entry,
            retry_loop_duration: Duration::from_millis(start.duration_since_last_stored_entry),
        },
        None => EntryRetryInfo {
            retry_count: 0,
            retry_loop_duration: Duration::ZERO,
        },
    }
}

// A copy of an outcome, which is kept where it is to be acknowledged.
fn copy_of(version: Version, value: &NonEmptyValue) -> Result<Option<NonEmptyValue>, AllocError>
    ensures { IfOk result (λ copy. copy ≡ copy_of (version_number version) value.now) }
{
    if Feature::Acknowledgement.is_in(version.number()) {
        return Ok(Some(value.clone()?));
    }
    Ok(None)
}

// Writes the frame of a proposal. The header asks for an acknowledgement, where the version has them.
fn write_proposal(
    output: &mut Output,
    alloc: Global,
    completion: u32,
    value: NonEmptyValue,
) -> Result<(), EncodingError>
    ensures { WritesProposal (proposal completion value) output.old result output.new }
{
    let recorded = to_proposed_result(alloc, value)?;
    let message = ProposeRunCompletionMessage {
        result_completion_id: completion,
        result: Some(recorded),
    };
    let sent = output.send(alloc, &message);
    drop(message);
    sent
}

// Why the frame of a proposal is not written.
fn unwritten_cause(
    alloc: Global,
    about: CommandMetadata,
    error: EncodingError,
) -> Result<Error, AllocError>
    ensures { UnwrittenCauses about error result }
{
    match error {
        EncodingError::PayloadTooLong => {
            match about_nothing(alloc, &EncodingError::PayloadTooLong) {
                Ok(told) => Ok(told.with_related_command_metadata(about)),
                Err(refused) => {
                    drop(about);
                    Err(refused)
                }
            }
        }
        EncodingError::OutOfMemory => {
            drop(about);
            Err(AllocError)
        }
    }
}

// Answers a proposal whose frame was written, or not.
fn settle_proposal(
    vm: &mut MachineState,
    about: CommandMetadata,
    written: Result<(), EncodingError>,
) -> Result<(), Error>
    ensures { SettlesProposal about written vm.old result vm.new }
{
    match written {
        Ok(()) => {
            drop(about);
            Ok(())
        }
        Err(error) => {
            let cause = unwritten_cause(vm.alloc, about, error);
            Err(vm.fail(cause))
        }
    }
}

// Lets go of the run: its outcome is to be proposed now.
fn let_go(
    runs: &mut RunState,
    version: Version,
    handle: NotificationHandle,
    value: &NonEmptyValue,
) -> Result<(), AllocError>
    ensures ok { OnOk result (runs.new ≡ after_proposal handle (copy_of (version_number version) value.now) runs.old) }
    ensures bodies { OnOk result (ProposesOutcome handle (copy_of (version_number version) value.now) (run_at runs.old.table handle) runs.old runs.new) }
    ensures err { OnErr result (runs.new ≡ runs.old) }
{
    let copy = copy_of(version, value)?;
    runs.notify_execution_completed(handle, copy)
}

// Lets go of the run, and proposes its outcome.
fn propose(
    vm: &mut MachineState,
    handle: NotificationHandle,
    completion: u32,
    about: CommandMetadata,
    value: NonEmptyValue,
) -> Result<(), Error>
    ensures { ProposesValue handle completion about value vm.old result vm.new }
{
    match let_go(&mut vm.runs, vm.version, handle, &value) {
        Ok(()) => {
            let written = write_proposal(&mut vm.active.output, vm.alloc, completion, value);
            settle_proposal(vm, about, written)
        }
        Err(_) => {
            drop(value);
            drop(about);
            Err(fail_for_memory(vm))
        }
    }
}

// Goes on with what the end of a body comes to.
fn go_on(
    vm: &mut MachineState,
    handle: NotificationHandle,
    completion: u32,
    about: CommandMetadata,
    end: BodyEnd,
) -> Result<(), Error>
    ensures { GoesOnAs handle completion about end vm.old result vm.new }
{
    match end {
        BodyEnd::Outcome(value) => propose(vm, handle, completion, about, value),
        BodyEnd::Retry { error, delay } => {
            let told = with_delay(error, delay).with_related_command_metadata(about);
            Err(vm.fail(Ok(told)))
        }
        BodyEnd::Pause(error) => {
            let told = error
                .with_should_pause()
                .with_related_command_metadata(about);
            Err(vm.fail(Ok(told)))
        }
    }
}

// Ends the body of a run that is known.
fn end_known(
    vm: &mut MachineState,
    handle: NotificationHandle,
    completion: u32,
    about: CommandMetadata,
    exit: RunExitResult,
    policy: &RetryPolicy,
) -> Result<(), Error>
    ensures { EndsKnown handle completion about exit policy.now vm.old result vm.new }
{
    let before = inherited(tried_at_start(&vm.start), vm.active.output.has_commands());
    match end_of_body(vm.alloc, policy, before, exit) {
        Ok(end) => go_on(vm, handle, completion, about, end),
        Err(_) => {
            drop(about);
            Err(fail_for_memory(vm))
        }
    }
}

// The run of a handle, if its outcome was not proposed, nor one taken.
fn open_run<'a>(
    results: &AsyncResultsState,
    runs: &'a RunState,
    handle: NotificationHandle,
) -> Option<&'a Run>
    ensures { option_copied result ≡ open_run (slots_of results.now) runs.now.table handle }
{
    match results.completion_of(handle) {
        Some(_) => runs.get_run_info(handle),
        None => None,
    }
}

// Ends the body of a run, while commands are made.
fn end_run(
    vm: &mut MachineState,
    handle: NotificationHandle,
    exit: RunExitResult,
    policy: &RetryPolicy,
) -> Result<(), Error>
    ensures { EndsRun handle (open_run (slots_of vm.old.active.results) vm.old.runs.table handle) exit policy.now vm.old result vm.new }
{
    let Some(run) = open_run(&vm.active.results, &vm.runs, handle) else {
        drop(exit);
        return Err(vm.fail(Ok(unknown_run())));
    };
    let completion = run.completion;
    match run_told(run) {
        Ok(about) => end_known(vm, handle, completion, about, exit, policy),
        Err(_) => {
            drop(exit);
            Err(fail_for_memory(vm))
        }
    }
}

fn is_processing(phase: &Phase, is_replaying: bool) -> bool
    ensures { result ≡ is_processing phase.now is_replaying }
{
    match phase {
        Phase::Active => !is_replaying,
        Phase::WaitingStart
        | Phase::WaitingReplayEntries { .. }
        | Phase::Closed
        | Phase::Failed(_) => false,
    }
}

// Proposes what the version does not refuse.
fn propose_unrefused(
    vm: &mut MachineState,
    handle: NotificationHandle,
    exit: RunExitResult,
    policy: &RetryPolicy,
) -> Result<(), Error>
    ensures { ProposesIf (is_processing vm.old.phase vm.old.active.is_replaying) handle exit policy.now vm.old result vm.new }
{
    if is_processing(&vm.phase, vm.active.is_replaying) {
        return end_run(vm, handle, exit, policy);
    }
    drop(exit);
    Ok(())
}

/// An attempt at the body of a run has ended: the run's policy says whether its outcome is proposed, or the machine fails, upon which the
/// run is tried again or the invocation pauses. The error is about the run.
///
/// What the version lacks is refused in any phase. Else a proposal is let go of while no commands are made: the run was recorded then, or
/// the attempt is over. One for a handle of no run is an error of the host, and so is one for a run whose outcome was taken.
pub fn propose_run_completion(
    vm: &mut MachineState,
    handle: NotificationHandle,
    exit: RunExitResult,
    policy: RetryPolicy,
) -> Result<(), Error>
    ensures { ProposesRun handle exit policy vm.old result vm.new }
{
    if let Some(answer) = again(&vm.phase) {
        drop(exit);
        return Err(answer);
    }
    match feature_lacked(vm.version.number(), &policy, &exit) {
        Some(feature) => {
            drop(exit);
            Err(fail_unsupported(vm, feature))
        }
        None => propose_unrefused(vm, handle, exit, &policy),
    }
}
