// An await that waits behind the journal.
ghost use Rattle.std.specs.Prelude.{◌≡◌};
ghost use Rattle.vm_progress.specs.SleepingAwaits.{SleepIs, LacksMemoryToAwait, too_deep_error, FailsUntold, FailsUnanswered, SettlesStay, RemainsAsleep, ClosesAs, SuspendsWith, SleepsOn, Sleeps};
ghost use Rattle.vm_progress.specs.AwaitedRuns.{LooksForRun, is_executing_for};

use bytes::ByteStr;
use journal_model::NotificationHandle;
use protocol_errors::{
    Error, INPUT_CLOSED_WHILE_WAITING_EPHEMERAL_NOTIFICATIONS, SUSPENDED, codes,
};
use protocol_stream::EncodingError;
use std::alloc::AllocError;
use std::mem::replace;
use vm_machine::{MachineState, about_nothing};
use vm_runs::RunState;
use vm_start::Phase;
use vm_types::AwaitResponse;
use vm_waiting::{TellError, WaitsFor, suspend, tell_awaiting_on};

/// How an await goes on that waits.
#[derive(Clone, Copy, Debug, PartialEq, Eq)]
pub enum Sleep {
    /// More input can come.
    Stays,
    /// None can, and a read has no answer.
    Unanswered,
    /// None can, and the outcome of a run that is waited for is still to be proposed.
    Proposal,
    /// None can.
    Suspends,
}

// Hands out the run of what is waited for that is to be executed first.
fn next_run(runs: &mut RunState, waits: &WaitsFor) -> Option<NotificationHandle>
    ensures { LooksForRun waits.now runs.old result runs.new }
{
    match waits {
        WaitsFor::Future(left) => runs.try_execute_run(left),
        WaitsFor::Child(_) => None,
    }
}

// Whether a run of what is waited for is being executed.
fn is_executing(runs: &RunState, waits: &WaitsFor) -> bool
    ensures { result ≡ is_executing_for waits.now runs.now }
{
    match waits {
        WaitsFor::Future(left) => runs.any_executing_in_this_set(left),
        WaitsFor::Child(_) => false,
    }
}

fn sleep_of(vm: &MachineState, waits: &WaitsFor) -> Sleep
    ensures { SleepIs result waits.now vm.now }
{
    if !vm.is_input_closed {
        return Sleep::Stays;
    }
    if vm.reads.has_in_flight() {
        return Sleep::Unanswered;
    }
    if is_executing(&vm.runs, waits) {
        return Sleep::Proposal;
    }
    Sleep::Suspends
}

/// Fails for want of memory.
pub(crate) fn fail_for_memory(vm: &mut MachineState) -> Error
    ensures { LacksMemoryToAwait vm.old result vm.new }
{
    vm.fail(Err(AllocError))
}

// Of what no frame can tell.
fn too_deep_error() -> Error
    ensures { result ≡ too_deep_error }
{
    Error::new(
        codes::UNSUPPORTED_FEATURE,
        ByteStr::from_static("what is awaited is nested too deep to be told"),
    )
}

// Fails with why what it waits for is not told.
fn fail_untold(vm: &mut MachineState, error: TellError) -> Error
    ensures { FailsUntold error vm.old result vm.new }
{
    match error {
        TellError::TooDeep => vm.fail(Ok(too_deep_error())),
        TellError::Encoding(EncodingError::PayloadTooLong) => {
            let cause = about_nothing(vm.alloc, &EncodingError::PayloadTooLong);
            vm.fail(cause)
        }
        TellError::Encoding(EncodingError::OutOfMemory) => fail_for_memory(vm),
    }
}

// Fails, since the answer of a read cannot come.
fn fail_unanswered(vm: &mut MachineState) -> Error
    ensures { FailsUnanswered vm.old result vm.new }
{
    vm.fail(Ok(INPUT_CLOSED_WHILE_WAITING_EPHEMERAL_NOTIFICATIONS.into()))
}

// What is answered where it was told what is waited for, or could not be.
fn settle_stay(
    vm: &mut MachineState,
    executing: bool,
    told: Result<(), TellError>,
) -> Result<AwaitResponse, Error>
    ensures { SettlesStay executing told vm.old result vm.new }
{
    match told {
        Ok(()) => Ok(AwaitResponse::WaitingExternalProgress {
            waiting_input: true,
            waiting_run_proposal: executing,
        }),
        Err(error) => Err(fail_untold(vm, error)),
    }
}

// Waits for more input, and says whether a run of what is waited for is being executed.
fn stay_with(vm: &mut MachineState, waits: WaitsFor) -> Result<AwaitResponse, Error>
    ensures { RemainsAsleep waits vm.old result vm.new }
{
    let executing = is_executing(&vm.runs, &waits);
    let told = tell_awaiting_on(
        &mut vm.active,
        vm.alloc,
        vm.version,
        vm.options.awaiting_on_policy,
        vm.runs.any_executing(),
        waits,
    );
    settle_stay(vm, executing, told)
}

// What becomes of a machine whose suspension was written, or could not be.
fn close_as(vm: &mut MachineState, written: Result<(), TellError>) -> Error
    ensures { ClosesAs written vm.old result vm.new }
{
    match written {
        Ok(()) => {
            drop(replace(&mut vm.phase, Phase::Closed));
            SUSPENDED.into()
        }
        Err(error) => fail_untold(vm, error),
    }
}

// Suspends the attempt.
fn suspend_with(vm: &mut MachineState, waits: WaitsFor) -> Error
    ensures { SuspendsWith waits vm.old result vm.new }
{
    let written = suspend(&mut vm.active, vm.alloc, vm.version, waits);
    close_as(vm, written)
}

// Goes on with an await that waits for this, of which no run is to be executed.
fn sleep_on(vm: &mut MachineState, waits: WaitsFor) -> Result<AwaitResponse, Error>
    ensures { SleepsOn waits vm.old result vm.new }
{
    match sleep_of(vm, &waits) {
        Sleep::Stays => stay_with(vm, waits),
        Sleep::Unanswered => {
            drop(waits);
            Err(fail_unanswered(vm))
        }
        Sleep::Proposal => {
            drop(waits);
            Ok(AwaitResponse::WaitingExternalProgress {
                waiting_input: false,
                waiting_run_proposal: true,
            })
        }
        Sleep::Suspends => Err(suspend_with(vm, waits)),
    }
}

/// Goes on with an await that waits for this. A run of it that is to be executed comes first.
pub(crate) fn sleep_with(vm: &mut MachineState, waits: WaitsFor) -> Result<AwaitResponse, Error>
    ensures { Sleeps waits vm.old result vm.new }
{
    match next_run(&mut vm.runs, &waits) {
        Some(handle) => {
            drop(waits);
            Ok(AwaitResponse::ExecuteRun(handle))
        }
        None => sleep_on(vm, waits),
    }
}
