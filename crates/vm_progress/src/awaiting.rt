// A future is awaited, in any phase.
ghost use Rattle.std.specs.Prelude.{◌≡◌};
ghost use Rattle.journal_model.specs.Future.{tree_of};
ghost use Rattle.vm_progress.specs.AwaitEffects.{ready_read, AwaitsUnread, GoesOnAs, IsAwaited, DoesAwait};

use crate::asleep::{fail_for_memory, sleep_with};
use crate::uncompleted::fail_uncompleted;
use journal_model::{UnresolvedFuture, let_go_of_future};
use protocol_errors::Error;
use vm_machine::{Admission, CallError, MachineState, checks_off, child_not_id, refusal_error};
use vm_refusals::refuse_await;
use vm_start::Phase;
use vm_types::{AwaitResponse, EphemeralCompletionId};
use vm_waiting::{AwaitError, Awaited, await_future};

// The read whose answer comes before what an await answers: the least that is ready, behind the journal.
fn ready_read(vm: &MachineState) -> Option<EphemeralCompletionId>
    ensures { result ≡ ready_read vm.now.phase vm.now.active.is_replaying vm.now.reads }
{
    match vm.phase {
        Phase::Active => {
            if vm.active.is_replaying {
                return None;
            }
            vm.reads.least_ready()
        }
        Phase::WaitingStart
        | Phase::WaitingReplayEntries { .. }
        | Phase::Closed
        | Phase::Failed(_) => None,
    }
}

// What an await that has come to this is answered.
fn go_on(
    vm: &mut MachineState,
    awaited: Result<Awaited, AwaitError>,
) -> Result<AwaitResponse, Error>
    ensures { GoesOnAs awaited vm.old result vm.new }
{
    match awaited {
        Ok(Awaited::AnyCompleted) => Ok(AwaitResponse::AnyCompleted),
        Ok(Awaited::Cancelled) => Ok(AwaitResponse::CancelSignalReceived),
        Ok(Awaited::Asleep(waits)) => sleep_with(vm, waits),
        Err(AwaitError::UncompletedInReplay(waits)) => Err(fail_uncompleted(vm, waits)),
        Err(AwaitError::ChildNotId) => Err(vm.fail(Ok(child_not_id()))),
        Err(AwaitError::Put(error)) => vm.settle(Err(CallError::Put(error))),
        Err(AwaitError::OutOfMemory) => Err(fail_for_memory(vm)),
    }
}

// Awaits, where calls are made of the machine.
fn await_admitted(vm: &mut MachineState, future: UnresolvedFuture) -> Result<AwaitResponse, Error>
    ensures { IsAwaited (tree_of future) vm.old result vm.new }
{
    let ignoring = checks_off(vm.options.non_determinism_checks);
    let awaited = await_future(
        &mut vm.active,
        vm.alloc,
        vm.options.implicit_cancellation,
        ignoring,
        future,
    );
    go_on(vm, awaited)
}

// Awaits, where no read's answer comes first.
fn await_unread(vm: &mut MachineState, future: UnresolvedFuture) -> Result<AwaitResponse, Error>
    ensures { AwaitsUnread (tree_of future) vm.old result vm.new }
{
    let number = vm.version.number();
    let refused = refuse_await(number, &future);
    let refusal = refusal_error(vm.version, refused, "");
    match vm.admit(refusal) {
        Admission::Admitted => await_admitted(vm, future),
        Admission::Elsewhere => {
            let_go_of_future(future);
            Err(vm.fail_unexpected("await"))
        }
        Admission::Stopped(error) => {
            let_go_of_future(future);
            Err(error)
        }
    }
}

/// Awaits a future.
///
/// Where the answer of an ephemeral read can be taken that is told first, and nothing is looked at. An attempt that is suspended
/// answers `SUSPENDED`, and is closed: it has not failed. An await that asks for a number of successes is refused in a version in which none
/// does, and one of which more than ninety-nine nodes stand one in another in each.
///
/// Where a cancellation ends it, each invocation that was called, and is tracked, is cancelled by a command before that is answered. The
/// first of which the invocation id is unknown is waited for alone, in the same way. Where one of the commands is not what is recorded,
/// or cannot be written, the machine fails, and those before it stay.
pub fn do_await(vm: &mut MachineState, future: UnresolvedFuture) -> Result<AwaitResponse, Error>
    ensures { DoesAwait (tree_of future) vm.old result vm.new }
{
    match ready_read(vm) {
        Some(id) => {
            let_go_of_future(future);
            Ok(AwaitResponse::EphemeralNotificationReady(id))
        }
        None => await_unread(vm, future),
    }
}
