// What is asked of a machine.
ghost use Rattle.std.specs.Prelude.{◌≡◌, ◌-ℤ◌, pos};
ghost use Rattle.vm_feeding.specs.MachineQueries.{active_state, state_of_phase, TellsReady, TakesOutput};

use bytes::{ByteStr, Bytes};
use protocol_errors::Error;
use std::alloc::{AllocError, Global};
use vm_machine::MachineState;
use vm_start::{Phase, or_out_of_memory, unexpected};
use vm_types::State;

// How far one has come of which calls are made.
fn active_state(is_replaying: bool) -> State
    ensures { result ≡ active_state is_replaying }
{
    if is_replaying {
        State::Replaying
    } else {
        State::Processing
    }
}

// How far one has come in this phase.
fn state_of(phase: &Phase, is_replaying: bool) -> State
    ensures { result ≡ state_of_phase phase.now is_replaying }
{
    match phase {
        Phase::WaitingStart | Phase::WaitingReplayEntries { .. } => State::WaitingPreFlight,
        Phase::Active => active_state(is_replaying),
        Phase::Closed | Phase::Failed(_) => State::Closed,
    }
}

/// How far the machine has come; one that has failed is closed.
pub fn state(vm: &MachineState) -> State
    ensures { result ≡ state_of_phase vm.now.phase vm.now.active.is_replaying }
{
    state_of(&vm.phase, vm.active.is_replaying)
}

/// The index of the command that was asked for last, and -1 before the first.
pub fn last_command_index(vm: &MachineState) -> i64
    ensures { result ≡ pos vm.now.active.journal.commands -ℤ pos 1 }
{
    vm.active.journal.command_index()
}

// Whether calls are made in this phase, or why none are any more.
fn is_ready(alloc: Global, phase: &Phase) -> Result<bool, Error>
    ensures { TellsReady phase.now result }
{
    match phase {
        Phase::WaitingStart | Phase::WaitingReplayEntries { .. } => Ok(false),
        Phase::Active => Ok(true),
        Phase::Closed => {
            let event = ByteStr::from_static("IsReadyToExecute");
            Err(or_out_of_memory(unexpected(alloc, phase, false, event)))
        }
        Phase::Failed(kept) => Err(or_out_of_memory(kept.clone())),
    }
}

/// Whether calls are made of the machine: its start and the entries that it announced have come. Behind the end, and where it has
/// failed, the answer is why none are any more; the machine stays in any case.
pub fn is_ready_to_execute(vm: &MachineState) -> Result<bool, Error>
    ensures { TellsReady vm.now.phase result }
{
    is_ready(vm.alloc, &vm.phase)
}

/// Takes all bytes that the machine has written and that were not taken. Where memory is refused, they stay.
pub fn take_output(vm: &mut MachineState) -> Result<Bytes, AllocError>
    ensures { TakesOutput vm.old result vm.new }
{
    vm.active.output.take(vm.alloc)
}
