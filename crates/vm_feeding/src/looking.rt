// A look at a handle, of a machine in any phase.
ghost use Rattle.vm_feeding.specs.Handles.{LooksAtHandle};

use journal_model::NotificationHandle;
use vm_machine::MachineState;
use vm_start::Phase;

/// Whether what the handle stands for is completed: it has come, and an await has looked at it. Where no calls are made nothing is.
pub fn is_completed(vm: &MachineState, handle: NotificationHandle) -> bool
    ensures { LooksAtHandle vm.now.phase vm.now.active handle result }
{
    match &vm.phase {
        Phase::Active => vm_waiting::is_completed(&vm.active, handle),
        Phase::WaitingStart
        | Phase::WaitingReplayEntries { .. }
        | Phase::Closed
        | Phase::Failed(_) => false,
    }
}
