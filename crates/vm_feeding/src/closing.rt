// No more input comes.
ghost use Rattle.std.specs.Prelude.{◌≡◌};
ghost use Rattle.vm_feeding.specs.EndOfInput.{is_waiting, ClosesInput};

use crate::failing::let_fail;
use protocol_errors::INPUT_CLOSED_WHILE_WAITING_ENTRIES;
use vm_machine::MachineState;
use vm_start::Phase;

// Whether calls are not made of it yet.
fn is_waiting(phase: &Phase) -> bool
    ensures { result ≡ is_waiting phase.now }
{
    match phase {
        Phase::WaitingStart | Phase::WaitingReplayEntries { .. } => true,
        Phase::Active | Phase::Closed | Phase::Failed(_) => false,
    }
}

/// No more input comes. A machine that waits for its start, or for entries, fails.
pub fn notify_input_closed(vm: &mut MachineState)
    ensures { ClosesInput vm.old vm.new }
{
    vm.is_input_closed = true;
    if is_waiting(&vm.phase) {
        let_fail(vm, Ok(INPUT_CLOSED_WHILE_WAITING_ENTRIES.into()));
    }
}
