// A machine fails, and nobody is answered.
ghost use Rattle.vm_feeding.specs.UnansweredFailure.{HasFailed};

use protocol_errors::Error;
use std::alloc::AllocError;
use vm_machine::MachineState;

// Fails with what came up; one that has failed stays as it is.
pub fn let_fail(vm: &mut MachineState, cause: Result<Error, AllocError>)
    ensures { HasFailed cause vm.old vm.new }
{
    drop(vm.fail(cause));
}
