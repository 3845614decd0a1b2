// What a machine answers of a call that makes a handle and puts no command.
ghost use Rattle.vm_machine.specs.Causes.{NumberCauses};
ghost use Rattle.vm_feeding.specs.CommandlessCalls.{AnswersBy};

use protocol_errors::Error;
use vm_calls::NumberError;
use vm_machine::{MachineState, number_cause};

// What was made, or what the machine fails with: it is about no command.
pub(crate) fn answer<T>(vm: &mut MachineState, made: Result<T, NumberError>) -> Result<T, Error>
    ensures { AnswersBy NumberCauses made vm.old result vm.new }
{
    match made {
        Ok(taken) => Ok(taken),
        Err(error) => {
            let cause = number_cause(vm.alloc, error);
            Err(vm.fail(cause))
        }
    }
}
