// A call of one command has been made, or the machine fails with why not.
ghost use Rattle.vm_machine.specs.CallAnswers.{Settles};

use crate::{CallError, Command, MachineState, call_cause};
use protocol_errors::Error;

impl MachineState {
    /// The answer of a call that puts one command: what it has made, or what the machine fails with.
    pub fn settle<T, M: Command>(&mut self, made: Result<T, CallError<M>>) -> Result<T, Error>
        ensures { Settles M.difference made self.old result self.new }
    {
        match made {
            Ok(taken) => Ok(taken),
            Err(error) => {
                let cause = call_cause(self.alloc, &self.active.journal, &error);
                drop(error);
                Err(self.fail(cause))
            }
        }
    }
}
