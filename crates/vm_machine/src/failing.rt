// The machine fails.
ghost use Rattle.vm_machine.specs.MachineFailure.{MachineFails};

use crate::{MachineState, fail};
use protocol_errors::Error;
use std::alloc::AllocError;

impl MachineState {
    /// Fails with what came up, or is answered again what it has failed with.
    pub fn fail(&mut self, cause: Result<Error, AllocError>) -> Error
        ensures { MachineFails cause self.old result self.new }
    {
        fail(
            &mut self.phase,
            &mut self.active.output,
            self.alloc,
            self.version,
            self.options.journal_mismatch_retry_behavior,
            cause,
        )
    }
}
