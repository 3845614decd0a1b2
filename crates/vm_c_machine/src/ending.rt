// The end of an attempt.
ghost use Rattle.std.specs.Prelude.{◌≡◌};
ghost use Rattle.vm_core.specs.Calls.{SysWriteOutput};
ghost use Rattle.vm_progress.specs.EndEffects.{EndsAs};
ghost use Rattle.vm_start.specs.Phases.{kept_error};
ghost use Rattle.vm_c_machine.specs.Calls.{DoesCall, Given};
ghost use Rattle.vm_c_values.specs.Options.{payload_options};
ghost use Rattle.vm_c_values.specs.Records.{value_in};
ghost use Rattle.vm_c_values.specs.Arguments.{IsValue};

use crate::Machine;
use bytes::Bytes;
use vm_c_values::{NotDone, non_empty_value, payload_options};
use vm_core::VM;

impl Machine {
    /// Puts out the result of the invocation.
    pub fn sys_write_output(
        &mut self,
        value: &[u8],
        failed: u32,
        unstable: u32,
    ) -> Result<Bytes, NotDone>
        ensures { Given (IsValue failed value.now) (DoesCall (SysWriteOutput (value_in failed value.now) (payload_options unstable)) tt) self.old result self.new }
    {
        let value = non_empty_value(self.alloc, value, failed)?;
        let options = payload_options(unstable);
        match self.vm.sys_write_output(value, options) {
            Ok(()) => Ok(Bytes::new()),
            Err(error) => Err(self.failed(error)),
        }
    }

    /// Ends the invocation.
    pub fn sys_end(&mut self) -> Result<Bytes, NotDone>
        ensures { DoesCall (λ old. EndsAs (kept_error old.phase) old) tt self.old result self.new }
    {
        match self.vm.sys_end() {
            Ok(()) => Ok(Bytes::new()),
            Err(error) => Err(self.failed(error)),
        }
    }
}
