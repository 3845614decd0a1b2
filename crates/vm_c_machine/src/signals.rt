// Awakeables and signals.
ghost use Rattle.std.specs.Prelude.{◌≡◌, IsUtf8};
ghost use Rattle.vm_core.specs.Calls.{SysAwakeable, SysCompleteAwakeable, CreateSignalHandle, SysCompleteSignal};
ghost use Rattle.vm_c_machine.specs.Calls.{DoesCall, Given, GivesAwakeable};
ghost use Rattle.vm_c_values.specs.Options.{payload_options};
ghost use Rattle.vm_c_values.specs.Records.{value_in};
ghost use Rattle.vm_c_values.specs.Arguments.{IsValue};

use crate::Machine;
use bytes::Bytes;
use vm_c_values::{NotDone, copied_text, non_empty_value, payload_options};
use vm_core::VM;

impl Machine {
    /// Completes the awakeable of this text.
    pub fn sys_complete_awakeable(
        &mut self,
        id: &[u8],
        value: &[u8],
        failed: u32,
        unstable: u32,
    ) -> Result<Bytes, NotDone>
        ensures { Given (IsUtf8 id.now × IsValue failed value.now) (DoesCall (SysCompleteAwakeable id.now (value_in failed value.now) (payload_options unstable)) tt) self.old result self.new }
    {
        let id = copied_text(self.alloc, id)?;
        let value = non_empty_value(self.alloc, value, failed)?;
        let options = payload_options(unstable);
        match self.vm.sys_complete_awakeable(id, value, options) {
            Ok(()) => Ok(Bytes::new()),
            Err(error) => Err(self.failed(error)),
        }
    }

    /// The handle of a signal of this name.
    pub fn create_signal_handle(
        &mut self,
        name: &[u8],
        notification: &mut u32,
    ) -> Result<Bytes, NotDone>
        ensures { Given (IsUtf8 name.now) (DoesCall (CreateSignalHandle name.now) notification.new) self.old result self.new }
    {
        let name = copied_text(self.alloc, name)?;
        match self.vm.create_signal_handle(name) {
            Ok(handle) => {
                *notification = handle.number();
                Ok(Bytes::new())
            }
            Err(error) => Err(self.failed(error)),
        }
    }

    /// Sends a signal of a name to another invocation.
    pub fn sys_complete_signal(
        &mut self,
        target_id: &[u8],
        name: &[u8],
        value: &[u8],
        failed: u32,
    ) -> Result<Bytes, NotDone>
        ensures { Given (IsUtf8 target_id.now × IsUtf8 name.now × IsValue failed value.now) (DoesCall (SysCompleteSignal target_id.now name.now (value_in failed value.now)) tt) self.old result self.new }
    {
        let target_id = copied_text(self.alloc, target_id)?;
        let name = copied_text(self.alloc, name)?;
        let value = non_empty_value(self.alloc, value, failed)?;
        match self.vm.sys_complete_signal(target_id, name, value) {
            Ok(()) => Ok(Bytes::new()),
            Err(error) => Err(self.failed(error)),
        }
    }

    /// A signal that the outside completes by the text that names it: the reply.
    pub fn sys_awakeable(&mut self, notification: &mut u32) -> Result<Bytes, NotDone>
        ensures { GivesAwakeable notification.new self.old result self.new }
    {
        match self.vm.sys_awakeable() {
            Ok(made) => {
                *notification = made.handle.number();
                Ok(made.id.into_bytes())
            }
            Err(error) => Err(self.failed(error)),
        }
    }
}
