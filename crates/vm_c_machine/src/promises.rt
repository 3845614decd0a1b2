// Promises.
ghost use Rattle.std.specs.Prelude.{◌≡◌, IsUtf8};
ghost use Rattle.vm_core.specs.Calls.{SysGetPromise, SysPeekPromise, SysCompletePromise};
ghost use Rattle.vm_c_machine.specs.Calls.{DoesCall, Given};
ghost use Rattle.vm_c_values.specs.Options.{payload_options};
ghost use Rattle.vm_c_values.specs.Records.{value_in};
ghost use Rattle.vm_c_values.specs.Arguments.{IsValue};

use crate::Machine;
use bytes::Bytes;
use vm_c_values::{NotDone, copied_text, non_empty_value, payload_options};
use vm_core::VM;

impl Machine {
    /// Waits for a promise: the handle's notification brings its value.
    pub fn sys_get_promise(&mut self, key: &[u8], notification: &mut u32) -> Result<Bytes, NotDone>
        ensures { Given (IsUtf8 key.now) (DoesCall (SysGetPromise key.now) notification.new) self.old result self.new }
    {
        let key = copied_text(self.alloc, key)?;
        match self.vm.sys_get_promise(key) {
            Ok(handle) => {
                *notification = handle.number();
                Ok(Bytes::new())
            }
            Err(error) => Err(self.failed(error)),
        }
    }

    /// Looks whether a promise is completed: the handle's notification says so, and with what.
    pub fn sys_peek_promise(&mut self, key: &[u8], notification: &mut u32) -> Result<Bytes, NotDone>
        ensures { Given (IsUtf8 key.now) (DoesCall (SysPeekPromise key.now) notification.new) self.old result self.new }
    {
        let key = copied_text(self.alloc, key)?;
        match self.vm.sys_peek_promise(key) {
            Ok(handle) => {
                *notification = handle.number();
                Ok(Bytes::new())
            }
            Err(error) => Err(self.failed(error)),
        }
    }

    /// Completes a promise: the handle's notification says whether that was done.
    pub fn sys_complete_promise(
        &mut self,
        key: &[u8],
        value: &[u8],
        failed: u32,
        unstable: u32,
        notification: &mut u32,
    ) -> Result<Bytes, NotDone>
        ensures { Given (IsUtf8 key.now × IsValue failed value.now) (DoesCall (SysCompletePromise key.now (value_in failed value.now) (payload_options unstable)) notification.new) self.old result self.new }
    {
        let key = copied_text(self.alloc, key)?;
        let value = non_empty_value(self.alloc, value, failed)?;
        let options = payload_options(unstable);
        match self.vm.sys_complete_promise(key, value, options) {
            Ok(handle) => {
                *notification = handle.number();
                Ok(Bytes::new())
            }
            Err(error) => Err(self.failed(error)),
        }
    }
}
