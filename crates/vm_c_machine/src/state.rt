// The object's state.
ghost use Rattle.std.specs.Prelude.{◌≡◌, None, IsUtf8};
ghost use Rattle.vm_core.specs.Calls.{SysStateGet, SysStateGetKeys, SysStateSet, SysStateClear, SysStateClearAll};
ghost use Rattle.vm_feeding.specs.EphemeralStateReads.{IsGot, IsReadTaken};
ghost use Rattle.vm_c_machine.specs.Calls.{DoesCall, Takes, Given};
ghost use Rattle.vm_c_values.specs.Options.{payload_options};

use crate::Machine;
use bytes::Bytes;
use vm_c_values::{NotDone, copied_bytes, copied_text, payload_options};
use vm_core::VM;
use vm_types::EphemeralCompletionId;

impl Machine {
    /// Reads a key of the object's state: the handle's notification brings the value, or that there is none.
    pub fn sys_state_get(
        &mut self,
        key: &[u8],
        unstable: u32,
        notification: &mut u32,
    ) -> Result<Bytes, NotDone>
        ensures { Given (IsUtf8 key.now) (DoesCall (SysStateGet key.now None (payload_options unstable)) notification.new) self.old result self.new }
    {
        let key = copied_text(self.alloc, key)?;
        let options = payload_options(unstable);
        match self.vm.sys_state_get(key, None, options) {
            Ok(handle) => {
                *notification = handle.number();
                Ok(Bytes::new())
            }
            Err(error) => Err(self.failed(error)),
        }
    }

    /// Reads the keys of the object's state.
    pub fn sys_state_get_keys(&mut self, notification: &mut u32) -> Result<Bytes, NotDone>
        ensures { DoesCall (SysStateGetKeys None) notification.new self.old result self.new }
    {
        match self.vm.sys_state_get_keys(None) {
            Ok(handle) => {
                *notification = handle.number();
                Ok(Bytes::new())
            }
            Err(error) => Err(self.failed(error)),
        }
    }

    /// Sets a key of the state.
    pub fn sys_state_set(
        &mut self,
        key: &[u8],
        value: &[u8],
        unstable: u32,
    ) -> Result<Bytes, NotDone>
        ensures { Given (IsUtf8 key.now) (DoesCall (SysStateSet key.now value.now None (payload_options unstable)) tt) self.old result self.new }
    {
        let key = copied_text(self.alloc, key)?;
        let value = copied_bytes(self.alloc, value)?;
        let options = payload_options(unstable);
        match self.vm.sys_state_set(key, value, None, options) {
            Ok(()) => Ok(Bytes::new()),
            Err(error) => Err(self.failed(error)),
        }
    }

    /// Clears a key of the state.
    pub fn sys_state_clear(&mut self, key: &[u8]) -> Result<Bytes, NotDone>
        ensures { Given (IsUtf8 key.now) (DoesCall (SysStateClear key.now None) tt) self.old result self.new }
    {
        let key = copied_text(self.alloc, key)?;
        match self.vm.sys_state_clear(key, None) {
            Ok(()) => Ok(Bytes::new()),
            Err(error) => Err(self.failed(error)),
        }
    }

    /// Clears the state.
    pub fn sys_state_clear_all(&mut self) -> Result<Bytes, NotDone>
        ensures { DoesCall (SysStateClearAll None) tt self.old result self.new }
    {
        match self.vm.sys_state_clear_all(None) {
            Ok(()) => Ok(Bytes::new()),
            Err(error) => Err(self.failed(error)),
        }
    }

    /// Reads a key of the object's state, and records nothing of it.
    pub fn ephemeral_state_get(&mut self, key: &[u8], id: &mut u32) -> Result<Bytes, NotDone>
        ensures { Given (IsUtf8 key.now) (DoesCall (IsGot key.now) (record { number = id.new })) self.old result self.new }
    {
        let key = copied_text(self.alloc, key)?;
        match self.vm.ephemeral_state_get(key) {
            Ok(read) => {
                *id = read.number;
                Ok(Bytes::new())
            }
            Err(error) => Err(self.failed(error)),
        }
    }

    /// Takes the answer of a read of which nothing is recorded, if it has come.
    pub fn take_ephemeral_notification(&mut self, id: u32, kind: &mut u32) -> Result<Bytes, NotDone>
        ensures { Takes (IsReadTaken (record { number = id })) kind.new self.old result self.new }
    {
        match self
            .vm
            .take_ephemeral_notification(EphemeralCompletionId::from(id))
        {
            Ok(taken) => self.took(taken, kind),
            Err(error) => Err(self.failed(error)),
        }
    }
}
