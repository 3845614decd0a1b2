// The object's state.
ghost use Rattle.std.specs.Prelude.{None, IsUtf8};
ghost use Rattle.vm_core.specs.Calls.{SysStateGet, SysStateGetKeys, SysStateSet, SysStateClear, SysStateClearAll};
ghost use Rattle.vm_feeding.specs.EphemeralStateReads.{IsGot, IsReadTaken};
ghost use Rattle.vm_c_machine.specs.Calls.{DoesCall, Takes, Given};
ghost use Rattle.vm_c_values.specs.Options.{payload_options};
ghost use Rattle.vm_c.specs.Calls.{Over};

use crate::handle::Handle;
use crate::status::NO_MACHINE;
use std::alloc::Global;

/// Reads a key of the object's state: the handle's notification brings the value, or that there is none.
#[unsafe(no_mangle)]
pub extern "C" fn hengomaru_vm_sys_state_get(
    alloc: Global,
    handle: &mut Handle,
    key: &[u8],
    unstable: u32,
    notification: &mut u32,
) -> u32
    ensures { Over (Given (IsUtf8 key.now) (DoesCall (SysStateGet key.now None (payload_options unstable)) notification.new)) handle.old.value result handle.new.value }
{
    match handle.take(alloc) {
        Some(mut held) => {
            let done = held.machine.sys_state_get(key, unstable, notification);
            handle.put_back(held, done)
        }
        None => NO_MACHINE,
    }
}

/// Reads the keys of the object's state.
#[unsafe(no_mangle)]
pub extern "C" fn hengomaru_vm_sys_state_get_keys(
    alloc: Global,
    handle: &mut Handle,
    notification: &mut u32,
) -> u32
    ensures { Over (DoesCall (SysStateGetKeys None) notification.new) handle.old.value result handle.new.value }
{
    match handle.take(alloc) {
        Some(mut held) => {
            let done = held.machine.sys_state_get_keys(notification);
            handle.put_back(held, done)
        }
        None => NO_MACHINE,
    }
}

/// Sets a key of the state.
#[unsafe(no_mangle)]
pub extern "C" fn hengomaru_vm_sys_state_set(
    alloc: Global,
    handle: &mut Handle,
    key: &[u8],
    value: &[u8],
    unstable: u32,
) -> u32
    ensures { Over (Given (IsUtf8 key.now) (DoesCall (SysStateSet key.now value.now None (payload_options unstable)) tt)) handle.old.value result handle.new.value }
{
    match handle.take(alloc) {
        Some(mut held) => {
            let done = held.machine.sys_state_set(key, value, unstable);
            handle.put_back(held, done)
        }
        None => NO_MACHINE,
    }
}

/// Clears a key of the state.
#[unsafe(no_mangle)]
pub extern "C" fn hengomaru_vm_sys_state_clear(
    alloc: Global,
    handle: &mut Handle,
    key: &[u8],
) -> u32
    ensures { Over (Given (IsUtf8 key.now) (DoesCall (SysStateClear key.now None) tt)) handle.old.value result handle.new.value }
{
    match handle.take(alloc) {
        Some(mut held) => {
            let done = held.machine.sys_state_clear(key);
            handle.put_back(held, done)
        }
        None => NO_MACHINE,
    }
}

/// Clears the state.
#[unsafe(no_mangle)]
pub extern "C" fn hengomaru_vm_sys_state_clear_all(alloc: Global, handle: &mut Handle) -> u32
    ensures { Over (DoesCall (SysStateClearAll None) tt) handle.old.value result handle.new.value }
{
    match handle.take(alloc) {
        Some(mut held) => {
            let done = held.machine.sys_state_clear_all();
            handle.put_back(held, done)
        }
        None => NO_MACHINE,
    }
}

/// Reads a key of the object's state, and records nothing of it.
#[unsafe(no_mangle)]
pub extern "C" fn hengomaru_vm_ephemeral_state_get(
    alloc: Global,
    handle: &mut Handle,
    key: &[u8],
    id: &mut u32,
) -> u32
    ensures { Over (Given (IsUtf8 key.now) (DoesCall (IsGot key.now) (record { number = id.new }))) handle.old.value result handle.new.value }
{
    match handle.take(alloc) {
        Some(mut held) => {
            let done = held.machine.ephemeral_state_get(key, id);
            handle.put_back(held, done)
        }
        None => NO_MACHINE,
    }
}

/// Takes the answer of a read of which nothing is recorded, if it has come.
#[unsafe(no_mangle)]
pub extern "C" fn hengomaru_vm_take_ephemeral_notification(
    alloc: Global,
    handle: &mut Handle,
    id: u32,
    kind: &mut u32,
) -> u32
    ensures { Over (Takes (IsReadTaken (record { number = id })) kind.new) handle.old.value result handle.new.value }
{
    match handle.take(alloc) {
        Some(mut held) => {
            let done = held.machine.take_ephemeral_notification(id, kind);
            handle.put_back(held, done)
        }
        None => NO_MACHINE,
    }
}
