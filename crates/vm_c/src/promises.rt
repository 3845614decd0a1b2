// Promises.
ghost use Rattle.std.specs.Prelude.{IsUtf8};
ghost use Rattle.vm_core.specs.Calls.{SysGetPromise, SysPeekPromise, SysCompletePromise};
ghost use Rattle.vm_c_machine.specs.Calls.{DoesCall, Given};
ghost use Rattle.vm_c_values.specs.Options.{payload_options};
ghost use Rattle.vm_c_values.specs.Records.{value_in};
ghost use Rattle.vm_c.specs.Calls.{Over};
ghost use Rattle.vm_c_values.specs.Arguments.{IsValue};

use crate::handle::Handle;
use crate::status::NO_MACHINE;
use std::alloc::Global;

/// Waits for a promise: the handle's notification brings its value.
#[unsafe(no_mangle)]
pub extern "C" fn hengomaru_vm_sys_get_promise(
    alloc: Global,
    handle: &mut Handle,
    key: &[u8],
    notification: &mut u32,
) -> u32
    ensures { Over (Given (IsUtf8 key.now) (DoesCall (SysGetPromise key.now) notification.new)) handle.old.value result handle.new.value }
{
    match handle.take(alloc) {
        Some(mut held) => {
            let done = held.machine.sys_get_promise(key, notification);
            handle.put_back(held, done)
        }
        None => NO_MACHINE,
    }
}

/// Looks whether a promise is completed: the handle's notification says so, and with what.
#[unsafe(no_mangle)]
pub extern "C" fn hengomaru_vm_sys_peek_promise(
    alloc: Global,
    handle: &mut Handle,
    key: &[u8],
    notification: &mut u32,
) -> u32
    ensures { Over (Given (IsUtf8 key.now) (DoesCall (SysPeekPromise key.now) notification.new)) handle.old.value result handle.new.value }
{
    match handle.take(alloc) {
        Some(mut held) => {
            let done = held.machine.sys_peek_promise(key, notification);
            handle.put_back(held, done)
        }
        None => NO_MACHINE,
    }
}

/// Completes a promise: the handle's notification says whether that was done.
#[unsafe(no_mangle)]
pub extern "C" fn hengomaru_vm_sys_complete_promise(
    alloc: Global,
    handle: &mut Handle,
    key: &[u8],
    value: &[u8],
    failed: u32,
    unstable: u32,
    notification: &mut u32,
) -> u32
    ensures { Over (Given (IsUtf8 key.now × IsValue failed value.now) (DoesCall (SysCompletePromise key.now (value_in failed value.now) (payload_options unstable)) notification.new)) handle.old.value result handle.new.value }
{
    match handle.take(alloc) {
        Some(mut held) => {
            let done = held
                .machine
                .sys_complete_promise(key, value, failed, unstable, notification);
            handle.put_back(held, done)
        }
        None => NO_MACHINE,
    }
}
