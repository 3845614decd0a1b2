// Sleeps, awaits and takes.
ghost use Rattle.std.specs.Prelude.{◌*◌, None, IsUtf8};
ghost use Rattle.vm_core.specs.Calls.{SysSleep, TakeNotification};
ghost use Rattle.vm_c_machine.specs.Calls.{DoesCall, Takes, Given};
ghost use Rattle.vm_c_machine.specs.Numbers.{AwaitsNodes};
ghost use Rattle.vm_c.specs.Calls.{Over};
ghost use Rattle.vm_c_values.specs.Arguments.{IsTree};

use crate::handle::Handle;
use crate::status::NO_MACHINE;
use std::alloc::Global;
use vm_c_values::Node;

/// Sleeps until so many milliseconds: the handle's notification comes then.
#[unsafe(no_mangle)]
pub extern "C" fn hengomaru_vm_sys_sleep(
    alloc: Global,
    handle: &mut Handle,
    name: &[u8],
    wake_up_millis: u64,
    notification: &mut u32,
) -> u32
    ensures { Over (Given (IsUtf8 name.now) (DoesCall (SysSleep name.now (wake_up_millis * 1_000_000) None) notification.new)) handle.old.value result handle.new.value }
{
    match handle.take(alloc) {
        Some(mut held) => {
            let done = held.machine.sys_sleep(name, wake_up_millis, notification);
            handle.put_back(held, done)
        }
        None => NO_MACHINE,
    }
}

/// Waits for a tree of handles: whether it is awake, and else which run's body is to be executed first, or what is to be waited for
/// outside.
#[unsafe(no_mangle)]
pub extern "C" fn hengomaru_vm_do_await(
    alloc: Global,
    handle: &mut Handle,
    tree: &[Node],
    outcome: &mut u32,
    detail: &mut u32,
) -> u32
    ensures { Over (Given (IsTree tree.now) (DoesCall (AwaitsNodes tree.now outcome.new detail.new) tt)) handle.old.value result handle.new.value }
{
    match handle.take(alloc) {
        Some(mut held) => {
            let done = held.machine.do_await(tree, outcome, detail);
            handle.put_back(held, done)
        }
        None => NO_MACHINE,
    }
}

/// Takes what has come of a handle, if anything has: its kind, and as reply its bytes.
#[unsafe(no_mangle)]
pub extern "C" fn hengomaru_vm_take_notification(
    alloc: Global,
    handle: &mut Handle,
    notification: u32,
    kind: &mut u32,
) -> u32
    ensures { Over (Takes (TakeNotification notification) kind.new) handle.old.value result handle.new.value }
{
    match handle.take(alloc) {
        Some(mut held) => {
            let done = held.machine.take_notification(notification, kind);
            handle.put_back(held, done)
        }
        None => NO_MACHINE,
    }
}
