// Awakeables and signals.
ghost use Rattle.std.specs.Prelude.{IsUtf8};
ghost use Rattle.vm_core.specs.Calls.{SysAwakeable, SysCompleteAwakeable, CreateSignalHandle, SysCompleteSignal};
ghost use Rattle.vm_c_machine.specs.Calls.{DoesCall, Given, GivesAwakeable};
ghost use Rattle.vm_c_values.specs.Options.{payload_options};
ghost use Rattle.vm_c_values.specs.Records.{value_in};
ghost use Rattle.vm_c.specs.Calls.{Over};
ghost use Rattle.vm_c_values.specs.Arguments.{IsValue};

use crate::handle::Handle;
use crate::status::NO_MACHINE;
use std::alloc::Global;

/// Completes the awakeable of this text.
#[unsafe(no_mangle)]
pub extern "C" fn hengomaru_vm_sys_complete_awakeable(
    alloc: Global,
    handle: &mut Handle,
    id: &[u8],
    value: &[u8],
    failed: u32,
    unstable: u32,
) -> u32
    ensures { Over (Given (IsUtf8 id.now × IsValue failed value.now) (DoesCall (SysCompleteAwakeable id.now (value_in failed value.now) (payload_options unstable)) tt)) handle.old.value result handle.new.value }
{
    match handle.take(alloc) {
        Some(mut held) => {
            let done = held
                .machine
                .sys_complete_awakeable(id, value, failed, unstable);
            handle.put_back(held, done)
        }
        None => NO_MACHINE,
    }
}

/// The handle of a signal of this name.
#[unsafe(no_mangle)]
pub extern "C" fn hengomaru_vm_create_signal_handle(
    alloc: Global,
    handle: &mut Handle,
    name: &[u8],
    notification: &mut u32,
) -> u32
    ensures { Over (Given (IsUtf8 name.now) (DoesCall (CreateSignalHandle name.now) notification.new)) handle.old.value result handle.new.value }
{
    match handle.take(alloc) {
        Some(mut held) => {
            let done = held.machine.create_signal_handle(name, notification);
            handle.put_back(held, done)
        }
        None => NO_MACHINE,
    }
}

/// Sends a signal of a name to another invocation.
#[unsafe(no_mangle)]
pub extern "C" fn hengomaru_vm_sys_complete_signal(
    alloc: Global,
    handle: &mut Handle,
    target_id: &[u8],
    name: &[u8],
    value: &[u8],
    failed: u32,
) -> u32
    ensures { Over (Given (IsUtf8 target_id.now × IsUtf8 name.now × IsValue failed value.now) (DoesCall (SysCompleteSignal target_id.now name.now (value_in failed value.now)) tt)) handle.old.value result handle.new.value }
{
    match handle.take(alloc) {
        Some(mut held) => {
            let done = held
                .machine
                .sys_complete_signal(target_id, name, value, failed);
            handle.put_back(held, done)
        }
        None => NO_MACHINE,
    }
}

/// A signal that the outside completes by the text that names it: the reply.
#[unsafe(no_mangle)]
pub extern "C" fn hengomaru_vm_sys_awakeable(
    alloc: Global,
    handle: &mut Handle,
    notification: &mut u32,
) -> u32
    ensures { Over (GivesAwakeable notification.new) handle.old.value result handle.new.value }
{
    match handle.take(alloc) {
        Some(mut held) => {
            let done = held.machine.sys_awakeable(notification);
            handle.put_back(held, done)
        }
        None => NO_MACHINE,
    }
}
