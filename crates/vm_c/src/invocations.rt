// Other invocations.
ghost use Rattle.std.specs.Prelude.{IfSome, IsUtf8};
ghost use Rattle.vm_core.specs.Calls.{SysCall, SysSend, SysCancelInvocation, SysAttachInvocation, SysGetInvocationOutput};
ghost use Rattle.vm_c_machine.specs.Calls.{DoesCall, Given};
ghost use Rattle.vm_c_machine.specs.Numbers.{moment_given};
ghost use Rattle.vm_c_values.specs.Options.{payload_options};
ghost use Rattle.vm_c_values.specs.Records.{attach_target_in, call_target_in};
ghost use Rattle.vm_c.specs.Calls.{Over};
ghost use Rattle.vm_c_values.specs.Arguments.{IsAttachTarget, IsCallTarget};

use crate::handle::Handle;
use crate::status::NO_MACHINE;
use std::alloc::Global;

/// Cancels another invocation.
#[unsafe(no_mangle)]
pub extern "C" fn hengomaru_vm_sys_cancel_invocation(
    alloc: Global,
    handle: &mut Handle,
    target_id: &[u8],
) -> u32
    ensures { Over (Given (IsUtf8 target_id.now) (DoesCall (SysCancelInvocation target_id.now) tt)) handle.old.value result handle.new.value }
{
    match handle.take(alloc) {
        Some(mut held) => {
            let done = held.machine.sys_cancel_invocation(target_id);
            handle.put_back(held, done)
        }
        None => NO_MACHINE,
    }
}

/// Waits for the answer of another invocation: the handle's notification brings it.
#[unsafe(no_mangle)]
pub extern "C" fn hengomaru_vm_sys_attach_invocation(
    alloc: Global,
    handle: &mut Handle,
    target: &[u8],
    notification: &mut u32,
) -> u32
    ensures { Over (Given (IsAttachTarget target.now) (DoesCall (λ old made new. IfSome (attach_target_in target.now) (λ target. SysAttachInvocation target old made new)) notification.new)) handle.old.value result handle.new.value }
{
    match handle.take(alloc) {
        Some(mut held) => {
            let done = held.machine.sys_attach_invocation(target, notification);
            handle.put_back(held, done)
        }
        None => NO_MACHINE,
    }
}

/// Looks whether another invocation has answered: the handle's notification says so, and with what.
#[unsafe(no_mangle)]
pub extern "C" fn hengomaru_vm_sys_get_invocation_output(
    alloc: Global,
    handle: &mut Handle,
    target: &[u8],
    notification: &mut u32,
) -> u32
    ensures { Over (Given (IsAttachTarget target.now) (DoesCall (λ old made new. IfSome (attach_target_in target.now) (λ target. SysGetInvocationOutput target old made new)) notification.new)) handle.old.value result handle.new.value }
{
    match handle.take(alloc) {
        Some(mut held) => {
            let done = held.machine.sys_get_invocation_output(target, notification);
            handle.put_back(held, done)
        }
        None => NO_MACHINE,
    }
}

/// Calls another handler: of the two notifications the first tells the invocation's id, the second brings its answer.
#[unsafe(no_mangle)]
pub extern "C" fn hengomaru_vm_sys_call(
    alloc: Global,
    handle: &mut Handle,
    target: &[u8],
    parameter: &[u8],
    unstable: u32,
    invocation_id: &mut u32,
    answer: &mut u32,
) -> u32
    ensures { Over (Given (IsCallTarget target.now) (DoesCall (SysCall (call_target_in target.now).target parameter.now (call_target_in target.now).name (payload_options unstable)) (record { invocation_id_notification_handle = invocation_id.new; call_notification_handle = answer.new }))) handle.old.value result handle.new.value }
{
    match handle.take(alloc) {
        Some(mut held) => {
            let done = held
                .machine
                .sys_call(target, parameter, unstable, invocation_id, answer);
            handle.put_back(held, done)
        }
        None => NO_MACHINE,
    }
}

/// Calls a handler without waiting for its answer, at a moment, or at once where it is 0: the handle's notification tells the
/// invocation's id.
#[unsafe(no_mangle)]
pub extern "C" fn hengomaru_vm_sys_send(
    alloc: Global,
    handle: &mut Handle,
    target: &[u8],
    parameter: &[u8],
    execution_time_millis: u64,
    unstable: u32,
    invocation_id: &mut u32,
) -> u32
    ensures { Over (Given (IsCallTarget target.now) (DoesCall (SysSend (call_target_in target.now).target parameter.now (moment_given execution_time_millis) (call_target_in target.now).name (payload_options unstable)) (record { invocation_id_notification_handle = invocation_id.new }))) handle.old.value result handle.new.value }
{
    match handle.take(alloc) {
        Some(mut held) => {
            let done = held.machine.sys_send(
                target,
                parameter,
                execution_time_millis,
                unstable,
                invocation_id,
            );
            handle.put_back(held, done)
        }
        None => NO_MACHINE,
    }
}
