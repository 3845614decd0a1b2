// The end of an attempt.
ghost use Rattle.vm_core.specs.Calls.{SysWriteOutput};
ghost use Rattle.vm_progress.specs.EndEffects.{EndsAs};
ghost use Rattle.vm_start.specs.Phases.{kept_error};
ghost use Rattle.vm_c_machine.specs.Calls.{DoesCall, Given};
ghost use Rattle.vm_c_values.specs.Options.{payload_options};
ghost use Rattle.vm_c_values.specs.Records.{value_in};
ghost use Rattle.vm_c.specs.Calls.{Over};
ghost use Rattle.vm_c_values.specs.Arguments.{IsValue};

use crate::handle::Handle;
use crate::status::NO_MACHINE;
use std::alloc::Global;

/// Puts out the result of the invocation.
#[unsafe(no_mangle)]
pub extern "C" fn hengomaru_vm_sys_write_output(
    alloc: Global,
    handle: &mut Handle,
    value: &[u8],
    failed: u32,
    unstable: u32,
) -> u32
    ensures { Over (Given (IsValue failed value.now) (DoesCall (SysWriteOutput (value_in failed value.now) (payload_options unstable)) tt)) handle.old.value result handle.new.value }
{
    match handle.take(alloc) {
        Some(mut held) => {
            let done = held.machine.sys_write_output(value, failed, unstable);
            handle.put_back(held, done)
        }
        None => NO_MACHINE,
    }
}

/// Ends the invocation.
#[unsafe(no_mangle)]
pub extern "C" fn hengomaru_vm_sys_end(alloc: Global, handle: &mut Handle) -> u32
    ensures { Over (DoesCall (λ old. EndsAs (kept_error old.phase) old) tt) handle.old.value result handle.new.value }
{
    match handle.take(alloc) {
        Some(mut held) => {
            let done = held.machine.sys_end();
            handle.put_back(held, done)
        }
        None => NO_MACHINE,
    }
}
