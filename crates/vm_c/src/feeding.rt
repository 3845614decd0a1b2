// What comes in and goes out.
ghost use Rattle.std.specs.Prelude.{◌≡◌, None, IsUtf8};
ghost use Rattle.vm_feeding.specs.MachineQueries.{TellsReady};
ghost use Rattle.vm_feeding.specs.EndOfInput.{ClosesInput};
ghost use Rattle.vm_feeding.specs.InputBytes.{IsFed};
ghost use Rattle.vm_c_machine.specs.Calls.{Changes, DoesCall, GivesOutput, KeepsReadInput, Given};
ghost use Rattle.vm_c_machine.specs.Host.{ToldByHost};
ghost use Rattle.vm_c_values.specs.Options.{is_set};
ghost use Rattle.vm_c.specs.Calls.{Over};
ghost use Rattle.vm_c_values.specs.Arguments.{AnyBytes};

use crate::handle::Handle;
use crate::status::NO_MACHINE;
use std::alloc::Global;

/// Bytes have come.
#[unsafe(no_mangle)]
pub extern "C" fn hengomaru_vm_notify_input(alloc: Global, handle: &mut Handle, bytes: &[u8]) -> u32
    ensures { Over (Given AnyBytes (Changes (IsFed bytes.now))) handle.old.value result handle.new.value }
{
    match handle.take(alloc) {
        Some(mut held) => {
            let done = held.machine.notify_input(bytes);
            handle.put_back(held, done)
        }
        None => NO_MACHINE,
    }
}

/// No more bytes come.
#[unsafe(no_mangle)]
pub extern "C" fn hengomaru_vm_notify_input_closed(alloc: Global, handle: &mut Handle) -> u32
    ensures { Over (Changes ClosesInput) handle.old.value result handle.new.value }
{
    match handle.take(alloc) {
        Some(mut held) => {
            let done = held.machine.notify_input_closed();
            handle.put_back(held, done)
        }
        None => NO_MACHINE,
    }
}

/// The host has failed: the attempt is tried again after a delay, if one is given, or the invocation is paused.
#[unsafe(no_mangle)]
pub extern "C" fn hengomaru_vm_notify_error(
    alloc: Global,
    handle: &mut Handle,
    code: u16,
    message: &[u8],
    delay_millis: u64,
    pause: u32,
) -> u32
    ensures { Over (Given (IsUtf8 message.now) (Changes (ToldByHost code message.now delay_millis pause))) handle.old.value result handle.new.value }
{
    match handle.take(alloc) {
        Some(mut held) => {
            let done = held
                .machine
                .notify_error(code, message, delay_millis, pause);
            handle.put_back(held, done)
        }
        None => NO_MACHINE,
    }
}

/// Hands out all bytes that were written and not handed out: the reply.
#[unsafe(no_mangle)]
pub extern "C" fn hengomaru_vm_take_output(alloc: Global, handle: &mut Handle) -> u32
    ensures { Over (GivesOutput) handle.old.value result handle.new.value }
{
    match handle.take(alloc) {
        Some(mut held) => {
            let done = held.machine.take_output();
            handle.put_back(held, done)
        }
        None => NO_MACHINE,
    }
}

/// Whether the start and all entries have come that it announces, so that calls can be made.
#[unsafe(no_mangle)]
pub extern "C" fn hengomaru_vm_is_ready_to_execute(
    alloc: Global,
    handle: &mut Handle,
    ready: &mut u32,
) -> u32
    ensures { Over (DoesCall (λ old made new. TellsReady old.phase made × (new ≡ old)) (is_set ready.new)) handle.old.value result handle.new.value }
{
    match handle.take(alloc) {
        Some(mut held) => {
            let done = held.machine.is_ready_to_execute(ready);
            handle.put_back(held, done)
        }
        None => NO_MACHINE,
    }
}

/// Reads the input, which comes before all other calls: the reply has its bytes.
#[unsafe(no_mangle)]
pub extern "C" fn hengomaru_vm_sys_input(
    alloc: Global,
    handle: &mut Handle,
    random_seed: &mut u64,
) -> u32
    ensures { Over (KeepsReadInput random_seed.new) handle.old.value result handle.new.value }
{
    match handle.take(alloc) {
        Some(mut held) => {
            let done = held.machine.sys_input(random_seed);
            handle.put_back(held, done)
        }
        None => NO_MACHINE,
    }
}
