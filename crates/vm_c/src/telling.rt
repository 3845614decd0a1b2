// What a machine is asked, which changes nothing.
ghost use Rattle.std.specs.Prelude.{◌≡◌, ◌-ℤ◌, pos};
ghost use Rattle.protocol_types.specs.Version.{version_content_type};
ghost use Rattle.vm_feeding.specs.MachineQueries.{state_of_phase};
ghost use Rattle.vm_feeding.specs.Handles.{LooksAtHandle};
ghost use Rattle.vm_c_machine.specs.Calls.{Asks, AsksForBytes};
ghost use Rattle.vm_c_machine.specs.Numbers.{TellsError, TellsPart, state_number};
ghost use Rattle.vm_c_values.specs.Options.{is_set};
ghost use Rattle.vm_c.specs.Calls.{Over};

use crate::handle::Handle;
use crate::status::NO_MACHINE;
use std::alloc::Global;

/// How the response begins: its status, and as reply its content type.
#[unsafe(no_mangle)]
pub extern "C" fn hengomaru_vm_response_head(
    alloc: Global,
    handle: &mut Handle,
    status_code: &mut u32,
) -> u32
    ensures { Over (AsksForBytes (λ machine reply. (status_code.new ≡ 200) × (reply ≡ version_content_type machine.vm.state.version))) handle.old.value result handle.new.value }
{
    match handle.take(alloc) {
        Some(held) => {
            let done = held.machine.response_head(status_code);
            handle.put_back(held, done)
        }
        None => NO_MACHINE,
    }
}

/// How far the attempt has come: 0 its start has not come, 1 replaying, 2 processing, 3 closed.
#[unsafe(no_mangle)]
pub extern "C" fn hengomaru_vm_state(alloc: Global, handle: &mut Handle, state: &mut u32) -> u32
    ensures { Over (Asks (λ vm. state.new ≡ state_number (state_of_phase vm.phase vm.active.is_replaying))) handle.old.value result handle.new.value }
{
    match handle.take(alloc) {
        Some(held) => {
            let done = held.machine.state(state);
            handle.put_back(held, done)
        }
        None => NO_MACHINE,
    }
}

/// The index of the command that was asked for last, and -1 before the first.
#[unsafe(no_mangle)]
pub extern "C" fn hengomaru_vm_last_command_index(
    alloc: Global,
    handle: &mut Handle,
    index: &mut i64,
) -> u32
    ensures { Over (Asks (λ vm. index.new ≡ pos vm.active.journal.commands -ℤ pos 1)) handle.old.value result handle.new.value }
{
    match handle.take(alloc) {
        Some(held) => {
            let done = held.machine.last_command_index(index);
            handle.put_back(held, done)
        }
        None => NO_MACHINE,
    }
}

/// Whether something that the handle stands for has come and was looked at.
#[unsafe(no_mangle)]
pub extern "C" fn hengomaru_vm_is_completed(
    alloc: Global,
    handle: &mut Handle,
    notification: u32,
    completed: &mut u32,
) -> u32
    ensures { Over (Asks (λ vm. LooksAtHandle vm.phase vm.active notification (is_set completed.new))) handle.old.value result handle.new.value }
{
    match handle.take(alloc) {
        Some(held) => {
            let done = held.machine.is_completed(notification, completed);
            handle.put_back(held, done)
        }
        None => NO_MACHINE,
    }
}

/// A part of the input that was read, where there is one: the reply.
#[unsafe(no_mangle)]
pub extern "C" fn hengomaru_vm_input_part(
    alloc: Global,
    handle: &mut Handle,
    part: u32,
    index: u32,
    found: &mut u32,
) -> u32
    ensures { Over (TellsPart part index found.new) handle.old.value result handle.new.value }
{
    match handle.take(alloc) {
        Some(held) => {
            let done = held.machine.input_part(part, index, found);
            handle.put_back(held, done)
        }
        None => NO_MACHINE,
    }
}

/// What was answered last in place of what was asked: its code, 0 where nothing was; its behaviour, 0 retry, 1 pause, 2 fail; its delay in
/// milliseconds, the greatest number where it has none; the index of the command that it is about, -1 where it is about none. The reply is
/// its text.
#[unsafe(no_mangle)]
pub extern "C" fn hengomaru_vm_last_error(
    alloc: Global,
    handle: &mut Handle,
    code: &mut u32,
    behavior: &mut u32,
    delay_millis: &mut u64,
    command_index: &mut i64,
) -> u32
    ensures { Over (TellsError code.new behavior.new delay_millis.new command_index.new) handle.old.value result handle.new.value }
{
    match handle.take(alloc) {
        Some(held) => {
            let done = held
                .machine
                .last_error(code, behavior, delay_millis, command_index);
            handle.put_back(held, done)
        }
        None => NO_MACHINE,
    }
}
