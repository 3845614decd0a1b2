// A machine is made and let go, and the reply is copied.
ghost use Rattle.std.specs.Prelude.{◌≡◌};
ghost use Rattle.std.specs.declared.option.Option.TheVariants.{None};
ghost use Rattle.vm_c.specs.Calls.{Begun, reply_length, reply_held, copied};
ghost use Rattle.vm_c_machine.specs.Calls.{MakesMachine};
ghost use Rattle.vm_c_values.specs.Options.{vm_options};

use crate::handle::Handle;
use crate::held::Held;
use crate::status::{MEMORY, OK, number_of};
use std::alloc::Global;
use vm_c_machine::Machine;

/// Makes a machine for a request of this content type, in the place of what the handle had. Where none is made, the code says why.
#[unsafe(no_mangle)]
pub extern "C" fn hengomaru_vm_new(
    alloc: Global,
    handle: &mut Handle,
    content_type: &[u8],
    options: u32,
    fallback_random_seed: u64,
    code: &mut u32,
) -> u32
    ensures { Begun content_type.now (vm_options options fallback_random_seed) result code.new handle.new.value }
{
    drop(handle.take(alloc));
    match Machine::new(alloc, content_type, options, fallback_random_seed, code) {
        Ok(machine) => match Box::new(alloc, Held::new(machine)) {
            Ok(held) => {
                handle.put(held);
                OK
            }
            Err(_) => MEMORY,
        },
        Err(why) => number_of(why),
    }
}

/// Lets the machine go.
#[unsafe(no_mangle)]
pub extern "C" fn hengomaru_vm_free(alloc: Global, handle: &mut Handle)
    ensures { handle.new.value ≡ None }
{
    drop(handle.take(alloc));
}

// Copies as much as there is room for.
fn copy_front(out: &mut [u8], reply: &[u8])
    ensures { out.new ≡ copied reply.now out.old }
{
    let len = reply.len();
    let room = out.len();
    if len <= room {
        out[..len].copy_from_slice(reply);
    } else {
        out.copy_from_slice(&reply[..room]);
    }
}

/// Copies the reply of the last call, as much as there is room for, and says how long it is.
#[unsafe(no_mangle)]
pub extern "C" fn hengomaru_vm_reply(alloc: Global, handle: &mut Handle, out: &mut [u8]) -> usize
    ensures kept { handle.new.value ≡ handle.old.value }
    ensures length { result ≡ reply_length handle.old.value }
    ensures copied { out.new ≡ copied (reply_held handle.old.value) out.old }
{
    match handle.take(alloc) {
        Some(held) => {
            let len = held.reply.len();
            copy_front(out, held.reply.as_slice());
            handle.put(held);
            len
        }
        None => 0,
    }
}
