//! Commands towards other invocations: `call SERVICE HANDLER KEYS HEX NAME`, `send SERVICE HANDLER KEYS HEX MILLIS` with no moment for
//! `-`, `complete_signal ID NAME VALUE`, `cancel ID`; `attach` and `output_of` with an id, or with `workflow` or `request` and a scope.
use crate::answers::{done, failed, handle};
use crate::operands::{byte_str, bytes, handed, invocation, moment, optional, target};
use bytes::{ByteStr, Bytes};
use invocation_vm::{Moment, PayloadOptions, Target, VM};
use std::alloc::Global;

fn call<V: VM>(
    alloc: Global,
    vm: &mut V,
    target: Target,
    parameter: Bytes,
    name: Option<ByteStr>,
) -> Option<String> {
    match vm.sys_call(target, parameter, name, PayloadOptions::default()) {
        Ok(made) => {
            let id = u32::from(made.invocation_id_notification_handle);
            let answer = u32::from(made.call_notification_handle);
            format!(in alloc; "{id} {answer}").ok()
        }
        Err(error) => failed(alloc, error),
    }
}

fn call_words<V: VM>(alloc: Global, vm: &mut V, operands: &[&str]) -> Option<String> {
    let [service, handler, key, parameter, name] = operands else {
        return None;
    };
    let name = optional(alloc, *name)?;
    let parameter = bytes(alloc, *parameter)?;
    let target = target(alloc, *service, *handler, *key)?;
    call(alloc, vm, target, parameter, name)
}

fn send<V: VM>(
    alloc: Global,
    vm: &mut V,
    target: Target,
    parameter: Bytes,
    at: Option<Moment>,
) -> Option<String> {
    match vm.sys_send(target, parameter, at, None, PayloadOptions::default()) {
        Ok(made) => {
            let id = u32::from(made.invocation_id_notification_handle);
            format!(in alloc; "{id}").ok()
        }
        Err(error) => failed(alloc, error),
    }
}

fn send_words<V: VM>(alloc: Global, vm: &mut V, operands: &[&str]) -> Option<String> {
    let [service, handler, key, parameter, millis] = operands else {
        return None;
    };
    let at = match *millis {
        "-" => None,
        millis => Some(moment(millis)?),
    };
    let parameter = bytes(alloc, *parameter)?;
    let target = target(alloc, *service, *handler, *key)?;
    send(alloc, vm, target, parameter, at)
}

fn complete_signal<V: VM>(alloc: Global, vm: &mut V, operands: &[&str]) -> Option<String> {
    let [id, name, value] = operands else {
        return None;
    };
    let id = byte_str(alloc, *id)?;
    let name = byte_str(alloc, *name)?;
    let value = handed(alloc, *value)?;
    done(alloc, vm.sys_complete_signal(id, name, value))
}

pub fn answer<V: VM>(alloc: Global, vm: &mut V, call: &str, operands: &[&str]) -> Option<String> {
    match call {
        "call" => call_words(alloc, vm, operands),
        "send" => send_words(alloc, vm, operands),
        "complete_signal" => complete_signal(alloc, vm, operands),
        "cancel" => {
            let id = byte_str(alloc, *operands.first()?)?;
            done(alloc, vm.sys_cancel_invocation(id))
        }
        "attach" => handle(
            alloc,
            vm.sys_attach_invocation(invocation(alloc, operands)?),
        ),
        "output_of" => {
            handle(
                alloc,
                vm.sys_get_invocation_output(invocation(alloc, operands)?),
            )
        }
        _ => None,
    }
}
