//! Commands of an invocation itself: `sleep MILLIS NAME`, `promise KEY`, `peek KEY`, `complete_promise KEY VALUE`, `awakeable`,
//! `complete_awakeable ID VALUE`, `signal NAME`, `output VALUE`. A value is hexadecimal digits, or `failure`.
use crate::answers::{done, failed, handle};
use crate::operands::{byte_str, handed, moment};
use invocation_vm::{PayloadOptions, VM};
use std::alloc::Global;

fn sleep<V: VM>(alloc: Global, vm: &mut V, millis: &str, name: &str) -> Option<String> {
    let wake_up = moment(millis)?;
    let name = byte_str(alloc, name)?;
    handle(alloc, vm.sys_sleep(name, wake_up, None))
}

fn complete_promise<V: VM>(alloc: Global, vm: &mut V, key: &str, value: &str) -> Option<String> {
    let key = byte_str(alloc, key)?;
    let value = handed(alloc, value)?;
    let made = vm.sys_complete_promise(key, value, PayloadOptions::default());
    handle(alloc, made)
}

fn awakeable<V: VM>(alloc: Global, vm: &mut V) -> Option<String> {
    match vm.sys_awakeable() {
        Ok(made) => {
            let told = format!(in alloc; "{} {}", u32::from(made.handle), made.id).ok();
            drop(made);
            told
        }
        Err(error) => failed(alloc, error),
    }
}

fn complete_awakeable<V: VM>(alloc: Global, vm: &mut V, id: &str, value: &str) -> Option<String> {
    let id = byte_str(alloc, id)?;
    let value = handed(alloc, value)?;
    done(
        alloc,
        vm.sys_complete_awakeable(id, value, PayloadOptions::default()),
    )
}

fn output<V: VM>(alloc: Global, vm: &mut V, value: &str) -> Option<String> {
    let value = handed(alloc, value)?;
    done(alloc, vm.sys_write_output(value, PayloadOptions::default()))
}

pub fn answer<V: VM>(alloc: Global, vm: &mut V, call: &str, operands: &[&str]) -> Option<String> {
    match operands {
        [] if call == "awakeable" => awakeable(alloc, vm),
        [one] => match call {
            "promise" => handle(alloc, vm.sys_get_promise(byte_str(alloc, *one)?)),
            "peek" => handle(alloc, vm.sys_peek_promise(byte_str(alloc, *one)?)),
            "signal" => handle(alloc, vm.create_signal_handle(byte_str(alloc, *one)?)),
            "output" => output(alloc, vm, *one),
            _ => None,
        },
        [one, two] => match call {
            "sleep" => sleep(alloc, vm, *one, *two),
            "complete_promise" => complete_promise(alloc, vm, *one, *two),
            "complete_awakeable" => complete_awakeable(alloc, vm, *one, *two),
            _ => None,
        },
        _ => None,
    }
}
