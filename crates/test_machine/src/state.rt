//! The object's state: `get KEY NAME`, `keys NAME`, `set KEY HEX NAME`, `clear KEY NAME`, `clear_all NAME`; and reads that are not
//! recorded: `ephemeral KEY`, `take_ephemeral NUMBER`.
use crate::answers::{debug, done, failed, handle, taken};
use crate::operands::{byte_str, bytes, optional};
use invocation_vm::{EphemeralCompletionId, PayloadOptions, VM};
use std::alloc::Global;
use test_rows::number;

fn get<V: VM>(alloc: Global, vm: &mut V, key: &str, name: &str) -> Option<String> {
    let key = byte_str(alloc, key)?;
    let name = optional(alloc, name)?;
    handle(
        alloc,
        vm.sys_state_get(key, name, PayloadOptions::default()),
    )
}

fn set<V: VM>(alloc: Global, vm: &mut V, key: &str, value: &str, name: &str) -> Option<String> {
    let key = byte_str(alloc, key)?;
    let value = bytes(alloc, value)?;
    let name = optional(alloc, name)?;
    done(
        alloc,
        vm.sys_state_set(key, value, name, PayloadOptions::default()),
    )
}

fn clear<V: VM>(alloc: Global, vm: &mut V, key: &str, name: &str) -> Option<String> {
    let key = byte_str(alloc, key)?;
    let name = optional(alloc, name)?;
    done(alloc, vm.sys_state_clear(key, name))
}

fn ephemeral<V: VM>(alloc: Global, vm: &mut V, key: &str) -> Option<String> {
    match vm.ephemeral_state_get(byte_str(alloc, key)?) {
        Ok(id) => debug(alloc, id.number),
        Err(error) => failed(alloc, error),
    }
}

fn take_ephemeral<V: VM>(alloc: Global, vm: &mut V, id: &str) -> Option<String> {
    let id = EphemeralCompletionId::from(number(id)?);
    taken(alloc, vm.take_ephemeral_notification(id))
}

pub fn answer<V: VM>(alloc: Global, vm: &mut V, call: &str, operands: &[&str]) -> Option<String> {
    match operands {
        [one] => match call {
            "keys" => handle(alloc, vm.sys_state_get_keys(optional(alloc, *one)?)),
            "clear_all" => done(alloc, vm.sys_state_clear_all(optional(alloc, *one)?)),
            "ephemeral" => ephemeral(alloc, vm, *one),
            "take_ephemeral" => take_ephemeral(alloc, vm, *one),
            _ => None,
        },
        [key, name] if call == "get" => get(alloc, vm, *key, *name),
        [key, name] if call == "clear" => clear(alloc, vm, *key, *name),
        [key, value, name] if call == "set" => set(alloc, vm, *key, *value, *name),
        _ => None,
    }
}
