//! What is told in whole: `why`, the error that the machine answers; `read`, the input; `taken HANDLE`, what is taken; and
//! `tell CODE BEHAVIOR RELATED`, an error of the host, upon which the invocation is paused or ends for `pause` and `fail`, and about
//! the command that `RELATED` names.
use crate::answers::{debug, failed};
use crate::printed::relationship;
use bytes::ByteStr;
use invocation_vm::{Error, ErrorBehavior, InvocationErrorCode, NotificationHandle, VM};
use std::alloc::Global;
use test_rows::number;

fn why<V: VM>(alloc: Global, vm: &V) -> Option<String> {
    let Err(error) = vm.is_ready_to_execute() else {
        return None;
    };
    let text = format!(in alloc; "{error}");
    drop(error);
    let text = text.ok()?;
    let text = text.as_str();
    format!(in alloc; "{text:?}").ok()
}

fn read<V: VM>(alloc: Global, vm: &mut V) -> Option<String> {
    match vm.sys_input() {
        Ok(read) => debug(alloc, read),
        Err(error) => failed(alloc, error),
    }
}

fn taken<V: VM>(alloc: Global, vm: &mut V, handle: &str) -> Option<String> {
    match vm.take_notification(NotificationHandle::from(number(handle)?)) {
        Ok(taken) => debug(alloc, taken),
        Err(error) => failed(alloc, error),
    }
}

// The error, with what it asks for; the end of the invocation is asked for by one of a journal that does not match alone.
fn asking(error: Error, then: &str) -> Error {
    match then {
        "pause" => error.with_should_pause(),
        "fail" => error.with_mismatch_behavior(ErrorBehavior::Fail),
        _ => error.with_should_retry(),
    }
}

fn tell<V: VM>(alloc: Global, vm: &mut V, operands: &[&str]) -> Option<String> {
    let [code, then, related] = operands else {
        return None;
    };
    let code = InvocationErrorCode::from(number(*code)?);
    let error = Error::new(code, ByteStr::from_static("failed"));
    vm.notify_error(asking(error, *then), relationship(*related));
    debug(alloc, vm.state())
}

pub fn answer<V: VM>(alloc: Global, vm: &mut V, call: &str, operands: &[&str]) -> Option<String> {
    match call {
        "why" => why(alloc, vm),
        "read" => read(alloc, vm),
        "taken" => taken(alloc, vm, *operands.first()?),
        "tell" => tell(alloc, vm, operands),
        _ => None,
    }
}
