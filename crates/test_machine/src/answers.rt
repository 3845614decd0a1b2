//! How answers are printed.
use bytes::ByteStr;
use invocation_vm::{Error, NotificationHandle, VMResult, Value};
use std::alloc::Global;
use std::fmt;
use test_rows::{Hex, told};

/// What is printed with `{:?}`.
pub fn debug<T: fmt::Debug + Drop>(alloc: Global, value: T) -> Option<String> {
    format!(in alloc; "{value:?}").ok()
}

/// What a borrowed value is printed as with `{:?}`.
pub fn shown<T: fmt::Debug>(alloc: Global, value: &T) -> Option<String> {
    format!(in alloc; "{value:?}").ok()
}

/// An error by its code.
pub fn failed(alloc: Global, error: Error) -> Option<String> {
    let code = error.code();
    drop(error);
    format!(in alloc; "failed {code}").ok()
}

/// An error by its code and its text.
pub fn refused(alloc: Global, error: Error) -> Option<String> {
    let told = format!(in alloc; "failed {} {}", error.code(), error.message()).ok();
    drop(error);
    told
}

/// Nothing, or an error.
pub fn done(alloc: Global, answer: VMResult<()>) -> Option<String> {
    match answer {
        Ok(()) => told(alloc, "ok"),
        Err(error) => failed(alloc, error),
    }
}

/// A handle, or an error.
pub fn handle(alloc: Global, answer: VMResult<NotificationHandle>) -> Option<String> {
    match answer {
        Ok(handle) => debug(alloc, u32::from(handle)),
        Err(error) => failed(alloc, error),
    }
}

fn joined(alloc: Global, keys: &[ByteStr]) -> Option<String> {
    let mut told = String::from_str(alloc, "keys").ok()?;
    for key in keys {
        told.push(' ').ok()?;
        told.push_str(key.as_str()).ok()?;
    }
    Some(told)
}

fn value(alloc: Global, value: Value) -> Option<String> {
    match value {
        Value::Void => told(alloc, "void"),
        Value::Success(bytes) => format!(in alloc; "success {}", Hex(bytes.as_slice())).ok(),
        Value::Failure(failure) => {
            format!(in alloc; "failure {} {}", failure.code, failure.message).ok()
        }
        Value::StateKeys(keys) => joined(alloc, keys.as_slice()),
        Value::InvocationId(id) => format!(in alloc; "id {id}").ok(),
    }
}

/// What is taken, or an error.
pub fn taken(alloc: Global, answer: VMResult<Option<Value>>) -> Option<String> {
    match answer {
        Ok(Some(brought)) => value(alloc, brought),
        Ok(None) => told(alloc, "none"),
        Err(error) => failed(alloc, error),
    }
}
