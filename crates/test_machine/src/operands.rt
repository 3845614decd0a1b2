//! Operands of rows. `-` alone is the empty text, no bytes, and no name.
use bytes::{ByteStr, Bytes};
use invocation_vm::{
    AttachInvocationTarget, Moment, NonEmptyValue, Sequence, Target, TerminalFailure,
};
use std::alloc::Global;
use std::time::Duration;
use test_rows::text;

/// A text.
pub fn byte_str(alloc: Global, operand: &str) -> Option<ByteStr> {
    ByteStr::copy_from_str(alloc, text(operand)).ok()
}

/// A text that may be absent.
pub fn optional(alloc: Global, operand: &str) -> Option<Option<ByteStr>> {
    if operand == "-" {
        return Some(None);
    }
    Some(Some(byte_str(alloc, operand)?))
}

/// The bytes of hexadecimal digits.
pub fn bytes(alloc: Global, operand: &str) -> Option<Bytes> {
    let bytes = test_rows::bytes(alloc, operand)?;
    Bytes::from_vec(bytes).ok()
}

/// A moment in milliseconds, or with `max` the last one.
pub fn moment(operand: &str) -> Option<Moment> {
    if operand == "max" {
        return Some(Moment::new(Duration::MAX));
    }
    let millis: u64 = operand.parse().ok()?;
    Some(Moment::from_millis(millis))
}

/// A failure with a pair of metadata.
pub fn failure(alloc: Global) -> Option<TerminalFailure> {
    let mut pairs = Vec::new(alloc);
    pairs
        .push((ByteStr::from_static("k"), ByteStr::from_static("v")))
        .ok()?;
    Some(TerminalFailure {
        code: 409,
        message: ByteStr::from_static("no"),
        metadata: Sequence::from_vec(pairs),
    })
}

/// A value that succeeded, or with `failure` one that failed.
pub fn handed(alloc: Global, operand: &str) -> Option<NonEmptyValue> {
    if operand == "failure" {
        return Some(NonEmptyValue::Failure(failure(alloc)?));
    }
    Some(NonEmptyValue::Success(bytes(alloc, operand)?))
}

// A key or a scope that may be absent.
fn given(word: Option<&str>) -> Option<ByteStr> {
    match word {
        Some("empty") => Some(ByteStr::new()),
        Some("k") => Some(ByteStr::from_static("k")),
        Some("s") => Some(ByteStr::from_static("s")),
        Some("l") => Some(ByteStr::from_static("l")),
        _ => None,
    }
}

/// A handler of a service. Between `/` stand the idempotency key, the scope and the limit key: `k`, `s`, `l`, or `empty`.
pub fn target(alloc: Global, service: &str, handler: &str, keys: &str) -> Option<Target> {
    let service = byte_str(alloc, service)?;
    let handler = byte_str(alloc, handler)?;
    let mut keys = keys.split('/');
    Some(Target {
        service,
        handler,
        key: None,
        idempotency_key: given(keys.next()),
        scope: given(keys.next()),
        limit_key: given(keys.next()),
        headers: Sequence::new(alloc),
    })
}

fn begun(how: &str, scope: Option<ByteStr>) -> Option<AttachInvocationTarget> {
    match how {
        "workflow" => Some(AttachInvocationTarget::WorkflowId {
            name: ByteStr::from_static("w"),
            key: ByteStr::from_static("k"),
            scope,
        }),
        "request" => Some(AttachInvocationTarget::IdempotencyId {
            service_name: ByteStr::from_static("s"),
            handler_name: ByteStr::from_static("h"),
            idempotency_key: ByteStr::from_static("i"),
            service_key: None,
            scope,
        }),
        _ => None,
    }
}

/// An invocation by its id, or with `workflow` and `request` one that was begun so, in a scope that may be absent.
pub fn invocation(alloc: Global, words: &[&str]) -> Option<AttachInvocationTarget> {
    match words {
        [id] => Some(AttachInvocationTarget::InvocationId(byte_str(alloc, *id)?)),
        [how, scope] => begun(*how, given(Some(*scope))),
        _ => None,
    }
}
