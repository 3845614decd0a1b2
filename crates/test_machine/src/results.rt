//! What stands for what has come: `copies HEX`, where a completion has brought this value and a handle stands for it, and
//! `copies DELIVERY HEX ..`, where the signal `a` has come with each of these values, is delivered so (`queued` or `overwrite`), and
//! an await that nothing wakes has looked at all. There is a handle for each value then, and one more. Told is each handle with what is
//! copied before an await for it has looked, what is copied behind that, twice, what is taken then, and what is copied behind that; and
//! what the first handle of a signal gives in the end.
use crate::operands::bytes;
use bytes::ByteStr;
use invocation_vm::async_results::AsyncResultsState;
use invocation_vm::{NotificationHandle, SignalDelivery, UnresolvedFuture};
use journal_model::{Notification, NotificationId, NotificationResult};
use std::alloc::Global;
use std::fmt::Write;
use test_rows::Hex;

/// What the values are brought by.
#[derive(Clone, Copy)]
enum Bringing {
    Completion,
    Signal,
}

impl Bringing {
    fn id(self) -> NotificationId {
        match self {
            Bringing::Completion => NotificationId::CompletionId(1),
            Bringing::Signal => NotificationId::SignalName(ByteStr::from_static("a")),
        }
    }
}

/// Tells what was found, behind a word for how.
fn tell_found(told: &mut String, word: &str, found: Option<NotificationResult>) -> Option<()> {
    match found {
        Some(NotificationResult::Value(bytes)) => {
            write!(told, " {word} {}", Hex(bytes.as_slice())).ok()
        }
        Some(other) => {
            drop(other);
            None
        }
        None => write!(told, " {word} none").ok(),
    }
}

fn arrive(
    alloc: Global,
    results: &mut AsyncResultsState,
    by: Bringing,
    values: &[&str],
) -> Option<()> {
    for value in values {
        let result = NotificationResult::Value(bytes(alloc, *value)?);
        let id = by.id();
        results.enqueue(Notification { id, result }).ok()?;
    }
    Some(())
}

fn look(results: &mut AsyncResultsState, handle: NotificationHandle) -> Option<()> {
    let future = UnresolvedFuture::Single(handle);
    drop(results.try_resolve_future(future).ok()?);
    Some(())
}

fn copy(results: &AsyncResultsState, handle: NotificationHandle, told: &mut String) -> Option<()> {
    tell_found(told, "copied", results.copy_handle(handle).ok()?)
}

/// Tells the next handle.
fn tell(results: &mut AsyncResultsState, by: Bringing, told: &mut String) -> Option<()> {
    let handle = results.create_handle_mapping(by.id()).ok()?;
    write!(told, "handle {}", u32::from(handle)).ok()?;
    copy(results, handle, told)?;
    look(results, handle)?;
    copy(results, handle, told)?;
    copy(results, handle, told)?;
    tell_found(told, "taken", results.take_handle(handle))?;
    copy(results, handle, told)
}

/// The first handle stands for a completion that never comes, so that an await of it looks at all.
fn tell_signals(results: &mut AsyncResultsState, values: &[&str], told: &mut String) -> Option<()> {
    let asleep = results
        .create_handle_mapping(Bringing::Completion.id())
        .ok()?;
    look(results, asleep)?;
    for _ in values {
        tell(results, Bringing::Signal, told)?;
        told.push_str(", ").ok()?;
    }
    tell(results, Bringing::Signal, told)?;
    told.push_str(", handle 18").ok()?;
    tell_found(
        told,
        "taken",
        results.take_handle(NotificationHandle::from(18u32)),
    )
}

fn tell_all(
    alloc: Global,
    results: &mut AsyncResultsState,
    by: Bringing,
    values: &[&str],
    told: &mut String,
) -> Option<()> {
    arrive(alloc, results, by, values)?;
    match by {
        Bringing::Completion => tell(results, by, told),
        Bringing::Signal => tell_signals(results, values, told),
    }
}

fn copies(
    alloc: Global,
    delivery: SignalDelivery,
    by: Bringing,
    values: &[&str],
) -> Option<String> {
    let mut results = AsyncResultsState::new(alloc, delivery);
    let mut told = String::new(alloc);
    let done = tell_all(alloc, &mut results, by, values, &mut told);
    drop(results);
    done?;
    Some(told)
}

/// What the row's values are copied and taken as.
pub fn answer(alloc: Global, operands: &[&str]) -> Option<String> {
    let queued = SignalDelivery::Queued;
    match operands {
        [_] => copies(alloc, queued, Bringing::Completion, operands),
        ["queued", values @ ..] => copies(alloc, queued, Bringing::Signal, values),
        ["overwrite", values @ ..] => {
            copies(alloc, SignalDelivery::Overwrite, Bringing::Signal, values)
        }
        _ => None,
    }
}
