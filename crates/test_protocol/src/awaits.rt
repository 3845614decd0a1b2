//! Rows of trees: `tree PAYLOAD SUCCEEDED FAILED` with the completions that have succeeded and those that have failed, between
//! commas. Of the signals, `go` has succeeded. Told is whether the tree is awake, and what it comes to.
use crate::operands::{number, record};
use journal_protocol::messages::Future;
use journal_protocol::{AwaitState, NotificationIdRef, await_state, is_awake};
use std::alloc::Global;

/// Whether a number stands in a list, between commas.
fn holds(numbers: &str, wanted: u32) -> bool {
    for word in numbers.split(',') {
        if matches!(number(word), Some(found) if found == wanted) {
            return true;
        }
    }
    false
}

/// What a leaf has come to.
fn state_of(leaf: NotificationIdRef<'_>, succeeded: &str, failed: &str) -> AwaitState {
    match leaf {
        NotificationIdRef::CompletionId(id) if holds(succeeded, id) => AwaitState::Succeeded,
        NotificationIdRef::CompletionId(id) if holds(failed, id) => AwaitState::Failed,
        NotificationIdRef::SignalName(name) if name.as_str() == "go" => AwaitState::Succeeded,
        _ => AwaitState::Pending,
    }
}

fn tree(alloc: Global, future: &Future, succeeded: &str, failed: &str) -> Option<String> {
    let word = if is_awake(future, |leaf| state_of(leaf, succeeded, failed)) {
        "awake"
    } else {
        "waits"
    };
    let state = await_state(future, |leaf| state_of(leaf, succeeded, failed));
    format!(in alloc; "{word} {state:?}").ok()
}

fn tree_read(alloc: Global, payload: &str, succeeded: &str, failed: &str) -> Option<String> {
    let future = record(alloc, payload)?;
    let told = tree(alloc, &future, succeeded, failed);
    drop(future);
    told
}

pub fn answer(alloc: Global, operation: &str, operands: &[&str]) -> Option<String> {
    match (operation, operands) {
        ("tree", [payload, succeeded, failed]) => tree_read(alloc, payload, succeeded, failed),
        _ => None,
    }
}
