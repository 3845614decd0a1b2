// What has come is taken.
ghost use Rattle.std.specs.Prelude.{◌≡◌, true, is_some, IfErr};
ghost use Rattle.std.specs.List.{list_all};
ghost use Rattle.std.specs.Str.{is_utf8};
ghost use Rattle.journal_model.specs.Value.{as_taken};
ghost use Rattle.attempt_model.specs.Children.{is_id};
ghost use Rattle.attempt_model.specs.Results.{are_keys_text, slot_of, waiting_for};
ghost use Rattle.vm_awaits.specs.Views.{results_of, slots_of, ready_of};
ghost use Rattle.vm_awaits.specs.Calls.{results_after_take};
ghost use Rattle.vm_waiting.specs.TrackedChildren.{child_of_id, is_allowed, Remembers};
ghost use Rattle.vm_waiting.specs.TakeEffects.{taken_error, IsResultTaken, KeepsTaken, TakesSeen};
ghost use Rattle.vm_waiting.specs.declared.taking.TakeError.TheVariants.{OutOfMemory};

use bytes::Bytes;
use journal_model::{NotificationHandle, NotificationResult, Value};
use protocol_messages::to_value;
use std::alloc::Global;
use std::str;
use vm_calls::{Active, Children};

/// Why what was taken is not handed out.
#[derive(Clone, Copy, Debug, PartialEq, Eq)]
pub enum TakeError {
    /// A state key is no text.
    KeyNotText,
    /// What came for the invocation id of a child is none.
    ChildNotId,
    OutOfMemory,
}

fn is_text(key: &Bytes) -> bool
    ensures { result ≡ is_utf8 key.now }
{
    match str::from_utf8(key.as_slice()) {
        Ok(_) => true,
        Err(_) => false,
    }
}

fn are_text(keys: &[Bytes]) -> bool
    ensures { result ≡ list_all is_utf8 keys.now }
{
    for key in keys {
        if !is_text(key) {
            return false;
        }
    }
    true
}

fn are_keys_text(brought: &NotificationResult) -> bool
    ensures { result ≡ are_keys_text brought.now }
{
    match brought {
        NotificationResult::StateKeys(keys) => are_text(keys.as_slice()),
        _ => true,
    }
}

/// Whether an invocation id was brought.
pub(crate) fn is_id(brought: &NotificationResult) -> bool
    ensures { result ≡ is_id (as_taken brought.now) }
{
    match brought {
        NotificationResult::InvocationId(_) => true,
        NotificationResult::Void
        | NotificationResult::Value(_)
        | NotificationResult::Failure(_)
        | NotificationResult::StateKeys(_) => false,
    }
}

fn is_allowed(of_child: bool, brought: &NotificationResult) -> bool
    ensures { result ≡ is_allowed of_child (as_taken brought.now) }
{
    if of_child {
        return is_id(brought);
    }
    true
}

fn taken_error(error: protocol_messages::TakeError) -> TakeError
    ensures { result ≡ taken_error error }
{
    match error {
        protocol_messages::TakeError::KeyNotText => TakeError::KeyNotText,
        protocol_messages::TakeError::OutOfMemory => TakeError::OutOfMemory,
    }
}

// What is handed out of what was taken.
fn handed_out(
    alloc: Global,
    of_child: bool,
    brought: Option<NotificationResult>,
) -> Result<Option<Value>, TakeError>
    ensures { IsResultTaken of_child brought result }
{
    let Some(brought) = brought else {
        return Ok(None);
    };
    if !are_keys_text(&brought) {
        drop(brought);
        return Err(TakeError::KeyNotText);
    }
    if !is_allowed(of_child, &brought) {
        drop(brought);
        return Err(TakeError::ChildNotId);
    }
    match to_value(alloc, brought) {
        Ok(value) => Ok(Some(value)),
        Err(error) => Err(taken_error(error)),
    }
}

// The child that a handle stands for, by its completion.
fn child_for(active: &Active, handle: NotificationHandle) -> Option<u32>
    ensures { result ≡ child_of_id (slot_of (slots_of active.now.results) handle) active.now.children }
{
    let completion = active.results.completion_of(handle)?;
    if active.children.has(completion) {
        return Some(completion);
    }
    None
}

// The invocation id that was taken of a child is remembered.
fn remember(
    children: &mut Children,
    child: Option<u32>,
    taken: Option<Value>,
) -> Result<Option<Value>, TakeError>
    ensures remembers { Remembers child taken children.old result children.new }
    ensures memory { IfErr result (λ error. (error ≡ OutOfMemory) × (is_some taken ≡ true)) }
{
    let (Some(completion), Some(Value::InvocationId(id))) = (child, &taken) else {
        return Ok(taken);
    };
    match id.clone() {
        Ok(copy) => {
            children.keep_id(completion, copy);
            Ok(taken)
        }
        Err(_) => {
            drop(taken);
            Err(TakeError::OutOfMemory)
        }
    }
}

/// Takes what has come first of what the handle stands for, if anything has come and an await has looked at it. The invocation id
/// that is taken of a child is remembered.
///
/// Also where it cannot be handed out it is gone, and the handle stands for nothing.
pub fn take(
    active: &mut Active,
    alloc: Global,
    handle: NotificationHandle,
) -> Result<Option<Value>, TakeError>
    ensures taken { TakesSeen handle active.old result active.new }
    ensures value { IsResultTaken (is_some (child_of_id (slot_of (slots_of active.old.results) handle) active.old.children))
        (waiting_for (slots_of active.old.results) (ready_of active.old.results) handle) result }
    ensures rest { results_of active.new.results
        ≡ results_after_take handle (waiting_for (slots_of active.old.results) (ready_of active.old.results) handle) (results_of active.old.results) }
    ensures children { KeepsTaken (child_of_id (slot_of (slots_of active.old.results) handle) active.old.children) active.old.children result active.new.children }
    ensures others { active.new ≡ record active.old { results = active.new.results; children = active.new.children } }
{
    let child = child_for(active, handle);
    let brought = active.results.take_handle(handle);
    match handed_out(alloc, child.is_some(), brought) {
        Ok(taken) => remember(&mut active.children, child, taken),
        Err(error) => Err(error),
    }
}
