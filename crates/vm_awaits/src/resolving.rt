// How an awaited future is resolved from the line.
ghost use Rattle.std.specs.Prelude.{◌≡◌, Some, OnErr, IfOk};
ghost use Rattle.journal_model.specs.AwaitTree.{Single};
ghost use Rattle.journal_model.specs.Delivery.{state_of_result};
ghost use Rattle.journal_model.specs.Future.{tree_of};
ghost use Rattle.attempt_model.specs.Results.{resolution_of};
ghost use Rattle.vm_flat_trees.specs.Counts.{state_meant};
ghost use Rattle.vm_awaits.specs.FutureResolution.{resolution_as, line_left, StopsMidway};
ghost use Rattle.vm_awaits.specs.ReadyViews.{ready_in};

use crate::flat::FlatTree;
use crate::line::Line;
use crate::{ReadyNotifications, state_for};
use journal_model::{
    NotificationHandle, NotificationId, NotificationResult, SignalDelivery, UnresolvedFuture,
};
use protocol_trees::AwaitState;
use std::alloc::{AllocError, Global};
use vm_flat_trees::climbing::is_completed;
use vm_flat_trees::opening::{Opened, open};

/// What looking for an awaited future came to.
#[derive(Debug, Drop)]
pub enum ResolveFutureResult {
    /// It is awake: something that it waits for has come.
    AnyCompleted,
    /// Nothing is left to look at; this is what it still waits for.
    WaitExternalInput(UnresolvedFuture),
}

fn result_state(brought: &NotificationResult) -> AwaitState
    ensures { state_meant result ≡ state_of_result (Some brought.now) }
{
    match brought {
        NotificationResult::Failure(_) => AwaitState::Failed,
        NotificationResult::Void => AwaitState::Succeeded,
        NotificationResult::Value(_) => AwaitState::Succeeded,
        NotificationResult::InvocationId(_) => AwaitState::Succeeded,
        NotificationResult::StateKeys(_) => AwaitState::Succeeded,
    }
}

// Of a future that is one leaf: nothing is made of it.
fn resolve_leaf(
    delivery: SignalDelivery,
    slots: &[Option<NotificationId>],
    line: &mut Line,
    ready: &mut ReadyNotifications,
    handle: NotificationHandle,
) -> Result<ResolveFutureResult, AllocError>
    ensures resolved { IfOk result (λ answer. resolution_of delivery slots.now (Single handle) line.old (ready_in ready.old)
        ≡ resolution_as line.new (ready_in ready.new) answer) }
    ensures left { IfOk result (λ answer. line.new ≡ line_left line.new answer) }
    ensures err { OnErr result (StopsMidway delivery slots.now (Single handle) line.old (ready_in ready.old) line.new (ready_in ready.new)) }
{
    'steps: loop {
        if is_completed(state_for(slots, ready, handle)) {
            return Ok(ResolveFutureResult::AnyCompleted);
        }
        let looked = line.look_at_one(ready, delivery)?;
        if !looked {
            return Ok(ResolveFutureResult::WaitExternalInput(UnresolvedFuture::Single(handle)));
        }
    }
}

// Of any other.
fn resolve_tree(
    alloc: Global,
    delivery: SignalDelivery,
    slots: &[Option<NotificationId>],
    line: &mut Line,
    ready: &mut ReadyNotifications,
    future: UnresolvedFuture,
) -> Result<ResolveFutureResult, AllocError>
    ensures resolved { IfOk result (λ answer. resolution_of delivery slots.now (tree_of future) line.old (ready_in ready.old)
        ≡ resolution_as line.new (ready_in ready.new) answer) }
    ensures left { IfOk result (λ answer. line.new ≡ line_left line.new answer) }
    ensures err { OnErr result (StopsMidway delivery slots.now (tree_of future) line.old (ready_in ready.old) line.new (ready_in ready.new)) }
{
    let made = FlatTree::new(alloc, slots, ready, &future);
    drop(future);
    let mut flat = made?;
    'steps: loop {
        if flat.is_awake() {
            return Ok(ResolveFutureResult::AnyCompleted);
        }
        let Some(notification) = line.first() else {
            let left = flat.left(alloc)?;
            return Ok(ResolveFutureResult::WaitExternalInput(left));
        };
        flat.deliver(&notification.id, result_state(&notification.result));
        line.look_at_one(ready, delivery)?;
    }
}

/// Looks at one notification a step, until the future is awake.
pub(crate) fn resolve(
    alloc: Global,
    delivery: SignalDelivery,
    slots: &[Option<NotificationId>],
    line: &mut Line,
    ready: &mut ReadyNotifications,
    future: UnresolvedFuture,
) -> Result<ResolveFutureResult, AllocError>
    ensures resolved { IfOk result (λ answer. resolution_of delivery slots.now (tree_of future) line.old (ready_in ready.old)
        ≡ resolution_as line.new (ready_in ready.new) answer) }
    ensures left { IfOk result (λ answer. line.new ≡ line_left line.new answer) }
    ensures err { OnErr result (StopsMidway delivery slots.now (tree_of future) line.old (ready_in ready.old) line.new (ready_in ready.new)) }
{
    match open(&future) {
        Opened::Leaf(handle) => {
            drop(future);
            resolve_leaf(delivery, slots, line, ready, handle)
        }
        Opened::Node(..) => resolve_tree(alloc, delivery, slots, line, ready, future),
    }
}
