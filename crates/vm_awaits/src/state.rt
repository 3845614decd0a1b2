// What has come, and what handles stand for.
ghost use Rattle.std.specs.Prelude.{◌≡◌, ◌+◌, ◌^◌, ◌≤◌, ◌↔◌, true, [], length, is_some, IfOk, OnOk, OnErr, IsErrOf};
ghost use Rattle.journal_model.specs.Future.{tree_of};
ghost use Rattle.journal_model.specs.PrunedTrees.{only_leaves};
ghost use Rattle.protocol_stream.specs.Records.{future_record};
ghost use Rattle.journal_model.specs.declared.notification.NotificationId.TheVariants.{CompletionId};
ghost use Rattle.std.specs.Option.{option_copied};
ghost use Rattle.attempt_model.specs.Results.{first_waiting_result, waiting_for, slot_of, resolution_of};
ghost use Rattle.vm_awaits.specs.Children.{completion_in};
ghost use Rattle.vm_awaits.specs.Views.{results_of, delivery_of, queue_of, ready_of, slots_of};
ghost use Rattle.vm_awaits.specs.Calls.{no_results, with_queued, with_ready, with_handle, has_come, has_next, after_look, results_after_take};
ghost use Rattle.vm_awaits.specs.FutureResolution.{resolution_as, line_left, StopsMidway};
ghost use Rattle.vm_awaits.specs.declared.state.CreateHandleError.TheVariants.{HandlesExhausted, OutOfMemory};

use crate::line::Line;
use crate::records::record_of;
use crate::resolving::{ResolveFutureResult, resolve};
use crate::{ReadyNotifications, Slots, first_for, id_for, next_handle, take_for};
use journal_model::{
    Notification, NotificationHandle, NotificationId, NotificationResult, SignalDelivery,
    UnresolvedFuture,
};
use protocol_records::Future;
use protocol_trees::NotificationIdRef;
use std::alloc::{AllocError, AllocFailed, Global};

/// What has come of an invocation's notifications, and what its handles stand for.
///
/// A notification that comes waits in line until an await looks at it: before that it is not completed, and not taken. Handle 1
/// stands for the cancellation always; those that are made count from 17.
#[derive(Debug, Drop)]
pub struct AsyncResultsState {
    signal_delivery: SignalDelivery,
    line: Line,
    ready: ReadyNotifications,
    slots: Slots,
}

/// Why no handle was made.
#[derive(Clone, Copy, Debug, PartialEq, Eq)]
pub enum CreateHandleError {
    /// The number of the next one has more than 32 bits.
    HandlesExhausted,
    OutOfMemory,
}

impl<T: Drop> From<AllocFailed<T>> for CreateHandleError {
    ghost from_gives = { λ _ error. error ≡ OutOfMemory };

    fn from(_refused: AllocFailed<T>) -> CreateHandleError {
        CreateHandleError::OutOfMemory
    }
}

impl AsyncResultsState {
    /// Nothing has come, and no handle was made.
    pub fn new(alloc: Global, signal_delivery: SignalDelivery) -> AsyncResultsState
        ensures { results_of result ≡ no_results signal_delivery }
    {
        AsyncResultsState {
            signal_delivery,
            line: Line::new(alloc),
            ready: ReadyNotifications::new(alloc),
            slots: Vec::new(alloc),
        }
    }

    /// One more has come: it waits in line, until an await looks at it.
    pub fn enqueue(&mut self, notification: Notification) -> Result<(), AllocError>
        ensures ok { OnOk result (results_of self.new ≡ with_queued notification (results_of self.old)) }
        ensures err { OnErr result (results_of self.new ≡ results_of self.old) }
    {
        self.line.push(notification)
    }

    /// One is known at once, as the value of a key that was read before: no await has to look at it.
    pub fn insert_ready(&mut self, notification: Notification) -> Result<(), AllocError>
        ensures ok { OnOk result (results_of self.new ≡ with_ready notification (results_of self.old)) }
        ensures err { OnErr result (results_of self.new ≡ results_of self.old) }
    {
        match self.ready.push(self.signal_delivery, notification) {
            Ok(()) => Ok(()),
            Err(refused) => {
                drop(refused);
                Err(AllocError)
            }
        }
    }

    /// Makes the next handle, for this id.
    pub fn create_handle_mapping(
        &mut self,
        id: NotificationId,
    ) -> Result<NotificationHandle, CreateHandleError>
        ensures handle { IfOk result (λ handle. handle ≡ 17 + length (slots_of self.old)) }
        ensures ok { OnOk result (results_of self.new ≡ with_handle id (results_of self.old)) }
        ensures exhausted { IsErrOf result HandlesExhausted ↔ (2 ^ 32 ≤ 17 + length (slots_of self.old)) }
        ensures err { OnErr result (results_of self.new ≡ results_of self.old) }
    {
        let Some(number) = next_handle(self.slots.len()) else {
            return Err(CreateHandleError::HandlesExhausted);
        };
        self.slots.push(Some(id))?;
        Ok(NotificationHandle::new(number))
    }

    /// Whether no handle is left behind so many more.
    pub fn lacks_handles(&self, behind: u32) -> bool
        ensures { (result ≡ true) ↔ (2 ^ 32 ≤ 17 + length (slots_of self.now) + behind) }
    {
        next_handle(self.slots.len().saturating_add(behind as usize)).is_none()
    }

    /// Whether a notification waits for the handle.
    pub fn is_handle_completed(&self, handle: NotificationHandle) -> bool
        ensures { result ≡ is_some (waiting_for (slots_of self.now) (ready_of self.now) handle) }
    {
        first_for(self.slots.as_slice(), &self.ready, handle).is_some()
    }

    /// The completion that a handle stands for, if it stands for one.
    pub fn completion_of(&self, handle: NotificationHandle) -> Option<u32>
        ensures { result ≡ completion_in (slot_of (slots_of self.now) handle) }
    {
        match id_for(self.slots.as_slice(), handle) {
            Some(NotificationIdRef::CompletionId(number)) => Some(number),
            Some(NotificationIdRef::SignalId(_)) | Some(NotificationIdRef::SignalName(_)) | None =>
                { None }
        }
    }

    /// Takes the first notification that waits for the handle, which then stands for nothing. The handle of cancellations
    /// stands for them always.
    pub fn take_handle(&mut self, handle: NotificationHandle) -> Option<NotificationResult>
        ensures value { result ≡ waiting_for (slots_of self.old) (ready_of self.old) handle }
        ensures rest { results_of self.new ≡ results_after_take handle result (results_of self.old) }
    {
        take_for(&mut self.slots, &mut self.ready, handle)
    }

    /// A copy of the first notification that waits for the handle.
    pub fn copy_handle(
        &self,
        handle: NotificationHandle,
    ) -> Result<Option<NotificationResult>, AllocError>
        ensures { IfOk result (λ copy. copy ≡ waiting_for (slots_of self.now) (ready_of self.now) handle) }
    {
        match first_for(self.slots.as_slice(), &self.ready, handle) {
            Some(result) => Ok(Some(result.clone()?)),
            None => Ok(None),
        }
    }

    /// The first notification that waits of this completion.
    pub fn value_of_child(&self, completion: u32) -> Option<&NotificationResult>
        ensures { option_copied result ≡ first_waiting_result (ready_of self.now (CompletionId completion)) }
    {
        self.ready.first(&NotificationId::CompletionId(completion))
    }

    /// Whether something has come for this completion: it waits to be taken, or stands in line.
    pub fn has_come(&self, completion: u32) -> bool
        ensures { result ≡ has_come completion (results_of self.now) }
    {
        self.line.has(completion) || self.value_of_child(completion).is_some()
    }

    /// Looks at the notification that stands first in line, if one does. Where there is no memory for it, it stands there still.
    pub fn look_at_one(&mut self) -> Result<bool, AllocError>
        ensures next { IfOk result (λ looked. looked ≡ has_next (queue_of self.old)) }
        ensures ok { OnOk result (results_of self.new ≡ after_look (results_of self.old)) }
        ensures err { OnErr result (results_of self.new ≡ results_of self.old) }
    {
        self.line.look_at_one(&mut self.ready, self.signal_delivery)
    }

    /// Looks at what stands in line, one notification a step, until the future is awake. Where it stays asleep, this is what it
    /// still waits for: what was completed of it is left out, also where a later notification replaced what completed it.
    ///
    /// It costs the future and what is looked at, not one times the other. Memory is taken for the nodes of the future, for where
    /// the leaves of each id stand, and for what waits. Where it runs out, what was looked at stays looked at.
    pub fn try_resolve_future(
        &mut self,
        future: UnresolvedFuture,
    ) -> Result<ResolveFutureResult, AllocError>
        ensures resolved { IfOk result (λ answer. resolution_of (delivery_of self.old) (slots_of self.old) (tree_of future) (queue_of self.old) (ready_of self.old)
            ≡ resolution_as (queue_of self.new) (ready_of self.new) answer) }
        ensures left { IfOk result (λ answer. queue_of self.new ≡ line_left (queue_of self.new) answer) }
        ensures delivery { delivery_of self.new ≡ delivery_of self.old }
        ensures slots { slots_of self.new ≡ slots_of self.old }
        ensures err { OnErr result (StopsMidway (delivery_of self.old) (slots_of self.old) (tree_of future) (queue_of self.old) (ready_of self.old) (queue_of self.new) (ready_of self.new)) }
    {
        resolve(
            *self.slots.allocator(),
            self.signal_delivery,
            self.slots.as_slice(),
            &mut self.line,
            &mut self.ready,
            future,
        )
    }

    /// What a future waits for, as a record over the ids that its handles stand for; a handle that stands for nothing is left
    /// out. Its bytes are those that the definitions give to what a suspension, or an await that waits, tells.
    pub fn resolve_unresolved_future(&self, future: &UnresolvedFuture) -> Result<Future, AllocError>
        ensures { IfOk result (λ told. told ≡ future_record (only_leaves (slot_of (slots_of self.now)) (tree_of future.now))) }
    {
        record_of(*self.slots.allocator(), self.slots.as_slice(), future)
    }
}
