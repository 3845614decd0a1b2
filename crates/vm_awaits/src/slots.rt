// What handles stand for, and what waits for them.
ghost use Rattle.std.specs.Prelude.{◌≡◌, ℕ, ◌+◌, ◌-◌, ◌^◌, ◌<◌, length, nat_lt, slice_get, None, if◌then◌else◌, SomeIff, option_map};
ghost use Rattle.std.specs.Option.{option_copied};
ghost use Rattle.protocol_trees.specs.Shape.{state_meant};
ghost use Rattle.protocol_trees.specs.Future.{id_meant};
ghost use Rattle.attempt_model.specs.Results.{slot_in, slot_of, waiting_for, handle_state};
ghost use Rattle.vm_awaits.specs.TakenNotifications.{ready_left, slots_left};
ghost use Rattle.vm_awaits.specs.ReadyViews.{ready_in};

use crate::ready::ReadyNotifications;
use journal_model::{NotificationHandle, NotificationId, NotificationResult};
use protocol_trees::{AwaitState, NotificationIdRef};

/// By handle from 17 on, what it stands for.
pub type Slots = Vec<Option<NotificationId>>;

// The number of the handle of cancellations, and of the signal that it stands for.
const CANCEL: u32 = 1;

// The first handle that a call makes. Those below it are for signals that have a meaning of their own.
const FIRST_HANDLE: u32 = 17;

/// The number of the handle behind so many.
pub fn next_handle(count: usize) -> Option<u32>
    ensures { SomeIff result (17 + count < 2 ^ 32) (17 + count) }
{
    match u32::try_from(count) {
        Ok(count) => FIRST_HANDLE.checked_add(count),
        Err(_) => None,
    }
}

// What a handle that a call made stands for.
fn slot(slots: &[Option<NotificationId>], handle: u32) -> Option<&NotificationId>
    ensures { option_copied result ≡ (if nat_lt handle 17 then None else slot_in (slice_get slots.now (handle - 17))) }
{
    if handle < FIRST_HANDLE {
        return None;
    }
    match slots.get((handle - FIRST_HANDLE) as usize) {
        Some(slot) => slot.as_ref(),
        None => None,
    }
}

/// What a handle stands for.
pub fn id_for(
    slots: &[Option<NotificationId>],
    handle: NotificationHandle,
) -> Option<NotificationIdRef<'_>>
    ensures { option_map id_meant result ≡ slot_of slots.now handle }
{
    let handle = handle.number();
    if handle == CANCEL {
        return Some(NotificationIdRef::SignalId(CANCEL));
    }
    match slot(slots, handle) {
        None => None,
        Some(NotificationId::CompletionId(number)) => Some(NotificationIdRef::CompletionId(
            *number,
        )),
        Some(NotificationId::SignalId(number)) => Some(NotificationIdRef::SignalId(*number)),
        Some(NotificationId::SignalName(name)) => Some(NotificationIdRef::SignalName(name)),
    }
}

/// The first notification that waits for a handle.
pub fn first_for<'a>(
    slots: &[Option<NotificationId>],
    ready: &'a ReadyNotifications,
    handle: NotificationHandle,
) -> Option<&'a NotificationResult>
    ensures { option_copied result ≡ waiting_for slots.now (ready_in ready.now) handle }
{
    let handle = handle.number();
    if handle == CANCEL {
        return ready.first(&NotificationId::SignalId(CANCEL));
    }
    match slot(slots, handle) {
        Some(id) => ready.first(id),
        None => None,
    }
}

/// What a handle has come to: a leaf that stands for nothing stays pending.
pub fn state_for(
    slots: &[Option<NotificationId>],
    ready: &ReadyNotifications,
    handle: NotificationHandle,
) -> AwaitState
    ensures { state_meant result ≡ handle_state slots.now (ready_in ready.now) handle }
{
    match first_for(slots, ready, handle) {
        None => AwaitState::Pending,
        Some(NotificationResult::Failure(_)) => AwaitState::Failed,
        Some(_) => AwaitState::Succeeded,
    }
}

/// Takes the first notification that waits for a handle, which then stands for nothing, but that of cancellations.
pub fn take_for(
    slots: &mut Slots,
    ready: &mut ReadyNotifications,
    handle: NotificationHandle,
) -> Option<NotificationResult>
    ensures value { result ≡ waiting_for slots.old.items (ready_in ready.old) handle }
    ensures ready { ready_in ready.new ≡ ready_left handle result slots.old.items (ready_in ready.old) }
    ensures slots { slots.new.items ≡ slots_left handle result slots.old.items }
{
    let number = handle.number();
    if number == CANCEL {
        return ready.take(&NotificationId::SignalId(CANCEL));
    }
    match slot(slots.as_slice(), number) {
        None => None,
        Some(id) => {
            let taken = ready.take(id);
            if taken.is_some() {
                drop(slots[(number - FIRST_HANDLE) as usize].take());
            }
            taken
        }
    }
}
