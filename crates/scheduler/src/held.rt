//! How an attempt that is held is made, and how its bytes go to the store.
ghost use Rattle.std.specs.Prelude.{◌≡◌, false, IfSome};
ghost use Rattle.journal_store.specs.StoreStanding.{Endures, Leads};
ghost use Rattle.schedule_model.specs.Attempts.{has_stopped, IsMadeAndFed};
ghost use Rattle.schedule_model.specs.Lends.{held_as};
ghost use Rattle.schedule_model.specs.Schedule.{MovesOne};
ghost use Rattle.scheduler.specs.SchedulerCalls.{HasTakenFrames, IsLiveAttempt, IsMovedIfHeld, IsTakenUp, LeadsMoved, MovesSome, TellsCauseOfMove, refusal_told};

use bytes::{ByteStr, Bytes};
use journal_model::Handler;
use journal_store::Store;
use protocol_types::Version;
use schedule_model::{Attempt, EventRefusal, KeptAttempt, Reply};
use sqlite::Alter;
use std::alloc::Global;
use store_refusals::Refusal;
use vm_types::VMOptions;

/// An attempt, if it goes on, and there is memory for keeping it.
fn going<H: Handler + Drop>(alloc: Global, attempt: Attempt<H>) -> Option<KeptAttempt<H>>
    ensures { IfSome result (λ going. (going ≡ attempt) × (has_stopped going.vm.state.phase ≡ false)) }
{
    if attempt.has_stopped() {
        drop(attempt);
        return None;
    }
    match KeptAttempt::new(alloc, attempt) {
        Ok(kept) => Some(kept),
        Err(refused) => {
            drop(refused);
            None
        }
    }
}

/// An attempt that speaks this version, and was fed its start frame; none where memory is refused, to the attempt too.
pub(crate) fn make<H: Handler + Drop>(
    alloc: Global,
    version: Version,
    options: VMOptions,
    handler: H,
    start: Bytes,
) -> Option<KeptAttempt<H>>
    ensures fed { IfSome result (IsMadeAndFed version options handler start) }
    ensures goes_on { IfSome result (λ attempt. has_stopped attempt.vm.state.phase ≡ false) }
{
    match Attempt::new(alloc, version, options, handler) {
        Ok(made) => {
            let mut attempt = made;
            attempt.feed(start);
            going(alloc, attempt)
        }
        Err(error) => {
            drop(error);
            drop(start);
            None
        }
    }
}

/// Moves the next bytes of its output from an attempt to the store, at most so many, and takes the whole frames.
pub(crate) fn move_output<H: Handler + Drop, S: Alter + Drop>(
    store: &mut Store<S>,
    invocation: &ByteStr,
    number: u32,
    attempt: &mut KeptAttempt<H>,
    count: usize,
) -> Reply
    ensures does { Leads S.Store (λ s t. MovesOne count (held_as invocation.now number attempt.old) s result t attempt.new) store.old store.new }
    ensures settled { HasTakenFrames result → LeadsMoved S.Store invocation.now number result (λ s t. MovesOne count (held_as invocation.now number attempt.old) s result t attempt.new) store.old store.new }
    ensures held { IsTakenUp result }
    ensures live { IsLiveAttempt invocation.now number store.old → IsMovedIfHeld result }
    ensures cause { IfSome (refusal_told result) (TellsCauseOfMove S.Store count (held_as invocation.now number attempt.old) result store.old store.new) }
    ensures crash { Endures S.Store (MovesSome count (held_as invocation.now number attempt.old)) store.old store.new }
{
    let bytes = match attempt.first_output(count) {
        Ok(bytes) => bytes,
        Err(_) => return Reply::Refused(EventRefusal::Store(Refusal::OutOfMemory)),
    };
    let len = bytes.len();
    let accepted = store.accept(invocation, number, bytes.as_slice());
    drop(bytes);
    match accepted {
        Err(refusal) => Reply::Refused(EventRefusal::Store(refusal)),
        Ok(accepted) => {
            attempt.advance_output(len);
            let frames = accepted.replies.len();
            let refusal = accepted.refusal;
            drop(accepted);
            Reply::Moved {
                bytes: len,
                frames,
                refusal,
            }
        }
    }
}
