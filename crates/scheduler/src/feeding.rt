//! How the input of an attempt that is held goes to it from the store.
ghost use Rattle.std.specs.Prelude.{◌≡◌, ◌≤◌, ◌≢◌, ◌==◌, ◌||◌, IfOk, IfErr, IfSome};
ghost use Rattle.journal_store.specs.Causes.{TellsWhy};
ghost use Rattle.journal_store.specs.StoreStanding.{IsQuiet, Leads};
ghost use Rattle.schedule_model.specs.Lends.{held_as};
ghost use Rattle.schedule_model.specs.Schedule.{FeedsOne};
ghost use Rattle.scheduler.specs.SchedulerCalls.{FeedsPart, IsTakenUp, refused_behind, refusal_told};

use bytes::ByteStr;
use journal_model::Handler;
use journal_store::Store;
use schedule_model::{EventRefusal, KeptAttempt, Reply};
use sqlite::Alter;
use store_refusals::Refusal;

/// Hands an attempt the next part of its input, at most so many bytes, and tells how many they were.
fn feed_part<H: Handler, S: Alter + Drop>(
    store: &mut Store<S>,
    invocation: &ByteStr,
    number: u32,
    attempt: &mut KeptAttempt<H>,
    most: usize,
) -> Result<usize, Refusal>
    ensures does { Leads S.Store (λ s t. FeedsPart most (held_as invocation.now number attempt.old) result s t attempt.new) store.old store.new }
    ensures few { IfOk result (λ len. len ≤ most) }
    ensures cause { IfErr result (TellsWhy S.Store store.old store.new) }
    ensures crash { IsQuiet S.Store store.old store.new }
{
    match store.next_input(invocation, number, most) {
        Ok(bytes) => {
            let len = bytes.len();
            attempt.feed(bytes);
            Ok(len)
        }
        Err(refusal) => Err(refusal),
    }
}

/// Whether no further part is asked for: the last one was empty, or all bytes came that were asked for.
fn is_last(len: usize, fed: usize, count: usize) -> bool
    ensures { result ≡ ((len == 0) || (fed == count)) }
{
    len == 0 || fed == count
}

/// What is answered where the store refuses a part behind so many bytes.
fn stopped(fed: usize, refusal: Refusal) -> Reply
    ensures { result ≡ refused_behind fed refusal }
{
    if fed == 0 {
        return Reply::Refused(EventRefusal::Store(refusal));
    }
    Reply::Fed {
        bytes: fed,
        refusal: Some(refusal),
    }
}

/// Hands an attempt the next bytes of its input, at most so many. The store hands out no more than one frame a call.
pub(crate) fn feed_in<H: Handler, S: Alter + Drop>(
    store: &mut Store<S>,
    invocation: &ByteStr,
    number: u32,
    attempt: &mut KeptAttempt<H>,
    count: usize,
) -> Reply
    ensures does { Leads S.Store (λ s t. FeedsOne count (held_as invocation.now number attempt.old) s result t attempt.new) store.old store.new }
    ensures held { IsTakenUp result }
    ensures cause { IfSome (refusal_told result) (TellsWhy S.Store store.old store.new) }
    ensures crash { IsQuiet S.Store store.old store.new }
{
    let mut fed = 0;
    loop {
        match feed_part(store, invocation, number, attempt, count - fed) {
            Ok(len) => {
                fed += len;
                if is_last(len, fed, count) {
                    return Reply::Fed {
                        bytes: fed,
                        refusal: None,
                    };
                }
            }
            Err(refusal) => return stopped(fed, refusal),
        }
    }
}
