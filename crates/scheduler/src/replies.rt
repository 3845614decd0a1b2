//! What a scheduler answers where its store did what was asked for, or refused it.
ghost use Rattle.std.specs.Prelude.{◌≡◌};
ghost use Rattle.scheduler.specs.SchedulerCalls.{reply_to};

use schedule_model::{EventRefusal, Reply};
use store_refusals::Refusal;

/// It was done.
pub(crate) fn done(told: Result<(), Refusal>) -> Reply
    ensures { result ≡ reply_to (λ _. Reply.Done) told }
{
    match told {
        Ok(()) => Reply::Done,
        Err(refusal) => Reply::Refused(EventRefusal::Store(refusal)),
    }
}

/// It has this place in the journal.
pub(crate) fn placed(told: Result<u32, Refusal>) -> Reply
    ensures { result ≡ reply_to (λ place. Reply.Placed place) told }
{
    match told {
        Ok(place) => Reply::Placed(place),
        Err(refusal) => Reply::Refused(EventRefusal::Store(refusal)),
    }
}

/// So many sleeps are over.
pub(crate) fn ticked(told: Result<u64, Refusal>) -> Reply
    ensures { result ≡ reply_to (λ sleeps. Reply.Ticked sleeps) told }
{
    match told {
        Ok(sleeps) => Reply::Ticked(sleeps),
        Err(refusal) => Reply::Refused(EventRefusal::Store(refusal)),
    }
}
