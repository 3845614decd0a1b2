//! What going on with an invocation comes to.
ghost use Rattle.std.specs.Prelude.{◌≡◌};
ghost use Rattle.store_refusals.specs.declared.refusal.Refusal.TheVariants.{OutOfMemory};
ghost use Rattle.scheduler.specs.Outcomes.{brings_none, refusal_in};

use protocol_errors::Error;
use schedule_model::{EventRefusal, Reply};
use store_refusals::Refusal;

/// What going on with an invocation came to.
#[derive(Debug, Drop)]
pub enum Outcome {
    /// Its handler has ended.
    Ended,
    /// It waits for what has not come. Once that comes, it is due.
    Suspended,
    /// The attempt has failed with this.
    Failed(Error),
    /// It waits, though no more of its input comes.
    Unfinished,
    /// An event was refused for this, and its attempt was stopped.
    Refused(EventRefusal),
}

/// Memory was refused.
pub(crate) fn no_memory() -> EventRefusal
    ensures { result ≡ EventRefusal.Store OutOfMemory }
{
    EventRefusal::Store(Refusal::OutOfMemory)
}

/// What was refused of an event, if anything.
pub(crate) fn refusal_in(reply: &Reply) -> Option<EventRefusal>
    ensures { result ≡ refusal_in reply.now }
{
    match reply {
        Reply::Fed { refusal, .. } => refusal.map(EventRefusal::Store),
        Reply::Moved { refusal, .. } => refusal.map(EventRefusal::Store),
        Reply::Refused(refusal) => Some(*refusal),
        _ => None,
    }
}

/// The same, of a reply that tells nothing else.
pub(crate) fn refused(reply: Reply) -> Option<EventRefusal>
    ensures { result ≡ refusal_in reply }
{
    let refusal = refusal_in(&reply);
    drop(reply);
    refusal
}

/// Whether a feed has brought nothing.
pub(crate) fn brings_none(reply: &Reply) -> bool
    ensures { result ≡ brings_none reply.now }
{
    match reply {
        Reply::Fed { bytes, .. } => *bytes == 0,
        _ => false,
    }
}
