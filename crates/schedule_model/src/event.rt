//! What may happen next, and what it came to.
ghost use Rattle.std.specs.Prelude.{◌≡◌};
ghost use Rattle.schedule_model.specs.Names.{event_refusal_name_of};

use bytes::ByteStr;
use journal_model::{NewInvocation, NotificationResult, SignalKey};
use store_refusals::Refusal;
use vm_attempt::{RunOutcome, Turn};

/// What may happen next.
#[derive(Debug, Drop)]
pub enum Event<H> {
    /// An invocation is made.
    Invoke(NewInvocation),
    /// A request's completion has this result.
    Result {
        invocation: ByteStr,
        completion: u32,
        value: NotificationResult,
    },
    /// A signal comes: void, a value or a failure.
    Signal {
        invocation: ByteStr,
        signal: SignalKey,
        value: NotificationResult,
    },
    /// The invocation is cancelled. It may be so any number of times.
    Cancel {
        invocation: ByteStr,
    },
    /// It is this moment, in milliseconds: the sleeps that are due are over.
    Tick(u64),
    /// An attempt is begun, at a moment in milliseconds.
    Begin {
        invocation: ByteStr,
        handler: H,
        now: u64,
    },
    /// The next bytes of its input are handed to an attempt, at most so many.
    Feed {
        invocation: ByteStr,
        attempt: u32,
        count: usize,
    },
    /// No more of its input is handed to an attempt.
    Close {
        invocation: ByteStr,
        attempt: u32,
    },
    /// An attempt makes one turn. Where it executes the body of a run, the body ends with this outcome.
    Turn {
        invocation: ByteStr,
        attempt: u32,
        outcome: RunOutcome,
    },
    /// The next bytes of its output are moved to the store, at most so many.
    Move {
        invocation: ByteStr,
        attempt: u32,
        count: usize,
    },
    /// An attempt is stopped.
    Stop {
        invocation: ByteStr,
        attempt: u32,
    },
}

/// Why an event is refused.
#[derive(Clone, Copy, Debug, PartialEq, Eq)]
pub enum EventRefusal {
    /// The store refuses it.
    Store(Refusal),
    /// X1: a turn's outcome is a failure that is tried again, and its code is that of a journal that does not match.
    ///
    /// A machine fails with that code where its handler does not do what the journal says, and may be told to close the invocation for it.
    /// No run has such an end.
    JournalMismatchOutcome,
    /// X2: the scheduler does not hold this attempt.
    AttemptNotHeld,
}

impl EventRefusal {
    /// The name as it is printed.
    pub fn name(self) -> &'static str
        ensures { result.now ≡ event_refusal_name_of self }
    {
        match self {
            EventRefusal::Store(refusal) => refusal.name(),
            EventRefusal::JournalMismatchOutcome => "X1",
            EventRefusal::AttemptNotHeld => "X2",
        }
    }
}

/// What an event came to.
#[derive(Debug, Drop)]
pub enum Reply {
    /// An invocation was made, an input closed, or an attempt stopped.
    Done,
    /// A result, a signal or a cancellation took this place of the journal.
    Placed(u32),
    /// So many sleeps are over.
    Ticked(u64),
    /// An attempt of this number was begun.
    Begun(u32),
    /// So many bytes were handed out, and why no further one was, where it was refused. A refusal of the first is `Refused`.
    Fed {
        bytes: usize,
        refusal: Option<Refusal>,
    },
    Turned(Turn),
    /// So many bytes were moved, so many frames taken, and why no further one was, where it was refused.
    Moved {
        bytes: usize,
        frames: usize,
        refusal: Option<Refusal>,
    },
    Refused(EventRefusal),
}
