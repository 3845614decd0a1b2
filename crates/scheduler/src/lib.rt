//! Invocations and their attempts, from one event to what is recorded; and a whole attempt, of one invocation or of each that is due.
#![tactic(auto)]

mod attempt;
mod due;
mod feeding;
mod held;
mod host;
mod letting_go;
mod outcome;
mod replies;
mod scheduler;
mod waits;

pub use host::Host;
pub use outcome::Outcome;
pub use protocol_errors::Error;
pub use schedule_model::{
    Attempt, Cause, Effects, Event, EventRefusal, HeldAttempt, HeldAttempts, Refusal, Reply,
    RetryPolicy, RunExitResult, RunOutcome, Turn, attempts_are_held, attempts_are_let_go,
    schedules_grow,
};
pub use scheduler::Scheduler;
pub use waits::Waits;

// What a scheduler tells of an invocation, and of an object.
pub use store_invocations::{EntryKind, RecordedEntry};
pub use store_tables::{LastError, StateRow};

// What a handler is, what it calls and is answered, and what a schedule is told besides.
pub use journal_model::{
    Answer, AttachInvocationTarget, AwaitedFuture, Call, Failure, Handler, Header, Input, Moment,
    NewInvocation, NonEmptyValue, NotificationHandle, NotificationResult, PayloadOptions,
    SignalKey, StateMode, Target, TerminalFailure, UnresolvedFuture, Value,
};
pub use sequence::Sequence;
pub use vm_types::VMOptions;
