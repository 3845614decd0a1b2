//! The machine of an invocation, in one crate to name: what a host embeds (`CoreVM` behind the trait `VM`), what it hands over and
//! is answered, and what a handler is written in.
//!
//! Each item is made in a crate of its own below this one and named here. Who has handlers that answer the trait `Handler` takes an
//! `Attempt`, which drives one of them by a `CoreVM` of its own: bytes in, turns, bytes out.
#![tactic(auto)]

pub mod async_results;
pub mod context;
pub mod ephemeral;
pub mod retries;
pub mod run_state;
pub mod transitions;

// The machine.
pub use vm_attempt::{CoreVM, VM, VMResult};

// What a host hands over, and is answered.
pub use vm_types::{
    AwaitResponse, AwaitingOnPolicy, AwakeableHandle, CallHandle, EphemeralCompletionId,
    JournalMismatchRetryBehavior, JournalReplay, NonDeterministicChecksOption, ResponseHead,
    SendHandle, State, VMOptions,
};

// What it is answered of a run, and tells of one.
pub use vm_refusals::{
    EntryRetryInfo, Factor, NextRetry, OnMaxAttempts, RetryPolicy, RunExitResult, RunHandle,
};

// What calls carry.
pub use journal_model::{
    AttachInvocationTarget, CANCEL_NOTIFICATION_HANDLE, Header, ImplicitCancellationOption, Input,
    Moment, NonEmptyValue, NotificationHandle, PayloadOptions, RunOptions, SignalDelivery, Target,
    TerminalFailure, UnresolvedFuture, Value,
};
pub use sequence::Sequence;

// Errors, and what a request and a response say of the protocol.
pub use protocol_differences::CommandRelationship;
pub use protocol_errors::{CommandMetadata, Error, ErrorBehavior, InvocationErrorCode, codes};
pub use protocol_stream::{CommandType, HeaderMap, Version};

// The handler of an attempt, and the attempt that drives it. A turn is given how the body of a run has ended, or it asks for that body in its
// middle; one that fails brings an `Error`.
pub use journal_model::{Answer, AwaitedFuture, Call, Handler};
pub use vm_attempt::{Attempt, RunOutcome, Step, Turn};

// Laws. Whatever a host does with an attempt, it follows the run of its handler; and it asks for the body of a run only where that run was asked
// for, and no outcome of it has come.
pub use vm_attempt_laws::{attempts_follow_runs, bodies_are_asked};
