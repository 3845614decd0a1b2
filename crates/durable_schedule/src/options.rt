//! What a program may set: of the machines of its schedule, of the payload of a call, and of the tries of an effect.

// Of a machine: how it takes a cancellation, a journal that does not match, an await and signals that wait.
pub use journal_model::{ImplicitCancellationOption, SignalDelivery};
pub use vm_types::{
    AwaitingOnPolicy, JournalMismatchRetryBehavior, JournalReplay, NonDeterministicChecksOption,
    VMOptions,
};

// Of a call.
pub use journal_model::PayloadOptions;

// Of an effect: whether and when it is tried again.
pub use vm_refusals::{Factor, OnMaxAttempts, RetryPolicy};
