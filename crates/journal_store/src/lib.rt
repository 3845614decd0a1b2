//! What is recorded of invocations, in a database, and which attempts are live, in memory: the store.
//!
//! A store stands for a list of accepted events, and each call says what it makes of that list: an event is accepted, and the
//! store then stands for it too, or it is refused for the least of its causes and the store stands as before.
#![tactic(auto)]

mod accept;
mod attempt;
mod due;
mod events;
mod joined;
mod laws;
mod open;
pub mod parts;
mod read;
mod signals;
mod step;
mod store;
mod tick;

pub use accept::Accepted;
pub use journal_model::{
    Failure, Header, NewInvocation, NonEmptyValue, NotificationResult, SignalKey, StateMode,
    TerminalFailure,
};
pub use laws::refused_for_memory;
pub use open::NotOpened;
pub use store::Store;
pub use store_calls::BegunAttempt;
pub use store_invocations::{EntryKind, RecordedEntry};
pub use store_reads::OpenRequest;
pub use store_refusals::{Cause, Refusal};
pub use store_steps::FrameReply;
pub use store_tables::{Closing, InvocationRow, LastError, Progress, StateRow};
