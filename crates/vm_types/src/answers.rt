//! What the machine answers about itself and of an await.
use crate::handles::EphemeralCompletionId;
use journal_model::{Header, NotificationHandle};
use protocol_types::Version;
use sequence::Sequence;

/// How the response to the runtime begins.
#[derive(Debug, Drop)]
pub struct ResponseHead {
    pub status_code: u16,
    pub headers: Sequence<Header>,
    pub version: Version,
}

/// How far an attempt has come. A machine that has failed is closed.
#[derive(Debug, Clone, Copy, PartialEq, Eq)]
pub enum State {
    /// Its start, or some of the entries that were recorded before it was begun, have not come.
    WaitingPreFlight,
    /// Some of the recorded commands were not met by a call yet.
    Replaying,
    Processing,
    Closed,
}

/// What an await has come to.
#[derive(Debug, Clone, Copy, PartialEq, Eq)]
pub enum AwaitResponse {
    /// What it awaits is complete, or some nested combinator of it is: notifications can be taken.
    AnyCompleted,
    /// Nothing more can be done here until the outside goes on.
    WaitingExternalProgress {
        /// More input may come that completes it.
        waiting_input: bool,
        /// A run of what it awaits is being executed, whose outcome is still to be proposed.
        waiting_run_proposal: bool,
    },
    /// The run of this handle is to be executed now.
    ExecuteRun(NotificationHandle),
    /// A cancellation has ended the await, and was passed on to the children that it is to be passed on to.
    CancelSignalReceived,
    /// The answer of this ephemeral read can be taken.
    EphemeralNotificationReady(EphemeralCompletionId),
}
