//! The items of the specification that `journal_store` passes on, each under its own name. What stands here names them and calls none:
//! where this crate is checked, they are there.
pub use journal_store::{
    Accepted, BegunAttempt, Cause, EntryKind, FrameReply, LastError, NewInvocation, NotOpened,
    NotificationResult, RecordedEntry, Refusal, SignalKey, StateMode, Store,
};
use sqlite::Alter;
use test_rows::named;

/// What is called of a store.
pub fn name_stores<S: Alter + Drop>() {
    named!(Store<S>: open into_connection invoke result tick begin step accept);
    named!(Store<S>: next_input close_input push stop entries answer failure is_open);
}
