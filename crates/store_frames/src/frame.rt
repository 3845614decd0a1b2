// What is kept of a message from an attempt.
use bytes::{ByteStr, Bytes};
use journal_model::NotificationResult;
use protocol_stream::MessageType;

/// What a command does with the state of its object. A read whose answer it carries does nothing.
#[derive(Debug, Drop)]
pub enum StateUse {
    Nothing,
    Put { key: Bytes, value: Bytes },
    Remove { key: Bytes },
    RemoveAll,
    /// The store has to answer with the value of the key, or that it has none.
    ReadValue { key: Bytes },
    /// The store has to answer with all keys.
    ReadKeys,
}

/// A command as it is recorded.
#[derive(Debug, Drop)]
pub struct RecordedCommand {
    pub kind: MessageType,
    /// In its one canonical spelling, however the attempt spelled it.
    pub payload: Bytes,
    /// The completion that it asks for first; of a call, that of the invocation's id.
    pub completion: Option<u32>,
    /// Of a call, the completion of its answer.
    pub second_completion: Option<u32>,
    /// Of a sleep, when it ends, in milliseconds; else 0.
    pub moment: u64,
    pub state: StateUse,
    /// Whether each key of the object's state that it names is UTF-8.
    pub are_keys_text: bool,
}

/// What an attempt that failed wants done.
#[derive(Clone, Copy, Debug, PartialEq, Eq)]
pub enum ErrorBehavior {
    Retry,
    Pause,
    Fail,
}

/// A message from an attempt.
#[derive(Debug, Drop)]
pub enum AttemptFrame {
    Command(RecordedCommand),
    /// What the attempt waits for while it goes on. Nothing is recorded of it.
    AwaitingOn,
    /// The attempt is over until what it waits for has come.
    Suspension {
        /// In its canonical spelling: a tree from version 7 on, and three lists before.
        payload: Bytes,
    },
    /// The attempt failed.
    Error {
        code: u32,
        message: ByteStr,
        behavior: ErrorBehavior,
        /// In milliseconds.
        delay: Option<u64>,
    },
    /// The handler is done.
    End,
    /// What a run has come to, proposed to be recorded.
    RunOutcome {
        completion: u32,
        /// A value or a failure.
        result: NotificationResult,
        /// Whether the attempt asks to be told only that it is recorded.
        is_acknowledged: bool,
    },
    /// The payload cannot be read, or lacks what a frame of its type must have.
    Broken,
    /// Nothing else is wrong with the payload, but it is nested more than a hundred levels deep.
    TooDeep,
    /// The payload can be read, if its type is that of a record, and no attempt may write the type.
    NotAccepted,
}
