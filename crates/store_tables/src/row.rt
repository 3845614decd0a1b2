//! What is recorded of invocations, as values.

use bytes::{ByteStr, Bytes};
use protocol_types::{MessageType, Version};

/// How an invocation was closed.
#[derive(Clone, Copy, Debug, PartialEq, Eq)]
pub enum Closing {
    /// By the end of its handler.
    Ended,
    /// By a failure, which its last error tells.
    Failed,
}

/// What an attempt told of an error.
#[derive(Debug, Drop)]
pub struct LastError {
    pub code: u32,
    /// The number of what is to be done, as it came.
    pub behavior: u32,
    /// Milliseconds.
    pub delay: Option<u64>,
    pub message: ByteStr,
}

/// What changes of an invocation.
#[derive(Debug, Drop)]
pub struct Progress {
    /// The object while the invocation is open, so that an object's open invocation is found by it.
    pub open_object: Option<ByteStr>,
    /// The payload of the suspension that its last attempt ended with.
    pub suspension: Option<Bytes>,
    /// The place before which all was handed to the attempt that suspended or ended.
    pub handed: Option<u32>,
    pub closing: Option<Closing>,
    /// The value that was put out last.
    pub answer: Option<Bytes>,
    pub last_error: Option<LastError>,
    /// How many attempts were begun.
    pub attempts: u32,
    /// How many of them since the last entry was recorded.
    pub attempts_since_entry: u32,
    /// When the first of these was begun, in milliseconds.
    pub first_moment: u64,
    /// The greatest completion id that a request has.
    pub last_completion: u32,
    /// How many entries there are, which is the next one's place.
    pub entries: u32,
    /// How many of the arrivals were handed whole to the attempt that suspended or ended.
    pub heard: Option<u32>,
    /// How many of the entries are arrivals.
    pub arrivals: u32,
    /// Whether an attempt of it may go on.
    pub is_awake: bool,
}

#[derive(Debug, Drop)]
pub struct InvocationRow {
    pub id: ByteStr,
    pub object: ByteStr,
    /// The version of the protocol that its attempts speak.
    pub version: Version,
    pub seed: u64,
    /// Whether an attempt is handed the object's whole state at its start, or none of it.
    pub is_whole: bool,
    pub progress: Progress,
}

/// The id of an invocation, read without the rest of its row.
#[derive(Debug, Drop)]
pub struct IdRow {
    pub id: ByteStr,
}

/// A request or an arrival in the journal of an invocation.
#[derive(Debug, Drop)]
pub struct EntryRow {
    pub invocation: ByteStr,
    pub place: u32,
    /// The type of its frame.
    pub kind: MessageType,
    pub payload: Bytes,
    /// The completion ids that a request asks for.
    pub completion: Option<u32>,
    pub second_completion: Option<u32>,
    /// The completion id that an arrival answers.
    pub answered: Option<u32>,
    /// Which of its invocation's arrivals it is, the first one by 1.
    pub arrival: Option<u32>,
    /// When a sleep ends, in milliseconds.
    pub moment: u64,
}

/// A value in the state of an object.
#[derive(Debug, Drop)]
pub struct StateRow {
    pub object: ByteStr,
    pub key: Bytes,
    pub value: Bytes,
}

/// A sleep that may still be ended, of an open invocation.
#[derive(Debug, Drop)]
pub struct SleepRow {
    /// When it ends, in milliseconds.
    pub moment: u64,
    pub invocation: ByteStr,
    /// The completion id that its end answers.
    pub completion: u32,
}

/// One change of the records.
#[derive(Debug, Drop)]
pub enum Write {
    AddInvocation(InvocationRow),
    SetProgress { id: ByteStr, progress: Progress },
    AddEntry(EntryRow),
    /// The value takes the place of the one that the key had.
    PutState(StateRow),
    DropState { object: ByteStr, key: Bytes },
    DropStates { object: ByteStr },
    OpenSleep(SleepRow),
    /// All sleeps of an invocation.
    CloseSleeps { invocation: ByteStr },
    /// All sleeps that end at a moment or before it.
    CloseSleepsUntil { moment: u64 },
    /// The row of an invocation.
    DropInvocation { id: ByteStr },
    /// All entries of an invocation, its input's too.
    DropEntries { invocation: ByteStr },
}

/// The row by which a database is a store's.
#[derive(Debug, Drop)]
pub struct Mark {
    pub name: ByteStr,
    pub version: u32,
}
