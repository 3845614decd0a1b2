// What is known of a live attempt, and what is made ready of its frame.
use store_tables::Write;

/// What only memory knows of a live attempt.
#[derive(Clone, Copy, Debug, PartialEq, Eq)]
pub struct LiveFacts {
    /// The place behind the last entry that it was handed whole, 0 where there is none.
    pub handed: u32,
    /// How many arrivals it was handed whole.
    pub heard: u32,
    pub is_input_closed: bool,
}

/// How a frame is answered that was accepted.
#[derive(Clone, Copy, Debug, PartialEq, Eq)]
pub enum FrameReply {
    /// The command, or the outcome, is recorded at this place.
    Recorded { place: u32 },
    /// Nothing is recorded of the frame.
    Noted,
    /// The attempt is over until what it waits for has come.
    Suspended,
    /// The attempt failed.
    Failed,
    /// The invocation is over.
    Ended,
}

/// What is written of an accepted frame, in one transaction, and its answer.
#[derive(Debug, Drop)]
pub struct PreparedFrame {
    pub writes: Vec<Write>,
    pub reply: FrameReply,
    /// The completion of a run whose outcome this is, where the attempt is told only that it came.
    pub acknowledged: Option<u32>,
}
