// An attempt that is live.
use crate::input::AttemptInput;
use protocol_stream::{FrameBuffer, Version};
use store_tables::InvocationRow;

/// The attempt that an invocation's frames are taken from: the last one that was begun, until it is over.
#[derive(Debug, Drop)]
pub struct LiveAttempt {
    /// Counts the invocation's attempts from 1.
    pub number: u32,
    /// The version of the protocol that the attempt speaks.
    pub version: Version,
    pub input: AttemptInput,
    pub is_input_closed: bool,
    /// What the attempt wrote and was not taken.
    pub output: FrameBuffer,
    /// The row of its invocation, as it is recorded now.
    pub row: InvocationRow,
}
