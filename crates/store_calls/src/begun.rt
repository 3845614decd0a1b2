// An attempt that was begun.
use bytes::Bytes;
use protocol_stream::Version;

/// An attempt that was begun, and what it is handed first.
#[derive(Debug, Drop)]
pub struct BegunAttempt {
    /// Counts the invocation's attempts from 1.
    pub number: u32,
    /// The version of the protocol that the attempt speaks.
    pub version: Version,
    /// The start frame.
    pub start: Bytes,
}
