//! An attempt that is to be begun.

use bytes::Bytes;
use protocol_stream::Version;
use store_tables::{InvocationRow, Write};

/// An attempt that can be begun: it is, once this is written.
#[derive(Debug, Drop)]
pub struct PreparedAttempt {
    pub writes: Vec<Write>,
    /// Counts the invocation's attempts from 1.
    pub number: u32,
    /// The version of the protocol that the attempt speaks.
    pub version: Version,
    /// The start frame.
    pub start: Bytes,
    /// How many frames follow it that are recorded already, the input's first, and how many arrivals are among them.
    pub known: u32,
    pub arrivals: u32,
    /// The row of the invocation, as it is before the writes.
    pub row: InvocationRow,
}
