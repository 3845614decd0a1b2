//! A run.
use bytes::ByteStr;

/// A run whose outcome was not proposed.
#[derive(Debug, Drop)]
pub struct Run {
    /// The completion by which its outcome comes.
    pub completion: u32,
    /// The place of its command in the journal.
    pub command_index: u32,
    pub command_name: ByteStr,
    /// Whether its body was handed out, so that it is being executed.
    pub is_executing: bool,
}
