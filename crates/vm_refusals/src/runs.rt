//! A run, and how an attempt at its body ends.
use bytes::Bytes;
use journal_model::{NotificationHandle, TerminalFailure};
use protocol_errors::Error;
use std::time::Duration;

/// The notification of a run: its outcome.
#[derive(Debug, Clone, Copy, PartialEq, Eq)]
pub struct RunHandle {
    /// Whether the outcome is among what was recorded: then the body is not executed.
    pub replayed: bool,
    pub handle: NotificationHandle,
}

/// How an attempt at the body of a run ended.
#[derive(Debug, Clone, Drop)]
pub enum RunExitResult {
    /// With this value, which is the outcome.
    Success(Bytes),
    /// With an error that is not tried again: it is the outcome.
    TerminalFailure(TerminalFailure),
    /// With an error of which the run's policy says whether the body is executed again.
    RetryableFailure {
        /// How long the attempt took, to the nanosecond.
        attempt_duration: Duration,
        error: Error,
    },
}
