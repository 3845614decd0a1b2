//! Why a call is refused before anything is looked at, by the version of the protocol and its arguments alone: the first refusal
//! of each call, its code and its text.
//!
//! Beside these stand plain types of runs: what a host is answered of a run, what it tells of one, and what becomes of a run that has
//! failed: it is tried again after an interval, fails for good, or pauses its invocation.
#![tactic(auto)]

mod ending;
mod intervals;
mod refusal;
mod refusal_error;
mod retries;
mod retrying;
mod runs;
mod tests_of_calls;

pub use ending::{BodyEnd, end_of_body, feature_lacked};
pub use refusal::CallRefusal;
pub use refusal_error::RefusalError;
pub use retries::{EntryRetryInfo, Factor, NextRetry, OnMaxAttempts, RetryPolicy};
pub use retrying::{failed_again, inherited, next_retry, should_pause_on_max_attempts};
pub use runs::{RunExitResult, RunHandle};
pub use tests_of_calls::{
    refuse_attach, refuse_await, refuse_moment, refuse_target, refuse_value, to_millis,
};
