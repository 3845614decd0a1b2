//! What becomes of a run that has failed.
pub use vm_refusals::{next_retry, should_pause_on_max_attempts};
