//! The runs of an attempt whose outcomes were not proposed, and outcomes that wait for their acknowledgement.
pub use vm_runs::{Run, RunState};
