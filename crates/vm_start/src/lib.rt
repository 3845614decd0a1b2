//! What stands before the handler's first call, and what a machine fails with.
//!
//! `negotiate` tells the version that a request is in, and `read_start` what a start tells of its attempt. `Phase` is how far a
//! machine has come. `fail` says of a machine that fails what is kept of the error and what is answered, and writes the frame that
//! tells it.
#![tactic(auto)]

mod error;
mod failing;
mod failure;
mod negotiation;
mod phase;
mod start;

pub use error::StartError;
pub use failing::{again, fail, or_out_of_memory, out_of_memory};
pub use failure::{error_message, fail_with};
pub use negotiation::{NegotiationError, negotiate, response_head};
pub use phase::{Phase, unexpected};
pub use start::{Started, read_start};
pub use vm_context::{EagerState, IdsExhausted, Journal, Output};
