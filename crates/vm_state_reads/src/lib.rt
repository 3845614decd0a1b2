//! What the reads of an object's state do to an attempt.
//!
//! Behind the journal a read whose answer is known is written with it, and its handle is completed at once; any other asks the
//! runtime. In replay the recorded read stands, with what was known of it. Each says that it does what the attempt without bytes
//! does.
#![tactic(auto)]

mod key_reads;
mod known;
mod read_error;
mod replaying;
mod telling;
mod value_reads;

pub use key_reads::{KeysReadError, state_get_keys};
pub use read_error::ReadError;
pub use value_reads::{ValueReadError, state_get};
