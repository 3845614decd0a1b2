//! Why calls of the store are refused, and what is made ready of an event before it is written.
#![tactic(auto)]

mod refusal;

pub use journal_model::Cause;
pub use refusal::Refusal;
