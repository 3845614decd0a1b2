//! What recorded commands ask, when one of them is the command that a call makes, and taking the next one.
//!
//! A frame of a journal is a request where its payload can be read and has what each request of its kind has. `Command` is what
//! the records of all commands that calls make have in common. A read of an object's state is taken as it is recorded, by
//! `pop_state_read`.
#![tactic(auto)]

mod command;
mod commands;
mod eager_read;
pub mod laws;
mod pop;
mod replay_error;
mod state_read;
mod told_mismatch;

pub use command::Command;
pub use eager_read::EagerRead;
pub use pop::pop_journal_entry;
pub use protocol_differences::CommandMessageHeaderDiff;
pub use protocol_messages::{to_awakeable_result, to_promise_completion, to_signal_result};
pub use replay_error::ReplayError;
pub use state_read::{StateRead, StateReadError, pop_state_read};
pub use told_mismatch::ToldMismatch;
