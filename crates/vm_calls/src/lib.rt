//! How the commands of calls are made.
//!
//! `put` is the one step of every command: it matches a call's request with the next recorded command, or writes it. `Active` is
//! what an attempt keeps while calls are made of it; the calls are its methods, and each says that it does what the attempt
//! without bytes does. The steps that they share are public, for the calls that crates above have.
#![tactic(auto)]

mod active;
mod call_error;
mod effects;
mod handles;
mod options;
mod promises;
mod put_error;
mod putting;
mod sleeping;
mod state_writes;
mod telling;

pub use active::{Active, handle_for};
pub use call_error::{CallError, NumberError};
pub use options::{ignores, or_empty};
pub use put_error::PutError;
pub use putting::put;
pub use telling::cancel_command;
pub use vm_awaits::Children;
pub use vm_commands::{Command, ReplayError};
