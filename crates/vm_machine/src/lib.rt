//! All that a machine keeps of an invocation's attempt (`MachineState`), what comes in, and what it fails with.
//!
//! What comes in is the start of the attempt, the entries that were recorded before it, and what comes while it goes on. What the
//! machine fails with is the error of what came up; where memory was refused that alone is told, and no frame is written. `admit`
//! stands before a call in any phase and `settle` behind one that puts a command, for the calls that crates above have.
#![tactic(auto)]

mod about;
mod admitting;
mod answers;
mod calls;
mod causing;
mod entries;
mod entry_error;
mod failing;
mod incoming;
mod input;
mod laws;
mod machine_state;
mod receiving;
mod settling;
mod sleeping;
mod starting;

pub use about::{about_last, about_nothing};
pub use admitting::{Admission, missed_cause, refusal_error};
pub use answers::{receive_ephemeral_answer, receive_run_acknowledgement};
pub use calls::{call_cause, child_not_id, input_cause, number_cause};
pub use causing::entry_cause;
pub use entries::{receive_command, receive_notification};
pub use entry_error::EntryError;
pub use incoming::{Incoming, kind_of};
pub use input::{InputError, read_input};
pub use laws::{calls_follow_the_input, entries_are_gathered, starts_begin_attempts};
pub use machine_state::MachineState;
pub use sleeping::checks_off;
pub use starting::{fresh_active, receive_start};
pub use vm_calls::{Active, CallError, Command, NumberError, PutError, ReplayError};
pub use vm_start::{IdsExhausted, Journal, Phase, StartError, again, fail, unexpected};
