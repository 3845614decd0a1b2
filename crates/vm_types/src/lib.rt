//! What a host of the machine hands over and is answered: its options, the handles of calls, in which state it is, and the texts that name
//! awakeables to the outside. Beside them the ephemeral reads of one attempt, of which nothing is recorded: which wait for their answer,
//! and whose answer can be taken.
#![tactic(auto)]

mod answers;
mod commands;
mod handles;
mod id;
mod options;

pub use answers::{AwaitResponse, ResponseHead, State};
pub use commands::{EphemeralCommands, RegisterError};
pub use handles::{AwakeableHandle, CallHandle, EphemeralCompletionId, SendHandle};
pub use id::awakeable_id;
pub use options::{
    AwaitingOnPolicy, JournalMismatchRetryBehavior, JournalReplay, NonDeterministicChecksOption,
    VMOptions,
};
