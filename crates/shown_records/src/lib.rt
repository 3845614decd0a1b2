//! What is recorded of an invocation, and the state of an object, as lines show them: those of a script, and of a store that is a process.
#![tactic(auto)]

mod entry;
mod invocation;
mod state;

pub use entry::{ShownEntry, read_entries};
pub use invocation::ShownInvocation;
pub use state::ShownStates;
