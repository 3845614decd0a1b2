//! An attempt: a handler at work on one invocation, over the machine that reads its input and carries its calls out.
//!
//! No contract sees that memory was refused with reason, so a turn that always answers so, and a `take_output` that always fails, meet theirs
//! and are refused by tests alone. Nor does one say that bytes are shared and not copied.
#![tactic(auto)]

mod attempt;
mod header;
mod output;
mod run_outcome;
mod turn;
mod typed;

pub use attempt::Attempt;
pub use run_outcome::RunOutcome;
pub use turn::{Finish, Step, Turn, turn_again};
pub use vm_core::{CoreVM, VM, VMResult};
pub use vm_refusals::{RetryPolicy, RunExitResult};
