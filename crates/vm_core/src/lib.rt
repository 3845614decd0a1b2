//! The machine of an invocation's attempt, as a host embeds it: bytes in, calls, bytes out.
//!
//! `VM` is the trait that a host calls, and `CoreVM` is what answers it. `carry_out` carries out one call of a handler by the
//! methods of the trait: it tells what the call is answered, or which run's body is to be executed first, or that the call waits, or that
//! the attempt is over. How a body has ended is told by `propose_run_completion`.
//!
//! No call of `CoreVM` requires anything. What a call does is said of each abstract machine that keeps what this one keeps, and `vm_core_laws`
//! says that there is one; of calls and sends it is said where they begin no child that a cancellation is passed on to. By `carry_out` a
//! mismatch is told with its code: of which types it is, and at which place, is said where the call is made. Want of memory is a cause that
//! no contract sees, so a body that always fails for it is refused by tests alone.
#![tactic(auto)]

mod awaits;
mod carrying;
mod core_vm;
mod handles;
mod invocations;
mod outside;
mod promises;
mod runs;
mod state;
mod vm;

pub use carrying::carry_out;
pub use core_vm::CoreVM;
pub use vm::{VM, VMResult};
pub use vm_outcomes::CallOutcome;
