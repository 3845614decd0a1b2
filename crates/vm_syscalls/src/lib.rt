//! The calls of a machine in any phase that put one command: each is admitted, made of the attempt, and answered; or the machine fails.
#![tactic(auto)]

mod attaching;
mod calling;
mod promises;
mod sending;
mod state;
mod telling;

pub use attaching::{sys_attach_invocation, sys_get_invocation_output};
pub use calling::sys_call;
pub use promises::{sys_complete_promise, sys_get_promise, sys_peek_promise};
pub use sending::sys_send;
pub use state::{sys_state_clear, sys_state_clear_all, sys_state_set};
pub use telling::{
    sys_cancel_invocation, sys_complete_awakeable, sys_complete_signal, sys_write_output,
};
pub use vm_machine::MachineState;
