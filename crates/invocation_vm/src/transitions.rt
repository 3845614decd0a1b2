//! One function for each event of the state machine, over all that a machine keeps. A `CoreVM` is that state, closed.
pub use vm_feeding::{
    begin, create_signal_handle, ephemeral_state_get, get_response_head, is_completed,
    is_ready_to_execute, last_command_index, notify_error, notify_input, notify_input_closed,
    state, sys_awakeable, sys_input, take_ephemeral_notification, take_notification, take_output,
};
pub use vm_machine::MachineState;
pub use vm_progress::{do_await, sys_end, sys_state_get, sys_state_get_keys};
pub use vm_proposals::{propose_run_completion, sys_run};
pub use vm_start::Phase;
pub use vm_syscalls::{
    sys_attach_invocation, sys_call, sys_cancel_invocation, sys_complete_awakeable,
    sys_complete_promise, sys_complete_signal, sys_get_invocation_output, sys_get_promise,
    sys_peek_promise, sys_send, sys_state_clear, sys_state_clear_all, sys_state_set,
    sys_write_output,
};
