//! The items of the specification that `invocation_vm` passes on, each under its own name: what a host embeds, handlers, what they
//! call and are answered, and attempts. What stands here names them and calls none: where this crate is checked, they are there.
pub use invocation_vm::async_results::{Notification, NotificationId, NotificationResult};
pub use invocation_vm::retries::next_retry;
pub use invocation_vm::{
    Answer, AttachInvocationTarget, Attempt, AwaitResponse, AwaitedFuture, AwaitingOnPolicy,
    AwakeableHandle, CANCEL_NOTIFICATION_HANDLE, Call, CallHandle, CommandMetadata,
    CommandRelationship, CommandType, CoreVM, EntryRetryInfo, EphemeralCompletionId, Factor,
    Handler, ImplicitCancellationOption, Input, JournalMismatchRetryBehavior, JournalReplay,
    Moment, NextRetry, NonDeterministicChecksOption, NotificationHandle, OnMaxAttempts,
    PayloadOptions, ResponseHead, RetryPolicy, RunExitResult, RunHandle, RunOutcome, SendHandle,
    SignalDelivery, State, Target, Turn, UnresolvedFuture, VM, VMOptions, VMResult, async_results,
    context, ephemeral, run_state, transitions,
};
use test_rows::named;

/// What a host calls of a machine, what is called of its parts and of an attempt, and what handles and futures are made of.
pub fn name_items<H: Handler + Drop>() {
    named!(CoreVM as VM:
        get_response_head notify_input notify_input_closed notify_error take_output
        is_ready_to_execute sys_input sys_write_output sys_end state last_command_index
        is_completed do_await take_notification sys_sleep sys_awakeable sys_complete_awakeable
        create_signal_handle sys_complete_signal sys_get_promise sys_peek_promise
        sys_complete_promise sys_state_get sys_state_get_keys sys_state_set sys_state_clear
        sys_state_clear_all ephemeral_state_get take_ephemeral_notification sys_call sys_send
        sys_cancel_invocation sys_attach_invocation sys_get_invocation_output sys_run
        propose_run_completion
    );
    named!(RetryPolicy: fixed_delay exponential);
    named!(Factor: new);
    named!(async_results::AsyncResultsState:
        enqueue create_handle_mapping try_resolve_future is_handle_completed take_handle
        copy_handle resolve_unresolved_future
    );
    named!(run_state::RunState:
        insert_run_to_execute try_execute_run get_run_info any_executing_in_this_set any_executing
        notify_execution_completed
    );
    named!(async_results::FlatTree: new is_awake deliver left);
    named!(Attempt<H>: new feed close_input turn first_output advance_output take_output);
    named!(NotificationHandle as From<u32>: from);
    named!(u32 as From<NotificationHandle>: from);
    named!(UnresolvedFuture as From<NotificationHandle>: from);
    named!(EphemeralCompletionId as From<u32>: from);
    named!(u32 as From<EphemeralCompletionId>: from);
}
