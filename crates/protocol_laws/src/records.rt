// The laws of each record.
ghost use Rattle.protocol_laws.specs.JoinsRecords.{void_joins, value_joins, failure_metadata_joins, failure_joins, header_joins, state_entry_joins, state_keys_joins, start_joins, suspension_v6_joins, end_joins, input_command_joins, output_command_joins, sleep_command_joins, suspension_joins, awaiting_on_joins, error_joins, propose_run_completion_ack_joins, propose_run_completion_joins, get_state_ephemeral_command_joins, get_state_ephemeral_notification_joins, notification_joins};
ghost use Rattle.protocol_laws.specs.Fits.{void_fits, value_fits, failure_metadata_fits, failure_fits, header_fits, state_entry_fits, state_keys_fits, start_fits, suspension_v6_fits, end_fits, input_command_fits, output_command_fits, sleep_command_fits, suspension_fits, awaiting_on_fits, get_lazy_state_command_fits, get_lazy_state_keys_command_fits, get_eager_state_command_fits, get_eager_state_keys_command_fits, set_state_command_fits, clear_state_command_fits, clear_all_state_command_fits, get_promise_command_fits, peek_promise_command_fits, complete_promise_command_fits, run_command_fits, workflow_target_fits, idempotent_request_target_fits, call_command_fits, one_way_call_command_fits, send_signal_command_fits, complete_awakeable_command_fits, attach_invocation_command_fits, get_invocation_output_command_fits, error_fits, propose_run_completion_ack_fits, propose_run_completion_fits, get_state_ephemeral_command_fits, get_state_ephemeral_notification_fits, notification_fits};
ghost use Rattle.protocol_laws.specs.JoinsFuture.{future_joins};
ghost use Rattle.protocol_laws.specs.FitsFuture.{future_fits};
ghost use Rattle.protocol_laws.specs.JoinsCommands.{get_lazy_state_command_joins, get_lazy_state_keys_command_joins, get_eager_state_command_joins, get_eager_state_keys_command_joins, set_state_command_joins, clear_state_command_joins, clear_all_state_command_joins, get_promise_command_joins, peek_promise_command_joins, complete_promise_command_joins, run_command_joins, workflow_target_joins, idempotent_request_target_joins, call_command_joins, one_way_call_command_joins, send_signal_command_joins, complete_awakeable_command_joins, attach_invocation_command_joins, get_invocation_output_command_joins};

use crate::{FitsRead, Joining};
use protocol_calls::{
    AttachInvocationCommandMessage, CallCommandMessage, CompleteAwakeableCommandMessage,
    GetInvocationOutputCommandMessage, IdempotentRequestTarget, OneWayCallCommandMessage,
    SendSignalCommandMessage, WorkflowTarget,
};
use protocol_commands::{
    ClearAllStateCommandMessage, ClearStateCommandMessage, CompletePromiseCommandMessage,
    GetEagerStateCommandMessage, GetEagerStateKeysCommandMessage, GetLazyStateCommandMessage,
    GetLazyStateKeysCommandMessage, GetPromiseCommandMessage, PeekPromiseCommandMessage,
    RunCommandMessage, SetStateCommandMessage,
};
use protocol_controls::{
    ErrorMessage, GetStateEphemeralCommandMessage, GetStateEphemeralNotificationMessage,
    NotificationMessage, ProposeRunCompletionAckMessage, ProposeRunCompletionMessage,
};
use protocol_records::{
    AwaitingOnMessage, EndMessage, Failure, FailureMetadata, Future, Header, InputCommandMessage,
    OutputCommandMessage, SleepCommandMessage, StartMessage, StateEntry, StateKeys,
    SuspensionMessage, SuspensionMessageV6, Value, Void,
};

impl Joining for Void {
    ghost joins = { void_joins };
}

impl FitsRead for Void {
    ghost fits_read = { λ levels a are_bytes fine. void_fits levels a fine };
}

impl Joining for Value {
    ghost joins = { value_joins };
}

impl FitsRead for Value {
    ghost fits_read = { λ levels a are_bytes fine. value_fits levels a fine };
}

impl Joining for FailureMetadata {
    ghost joins = { failure_metadata_joins };
}

impl FitsRead for FailureMetadata {
    ghost fits_read = { λ levels a are_bytes fine. failure_metadata_fits levels a fine };
}

impl Joining for Failure {
    ghost joins = { failure_joins };
}

impl FitsRead for Failure {
    ghost fits_read = { λ levels a are_bytes fine. failure_fits levels a fine };
}

impl Joining for Header {
    ghost joins = { header_joins };
}

impl FitsRead for Header {
    ghost fits_read = { λ levels a are_bytes fine. header_fits levels a fine };
}

impl Joining for StateEntry {
    ghost joins = { state_entry_joins };
}

impl FitsRead for StateEntry {
    ghost fits_read = { λ levels a are_bytes fine. state_entry_fits levels a fine };
}

impl Joining for StateKeys {
    ghost joins = { state_keys_joins };
}

impl FitsRead for StateKeys {
    ghost fits_read = { λ levels a are_bytes fine. state_keys_fits levels a fine };
}

impl Joining for StartMessage {
    ghost joins = { start_joins };
}

impl FitsRead for StartMessage {
    ghost fits_read = { start_fits };
}

impl Joining for SuspensionMessageV6 {
    ghost joins = { suspension_v6_joins };
}

impl FitsRead for SuspensionMessageV6 {
    ghost fits_read = { λ levels a are_bytes fine. suspension_v6_fits levels a fine };
}

impl Joining for EndMessage {
    ghost joins = { end_joins };
}

impl FitsRead for EndMessage {
    ghost fits_read = { λ levels a are_bytes fine. end_fits levels a fine };
}

impl Joining for Future {
    ghost joins = { future_joins };
}

impl FitsRead for Future {
    ghost fits_read = { λ levels a are_bytes fine. future_fits levels a fine };
}

impl Joining for InputCommandMessage {
    ghost joins = { input_command_joins };
}

impl FitsRead for InputCommandMessage {
    ghost fits_read = { λ levels a are_bytes fine. input_command_fits levels a fine };
}

impl Joining for OutputCommandMessage {
    ghost joins = { output_command_joins };
}

impl FitsRead for OutputCommandMessage {
    ghost fits_read = { λ levels a are_bytes fine. output_command_fits levels a fine };
}

impl Joining for SleepCommandMessage {
    ghost joins = { sleep_command_joins };
}

impl FitsRead for SleepCommandMessage {
    ghost fits_read = { sleep_command_fits };
}

impl Joining for SuspensionMessage {
    ghost joins = { suspension_joins };
}

impl FitsRead for SuspensionMessage {
    ghost fits_read = { λ levels a are_bytes fine. suspension_fits levels a fine };
}

impl Joining for AwaitingOnMessage {
    ghost joins = { awaiting_on_joins };
}

impl FitsRead for AwaitingOnMessage {
    ghost fits_read = { λ levels a are_bytes fine. awaiting_on_fits levels a fine };
}

impl Joining for GetLazyStateCommandMessage {
    ghost joins = { get_lazy_state_command_joins };
}

impl FitsRead for GetLazyStateCommandMessage {
    ghost fits_read = { λ levels a are_bytes fine. get_lazy_state_command_fits levels a fine };
}

impl Joining for GetLazyStateKeysCommandMessage {
    ghost joins = { get_lazy_state_keys_command_joins };
}

impl FitsRead for GetLazyStateKeysCommandMessage {
    ghost fits_read = { λ levels a are_bytes fine. get_lazy_state_keys_command_fits levels a fine };
}

impl Joining for GetEagerStateCommandMessage {
    ghost joins = { get_eager_state_command_joins };
}

impl FitsRead for GetEagerStateCommandMessage {
    ghost fits_read = { λ levels a are_bytes fine. get_eager_state_command_fits levels a fine };
}

impl Joining for GetEagerStateKeysCommandMessage {
    ghost joins = { get_eager_state_keys_command_joins };
}

impl FitsRead for GetEagerStateKeysCommandMessage {
    ghost fits_read = { λ levels a are_bytes fine. get_eager_state_keys_command_fits levels a fine };
}

impl Joining for SetStateCommandMessage {
    ghost joins = { set_state_command_joins };
}

impl FitsRead for SetStateCommandMessage {
    ghost fits_read = { λ levels a are_bytes fine. set_state_command_fits levels a fine };
}

impl Joining for ClearStateCommandMessage {
    ghost joins = { clear_state_command_joins };
}

impl FitsRead for ClearStateCommandMessage {
    ghost fits_read = { λ levels a are_bytes fine. clear_state_command_fits levels a fine };
}

impl Joining for ClearAllStateCommandMessage {
    ghost joins = { clear_all_state_command_joins };
}

impl FitsRead for ClearAllStateCommandMessage {
    ghost fits_read = { λ levels a are_bytes fine. clear_all_state_command_fits levels a fine };
}

impl Joining for GetPromiseCommandMessage {
    ghost joins = { get_promise_command_joins };
}

impl FitsRead for GetPromiseCommandMessage {
    ghost fits_read = { λ levels a are_bytes fine. get_promise_command_fits levels a fine };
}

impl Joining for PeekPromiseCommandMessage {
    ghost joins = { peek_promise_command_joins };
}

impl FitsRead for PeekPromiseCommandMessage {
    ghost fits_read = { λ levels a are_bytes fine. peek_promise_command_fits levels a fine };
}

impl Joining for CompletePromiseCommandMessage {
    ghost joins = { complete_promise_command_joins };
}

impl FitsRead for CompletePromiseCommandMessage {
    ghost fits_read = { λ levels a are_bytes fine. complete_promise_command_fits levels a fine };
}

impl Joining for RunCommandMessage {
    ghost joins = { run_command_joins };
}

impl FitsRead for RunCommandMessage {
    ghost fits_read = { λ levels a are_bytes fine. run_command_fits levels a fine };
}

impl Joining for WorkflowTarget {
    ghost joins = { workflow_target_joins };
}

impl FitsRead for WorkflowTarget {
    ghost fits_read = { λ levels a are_bytes fine. workflow_target_fits levels a fine };
}

impl Joining for IdempotentRequestTarget {
    ghost joins = { idempotent_request_target_joins };
}

impl FitsRead for IdempotentRequestTarget {
    ghost fits_read = { λ levels a are_bytes fine. idempotent_request_target_fits levels a fine };
}

impl Joining for CallCommandMessage {
    ghost joins = { call_command_joins };
}

impl FitsRead for CallCommandMessage {
    ghost fits_read = { λ levels a are_bytes fine. call_command_fits levels a fine };
}

impl Joining for OneWayCallCommandMessage {
    ghost joins = { one_way_call_command_joins };
}

impl FitsRead for OneWayCallCommandMessage {
    ghost fits_read = { one_way_call_command_fits };
}

impl Joining for SendSignalCommandMessage {
    ghost joins = { send_signal_command_joins };
}

impl FitsRead for SendSignalCommandMessage {
    ghost fits_read = { λ levels a are_bytes fine. send_signal_command_fits levels a fine };
}

impl Joining for CompleteAwakeableCommandMessage {
    ghost joins = { complete_awakeable_command_joins };
}

impl FitsRead for CompleteAwakeableCommandMessage {
    ghost fits_read = { λ levels a are_bytes fine. complete_awakeable_command_fits levels a fine };
}

impl Joining for AttachInvocationCommandMessage {
    ghost joins = { attach_invocation_command_joins };
}

impl FitsRead for AttachInvocationCommandMessage {
    ghost fits_read = { λ levels a are_bytes fine. attach_invocation_command_fits levels a fine };
}

impl Joining for GetInvocationOutputCommandMessage {
    ghost joins = { get_invocation_output_command_joins };
}

impl FitsRead for GetInvocationOutputCommandMessage {
    ghost fits_read = { λ levels a are_bytes fine. get_invocation_output_command_fits levels a fine };
}

impl Joining for ErrorMessage {
    ghost joins = { error_joins };
}

impl FitsRead for ErrorMessage {
    ghost fits_read = { error_fits };
}

impl Joining for ProposeRunCompletionAckMessage {
    ghost joins = { propose_run_completion_ack_joins };
}

impl FitsRead for ProposeRunCompletionAckMessage {
    ghost fits_read = { λ levels a are_bytes fine. propose_run_completion_ack_fits levels a fine };
}

impl Joining for ProposeRunCompletionMessage {
    ghost joins = { propose_run_completion_joins };
}

impl FitsRead for ProposeRunCompletionMessage {
    ghost fits_read = { λ levels a are_bytes fine. propose_run_completion_fits levels a fine };
}

impl Joining for GetStateEphemeralCommandMessage {
    ghost joins = { get_state_ephemeral_command_joins };
}

impl FitsRead for GetStateEphemeralCommandMessage {
    ghost fits_read = { λ levels a are_bytes fine. get_state_ephemeral_command_fits levels a fine };
}

impl Joining for GetStateEphemeralNotificationMessage {
    ghost joins = { get_state_ephemeral_notification_joins };
}

impl FitsRead for GetStateEphemeralNotificationMessage {
    ghost fits_read = { λ levels a are_bytes fine. get_state_ephemeral_notification_fits levels a fine };
}

impl Joining for NotificationMessage {
    ghost joins = { notification_joins };
}

impl FitsRead for NotificationMessage {
    ghost fits_read = { λ levels a are_bytes fine. notification_fits levels a fine };
}
