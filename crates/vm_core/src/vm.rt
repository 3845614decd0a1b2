// What a host asks of a machine.
use bytes::{ByteStr, Bytes};
use journal_model::{
    AttachInvocationTarget, Input, Moment, NonEmptyValue, NotificationHandle, PayloadOptions,
    Target, UnresolvedFuture, Value,
};
use protocol_differences::CommandRelationship;
use protocol_errors::Error;
use protocol_stream::HeaderMap;
use std::alloc::{AllocError, Global};
use vm_refusals::{RetryPolicy, RunExitResult, RunHandle};
use vm_types::{
    AwaitResponse, AwakeableHandle, CallHandle, EphemeralCompletionId, ResponseHead, SendHandle,
    State, VMOptions,
};

/// What a call answers, or what the machine has failed with.
pub type VMResult<T> = Result<T, Error>;

/// The machine of an invocation's attempt: it is told bytes and asked calls, and hands out bytes.
///
/// A machine that has failed answers its error to every call from then on, and has written it once.
pub trait VM: Sized {
    /// A machine for a request with these headers: its content type says which version of the protocol is spoken.
    fn new<H: HeaderMap>(alloc: Global, request_headers: &H, options: VMOptions) -> VMResult<Self>
    where
        H::Error: Drop;

    /// How the response begins.
    fn get_response_head(&self) -> VMResult<ResponseHead>;

    /// Bytes have come. What is not a whole message yet is kept.
    fn notify_input(&mut self, buffer: Bytes);

    /// No more bytes come.
    fn notify_input_closed(&mut self);

    /// The host has failed; the error may be about a command.
    fn notify_error(&mut self, error: Error, relationship: Option<CommandRelationship>);

    /// Hands out all bytes that were written and not handed out.
    fn take_output(&mut self) -> Result<Bytes, AllocError>;

    /// Whether the start and all entries have come that it announces, so that calls can be made.
    fn is_ready_to_execute(&self) -> VMResult<bool>;

    /// Whether something that the handle stands for has come and was looked at.
    fn is_completed(&self, handle: NotificationHandle) -> bool;

    /// Waits for a future: whether it is awake, and else which run's body is to be executed first, or what is to be waited for outside.
    fn do_await(&mut self, future: UnresolvedFuture) -> VMResult<AwaitResponse>;

    /// Takes what has come of a handle, if anything has.
    fn take_notification(&mut self, handle: NotificationHandle) -> VMResult<Option<Value>>;

    /// Reads the input, which comes before all other calls.
    fn sys_input(&mut self) -> VMResult<Input>;

    /// Reads a key of the object's state: the handle's notification brings the value, or that there is none.
    fn sys_state_get(
        &mut self,
        key: ByteStr,
        name: Option<ByteStr>,
        options: PayloadOptions,
    ) -> VMResult<NotificationHandle>;

    /// Reads the keys of the object's state.
    fn sys_state_get_keys(&mut self, name: Option<ByteStr>) -> VMResult<NotificationHandle>;

    /// Reads a key of the object's state, and records nothing of it.
    fn ephemeral_state_get(&mut self, key: ByteStr) -> VMResult<EphemeralCompletionId>;

    /// Takes the answer of a read of which nothing is recorded, if it has come.
    fn take_ephemeral_notification(&mut self, id: EphemeralCompletionId) -> VMResult<Option<Value>>;

    /// Sets a key of the state.
    fn sys_state_set(
        &mut self,
        key: ByteStr,
        value: Bytes,
        name: Option<ByteStr>,
        options: PayloadOptions,
    ) -> VMResult<()>;

    /// Clears a key of the state.
    fn sys_state_clear(&mut self, key: ByteStr, name: Option<ByteStr>) -> VMResult<()>;

    /// Clears the state.
    fn sys_state_clear_all(&mut self, name: Option<ByteStr>) -> VMResult<()>;

    /// Sleeps until a moment: the handle's notification comes then. What the host holds for now is not looked at.
    fn sys_sleep(
        &mut self,
        name: ByteStr,
        wake_up: Moment,
        now: Option<Moment>,
    ) -> VMResult<NotificationHandle>;

    /// Calls another handler: of the two notifications the first tells the invocation's id, the second brings its answer.
    fn sys_call(
        &mut self,
        target: Target,
        parameter: Bytes,
        name: Option<ByteStr>,
        options: PayloadOptions,
    ) -> VMResult<CallHandle>;

    /// Calls a handler without waiting for its answer, at once or at a moment: the handle's notification tells the invocation's id.
    fn sys_send(
        &mut self,
        target: Target,
        parameter: Bytes,
        execution_time: Option<Moment>,
        name: Option<ByteStr>,
        options: PayloadOptions,
    ) -> VMResult<SendHandle>;

    /// A signal that the outside completes by the text that names it.
    fn sys_awakeable(&mut self) -> VMResult<AwakeableHandle>;

    /// Completes the awakeable of this text.
    fn sys_complete_awakeable(
        &mut self,
        id: ByteStr,
        value: NonEmptyValue,
        options: PayloadOptions,
    ) -> VMResult<()>;

    /// The handle of a signal of this name.
    fn create_signal_handle(&mut self, name: ByteStr) -> VMResult<NotificationHandle>;

    /// Sends a signal of a name to another invocation.
    fn sys_complete_signal(
        &mut self,
        target_id: ByteStr,
        name: ByteStr,
        value: NonEmptyValue,
    ) -> VMResult<()>;

    /// Waits for a promise: the handle's notification brings its value.
    fn sys_get_promise(&mut self, key: ByteStr) -> VMResult<NotificationHandle>;

    /// Looks whether a promise is completed: the handle's notification says so, and with what.
    fn sys_peek_promise(&mut self, key: ByteStr) -> VMResult<NotificationHandle>;

    /// Completes a promise: the handle's notification says whether that was done.
    fn sys_complete_promise(
        &mut self,
        key: ByteStr,
        value: NonEmptyValue,
        options: PayloadOptions,
    ) -> VMResult<NotificationHandle>;

    /// Calls a run: the handle's notification brings its outcome. Where that is not known yet, an await says when its body is to be executed.
    fn sys_run(&mut self, name: ByteStr) -> VMResult<RunHandle>;

    /// An attempt at the body of a run has ended so: the policy says whether that is proposed as its outcome, or the machine fails, upon
    /// which the run is tried again or the invocation pauses.
    fn propose_run_completion(
        &mut self,
        handle: NotificationHandle,
        exit: RunExitResult,
        policy: RetryPolicy,
    ) -> VMResult<()>;

    /// Cancels another invocation.
    fn sys_cancel_invocation(&mut self, target_id: ByteStr) -> VMResult<()>;

    /// Waits for the answer of another invocation: the handle's notification brings it.
    fn sys_attach_invocation(
        &mut self,
        target: AttachInvocationTarget,
    ) -> VMResult<NotificationHandle>;

    /// Looks whether another invocation has answered: the handle's notification says so, and with what.
    fn sys_get_invocation_output(
        &mut self,
        target: AttachInvocationTarget,
    ) -> VMResult<NotificationHandle>;

    /// Puts out the result of the invocation.
    fn sys_write_output(&mut self, value: NonEmptyValue, options: PayloadOptions) -> VMResult<()>;

    /// Ends the invocation.
    fn sys_end(&mut self) -> VMResult<()>;

    /// How far the attempt has come.
    fn state(&self) -> State;

    /// The index of the command that was asked for last, and -1 before the first.
    fn last_command_index(&self) -> i64;
}
