// The machine, closed.
ghost use Rattle.std.specs.Prelude.{◌≡◌, ◌-ℤ◌, pos, IfOk, IfErr, option_copied};
ghost use Rattle.journal_model.specs.Future.{tree_of};
ghost use Rattle.journal_model.specs.declared.call.Call.{Call};
ghost use Rattle.vm_feeding.specs.NewMachine.{BeginsMachine, head_of};
ghost use Rattle.vm_feeding.specs.InputAnswer.{IsInputRead};
ghost use Rattle.vm_feeding.specs.EphemeralStateReads.{IsGot, IsReadTaken};
ghost use Rattle.vm_start.specs.FailureReport.{out_of_memory};
ghost use Rattle.vm_start.specs.Phases.{kept_error};
ghost use Rattle.vm_feeding.specs.MachineQueries.{state_of_phase, TellsReady, TakesOutput};
ghost use Rattle.vm_feeding.specs.EndOfInput.{ClosesInput};
ghost use Rattle.vm_feeding.specs.InputBytes.{IsFed};
ghost use Rattle.vm_feeding.specs.HostErrors.{IsErrorTold};
ghost use Rattle.vm_feeding.specs.Handles.{started_id, IsNamed, LooksAtHandle};
ghost use Rattle.vm_progress.specs.AwaitEffects.{DoesAwait};
ghost use Rattle.vm_progress.specs.EndEffects.{EndsAs};
ghost use Rattle.vm_proposals.specs.RunCallEffects.{CallsRun};
ghost use Rattle.vm_proposals.specs.ProposalEffects.{ProposesRun};
ghost use Rattle.vm_outcomes.specs.Runs.{BodiesAreKept};
ghost use Rattle.vm_core.specs.MadeMachine.{state_made};
ghost use Rattle.vm_start.specs.Negotiation.{content_type};
ghost use Rattle.vm_core.specs.Calls.{SysStateGet, SysStateGetKeys, SysStateSet, SysStateClear, SysStateClearAll, SysSleep, SysCall, SysSend, SysAwakeable, SysCompleteAwakeable, CreateSignalHandle, SysCompleteSignal, SysGetPromise, SysPeekPromise, SysCompletePromise, SysCancelInvocation, SysAttachInvocation, SysGetInvocationOutput, TakeNotification, SysWriteOutput};

use crate::{VM, VMResult};
use bytes::{ByteStr, Bytes};
use journal_model::{
    AttachInvocationTarget, Input, Moment, NonEmptyValue, NotificationHandle, PayloadOptions,
    Target, UnresolvedFuture, Value,
};
use protocol_differences::CommandRelationship;
use protocol_errors::Error;
use protocol_stream::HeaderMap;
use std::alloc::{AllocError, Global};
use std::fmt;
use vm_feeding::begin;
use vm_refusals::{RetryPolicy, RunExitResult, RunHandle};
use vm_start::Phase;
use vm_syscalls::MachineState;
use vm_types::{
    AwaitResponse, AwakeableHandle, CallHandle, EphemeralCompletionId, ResponseHead, SendHandle,
    State, VMOptions,
};

/// The machine of an invocation's attempt.
///
/// Its contracts see all that it keeps, a `vm_machine::MachineState`, which nothing but its calls changes.
#[derive(Drop)]
pub struct CoreVM {
    state: MachineState,
}

impl CoreVM {
    /// What it has failed with, if it has: each call is answered that from then on.
    pub fn failure(&self) -> Option<&Error>
        ensures { option_copied result ≡ kept_error self.now.state.phase }
    {
        match &self.state.phase {
            Phase::Failed(error) => Some(error),
            _ => None,
        }
    }
}

// How far a machine has come, as it is shown.
fn phase_shown(phase: &Phase, is_replaying: bool) -> &'static str {
    match phase {
        Phase::WaitingStart => "WaitingStart",
        Phase::WaitingReplayEntries { .. } => "WaitingReplayEntries",
        Phase::Active if is_replaying => "Replaying",
        Phase::Active => "Processing",
        Phase::Closed => "Closed",
        Phase::Failed(_) => "Errored",
    }
}

/// Prints the version, the invocation once its start has come, how far the machine has come, and the index of its last command.
impl fmt::Debug for CoreVM {
    fn fmt<W: fmt::Write>(&self, f: &mut fmt::Formatter<W>) -> fmt::Result {
        let state = &self.state;
        let mut shown = f.debug_struct("CoreVM");
        shown.field("version", &state.version);
        if let Some(start) = &state.start {
            shown.field("invocation_id", &start.debug_id);
        }
        let phase = phase_shown(&state.phase, state.active.is_replaying);
        shown
            .field("last_transition", &phase)
            .field("command_index", &state.active.journal.command_index())
            .finish()
    }
}

impl VM for CoreVM {
    fn new<H: HeaderMap>(alloc: Global, request_headers: &H, options: VMOptions) -> VMResult<Self>
    where
        H::Error: Drop,
        ensures { BeginsMachine H.Error (H.fails request_headers.now content_type) (H.text_of request_headers.now content_type) options (state_made result) }
    {
        match begin(alloc, request_headers, options) {
            Ok(state) => Ok(CoreVM { state }),
            Err(error) => Err(error),
        }
    }

    fn get_response_head(&self) -> VMResult<ResponseHead>
        ensures head { IfOk result (λ head. head ≡ head_of self.now.state.version) }
        ensures memory { IfErr result (λ error. error ≡ out_of_memory) }
    {
        vm_feeding::get_response_head(&self.state)
    }

    fn notify_input(&mut self, buffer: Bytes)
        ensures { IsFed buffer self.old.state self.new.state }
    {
        vm_feeding::notify_input(&mut self.state, buffer);
    }

    fn notify_input_closed(&mut self)
        ensures { ClosesInput self.old.state self.new.state }
    {
        vm_feeding::notify_input_closed(&mut self.state);
    }

    fn notify_error(&mut self, error: Error, relationship: Option<CommandRelationship>)
        ensures { IsErrorTold error relationship self.old.state self.new.state }
    {
        vm_feeding::notify_error(&mut self.state, error, relationship);
    }

    fn take_output(&mut self) -> Result<Bytes, AllocError>
        ensures { TakesOutput self.old.state result self.new.state }
    {
        vm_feeding::take_output(&mut self.state)
    }

    fn is_ready_to_execute(&self) -> VMResult<bool>
        ensures { TellsReady self.now.state.phase result }
    {
        vm_feeding::is_ready_to_execute(&self.state)
    }

    fn is_completed(&self, handle: NotificationHandle) -> bool
        ensures { LooksAtHandle self.now.state.phase self.now.state.active handle result }
    {
        vm_feeding::is_completed(&self.state, handle)
    }

    fn do_await(&mut self, future: UnresolvedFuture) -> VMResult<AwaitResponse>
        ensures { DoesAwait (tree_of future) self.old.state result self.new.state }
    {
        vm_progress::do_await(&mut self.state, future)
    }

    fn take_notification(&mut self, handle: NotificationHandle) -> VMResult<Option<Value>>
        ensures { TakeNotification handle self.old.state result self.new.state }
    {
        vm_feeding::take_notification(&mut self.state, handle)
    }

    fn sys_input(&mut self) -> VMResult<Input>
        ensures { IsInputRead self.old.state result self.new.state }
    {
        vm_feeding::sys_input(&mut self.state)
    }

    fn sys_state_get(
        &mut self,
        key: ByteStr,
        name: Option<ByteStr>,
        options: PayloadOptions,
    ) -> VMResult<NotificationHandle>
        ensures { SysStateGet key name options self.old.state result self.new.state }
    {
        vm_progress::sys_state_get(&mut self.state, key, name, options)
    }

    fn sys_state_get_keys(&mut self, name: Option<ByteStr>) -> VMResult<NotificationHandle>
        ensures { SysStateGetKeys name self.old.state result self.new.state }
    {
        vm_progress::sys_state_get_keys(&mut self.state, name)
    }

    fn ephemeral_state_get(&mut self, key: ByteStr) -> VMResult<EphemeralCompletionId>
        ensures { IsGot key self.old.state result self.new.state }
    {
        vm_feeding::ephemeral_state_get(&mut self.state, key)
    }

    fn take_ephemeral_notification(&mut self, id: EphemeralCompletionId) -> VMResult<Option<Value>>
        ensures { IsReadTaken id self.old.state result self.new.state }
    {
        vm_feeding::take_ephemeral_notification(&mut self.state, id)
    }

    fn sys_state_set(
        &mut self,
        key: ByteStr,
        value: Bytes,
        name: Option<ByteStr>,
        options: PayloadOptions,
    ) -> VMResult<()>
        ensures { SysStateSet key value name options self.old.state result self.new.state }
    {
        vm_syscalls::sys_state_set(&mut self.state, key, value, name, options)
    }

    fn sys_state_clear(&mut self, key: ByteStr, name: Option<ByteStr>) -> VMResult<()>
        ensures { SysStateClear key name self.old.state result self.new.state }
    {
        vm_syscalls::sys_state_clear(&mut self.state, key, name)
    }

    fn sys_state_clear_all(&mut self, name: Option<ByteStr>) -> VMResult<()>
        ensures { SysStateClearAll name self.old.state result self.new.state }
    {
        vm_syscalls::sys_state_clear_all(&mut self.state, name)
    }

    fn sys_sleep(
        &mut self,
        name: ByteStr,
        wake_up: Moment,
        now: Option<Moment>,
    ) -> VMResult<NotificationHandle>
        ensures { SysSleep name wake_up now self.old.state result self.new.state }
    {
        self.state.sys_sleep(name, wake_up, now)
    }

    fn sys_call(
        &mut self,
        target: Target,
        parameter: Bytes,
        name: Option<ByteStr>,
        options: PayloadOptions,
    ) -> VMResult<CallHandle>
        ensures { SysCall target parameter name options self.old.state result self.new.state }
    {
        vm_syscalls::sys_call(&mut self.state, target, parameter, name, options)
    }

    fn sys_send(
        &mut self,
        target: Target,
        parameter: Bytes,
        execution_time: Option<Moment>,
        name: Option<ByteStr>,
        options: PayloadOptions,
    ) -> VMResult<SendHandle>
        ensures { SysSend target parameter execution_time name options self.old.state result self.new.state }
    {
        vm_syscalls::sys_send(
            &mut self.state,
            target,
            parameter,
            execution_time,
            name,
            options,
        )
    }

    fn sys_awakeable(&mut self) -> VMResult<AwakeableHandle>
        ensures text { IsNamed (started_id self.old.state.start) self.old.state.active result }
        ensures steps { SysAwakeable self.old.state result self.new.state }
    {
        vm_feeding::sys_awakeable(&mut self.state)
    }

    fn sys_complete_awakeable(
        &mut self,
        id: ByteStr,
        value: NonEmptyValue,
        options: PayloadOptions,
    ) -> VMResult<()>
        ensures { SysCompleteAwakeable id value options self.old.state result self.new.state }
    {
        vm_syscalls::sys_complete_awakeable(&mut self.state, id, value, options)
    }

    fn create_signal_handle(&mut self, name: ByteStr) -> VMResult<NotificationHandle>
        ensures { CreateSignalHandle name self.old.state result self.new.state }
    {
        vm_feeding::create_signal_handle(&mut self.state, name)
    }

    fn sys_complete_signal(
        &mut self,
        target_id: ByteStr,
        name: ByteStr,
        value: NonEmptyValue,
    ) -> VMResult<()>
        ensures { SysCompleteSignal target_id name value self.old.state result self.new.state }
    {
        vm_syscalls::sys_complete_signal(&mut self.state, target_id, name, value)
    }

    fn sys_get_promise(&mut self, key: ByteStr) -> VMResult<NotificationHandle>
        ensures { SysGetPromise key self.old.state result self.new.state }
    {
        vm_syscalls::sys_get_promise(&mut self.state, key)
    }

    fn sys_peek_promise(&mut self, key: ByteStr) -> VMResult<NotificationHandle>
        ensures { SysPeekPromise key self.old.state result self.new.state }
    {
        vm_syscalls::sys_peek_promise(&mut self.state, key)
    }

    fn sys_complete_promise(
        &mut self,
        key: ByteStr,
        value: NonEmptyValue,
        options: PayloadOptions,
    ) -> VMResult<NotificationHandle>
        ensures { SysCompletePromise key value options self.old.state result self.new.state }
    {
        vm_syscalls::sys_complete_promise(&mut self.state, key, value, options)
    }

    fn sys_run(&mut self, name: ByteStr) -> VMResult<RunHandle>
        ensures calls { CallsRun name self.old.state result self.new.state }
        ensures bodies { BodiesAreKept (Call.Run name) self.old.state result self.new.state }
    {
        vm_proposals::sys_run(&mut self.state, name)
    }

    fn propose_run_completion(
        &mut self,
        handle: NotificationHandle,
        exit: RunExitResult,
        policy: RetryPolicy,
    ) -> VMResult<()>
        ensures { ProposesRun handle exit policy self.old.state result self.new.state }
    {
        vm_proposals::propose_run_completion(&mut self.state, handle, exit, policy)
    }

    fn sys_cancel_invocation(&mut self, target_id: ByteStr) -> VMResult<()>
        ensures { SysCancelInvocation target_id self.old.state result self.new.state }
    {
        vm_syscalls::sys_cancel_invocation(&mut self.state, target_id)
    }

    fn sys_attach_invocation(
        &mut self,
        target: AttachInvocationTarget,
    ) -> VMResult<NotificationHandle>
        ensures { SysAttachInvocation target self.old.state result self.new.state }
    {
        vm_syscalls::sys_attach_invocation(&mut self.state, target)
    }

    fn sys_get_invocation_output(
        &mut self,
        target: AttachInvocationTarget,
    ) -> VMResult<NotificationHandle>
        ensures { SysGetInvocationOutput target self.old.state result self.new.state }
    {
        vm_syscalls::sys_get_invocation_output(&mut self.state, target)
    }

    fn sys_write_output(&mut self, value: NonEmptyValue, options: PayloadOptions) -> VMResult<()>
        ensures { SysWriteOutput value options self.old.state result self.new.state }
    {
        vm_syscalls::sys_write_output(&mut self.state, value, options)
    }

    fn sys_end(&mut self) -> VMResult<()>
        ensures { EndsAs (kept_error self.old.state.phase) self.old.state result self.new.state }
    {
        vm_progress::sys_end(&mut self.state)
    }

    fn state(&self) -> State
        ensures { result ≡ state_of_phase self.now.state.phase self.now.state.active.is_replaying }
    {
        vm_feeding::state(&self.state)
    }

    fn last_command_index(&self) -> i64
        ensures { result ≡ pos self.now.state.active.journal.commands -ℤ pos 1 }
    {
        vm_feeding::last_command_index(&self.state)
    }
}
