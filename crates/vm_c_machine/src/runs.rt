// Runs.
ghost use Rattle.std.specs.Prelude.{◌≡◌, IsUtf8, IsTrue};
ghost use Rattle.vm_proposals.specs.RunCallEffects.{CallsRun};
ghost use Rattle.vm_proposals.specs.ProposalEffects.{ProposesRun};
ghost use Rattle.vm_refusals.specs.declared.retries.RetryPolicy.{RetryPolicy};
ghost use Rattle.vm_refusals.specs.declared.runs.RunExitResult.{RunExitResult};
ghost use Rattle.vm_c_machine.specs.Calls.{DoesCall, ProposesRetry, Given};
ghost use Rattle.vm_c_values.specs.Options.{is_set};
ghost use Rattle.vm_c_values.specs.Records.{failure_in};
ghost use Rattle.vm_c_values.specs.Arguments.{AnyBytes, IsFailure, is_policy};

use crate::Machine;
use crate::feeding::as_number;
use bytes::Bytes;
use journal_model::NotificationHandle;
use protocol_errors::{Error, InvocationErrorCode};
use std::time::Duration;
use vm_c_values::{
    NotDone, Policy, Unread, copied_bytes, copied_text, retry_policy, terminal_failure,
};
use vm_core::VM;
use vm_refusals::{RetryPolicy, RunExitResult};

impl Machine {
    /// Calls a run: the handle's notification brings its outcome. Whether that is among what was recorded: then the body is not executed.
    pub fn sys_run(
        &mut self,
        name: &[u8],
        replayed: &mut u32,
        notification: &mut u32,
    ) -> Result<Bytes, NotDone>
        ensures { Given (IsUtf8 name.now) (DoesCall (CallsRun name.now) (record { replayed = is_set replayed.new; handle = notification.new })) self.old result self.new }
    {
        let name = copied_text(self.alloc, name)?;
        match self.vm.sys_run(name) {
            Ok(made) => {
                *replayed = as_number(made.replayed);
                *notification = made.handle.number();
                Ok(Bytes::new())
            }
            Err(error) => Err(self.failed(error)),
        }
    }

    /// The body of a run has ended with this value.
    pub fn propose_run_success(&mut self, notification: u32, value: &[u8]) -> Result<Bytes, NotDone>
        ensures { Given AnyBytes (DoesCall (ProposesRun notification (RunExitResult.Success value.now) RetryPolicy.Infinite) tt) self.old result self.new }
    {
        let exit = RunExitResult::Success(copied_bytes(self.alloc, value)?);
        self.propose(notification, exit, RetryPolicy::Infinite)
    }

    /// The body of a run has ended with a failure that is its outcome.
    pub fn propose_run_failure(
        &mut self,
        notification: u32,
        failure: &[u8],
    ) -> Result<Bytes, NotDone>
        ensures { Given (IsFailure failure.now) (DoesCall (ProposesRun notification (RunExitResult.TerminalFailure (failure_in failure.now)) RetryPolicy.Infinite) tt) self.old result self.new }
    {
        let exit = RunExitResult::TerminalFailure(terminal_failure(self.alloc, failure)?);
        self.propose(notification, exit, RetryPolicy::Infinite)
    }

    /// An attempt at the body of a run has failed, after so long, with an error of which the policy says whether the body is executed again.
    pub fn propose_run_retryable(
        &mut self,
        notification: u32,
        attempt_millis: u64,
        code: u16,
        message: &[u8],
        policy: &Policy,
    ) -> Result<Bytes, NotDone>
        ensures { Given (IsTrue (is_policy policy.now) × IsUtf8 message.now) (ProposesRetry notification attempt_millis code message.now policy.now) self.old result self.new }
    {
        let Some(policy) = retry_policy(policy) else {
            return Err(NotDone::Unread(Unread::Malformed));
        };
        let message = copied_text(self.alloc, message)?;
        let exit = RunExitResult::RetryableFailure {
            attempt_duration: Duration::from_millis(attempt_millis),
            error: Error::new(InvocationErrorCode::new(code), message),
        };
        self.propose(notification, exit, policy)
    }

    // How a body has ended is proposed.
    fn propose(
        &mut self,
        notification: u32,
        exit: RunExitResult,
        policy: RetryPolicy,
    ) -> Result<Bytes, NotDone>
        ensures { DoesCall (ProposesRun notification exit policy) tt self.old result self.new }
    {
        match self
            .vm
            .propose_run_completion(NotificationHandle::new(notification), exit, policy)
        {
            Ok(()) => Ok(Bytes::new()),
            Err(error) => Err(self.failed(error)),
        }
    }
}
