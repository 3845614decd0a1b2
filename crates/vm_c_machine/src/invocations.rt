// Other invocations.
ghost use Rattle.std.specs.Prelude.{◌≡◌, IfSome, IsUtf8};
ghost use Rattle.vm_core.specs.Calls.{SysCall, SysSend, SysCancelInvocation, SysAttachInvocation, SysGetInvocationOutput};
ghost use Rattle.vm_c_machine.specs.Calls.{DoesCall, Given};
ghost use Rattle.vm_c_machine.specs.Numbers.{moment_given};
ghost use Rattle.vm_c_values.specs.Options.{payload_options};
ghost use Rattle.vm_c_values.specs.Records.{attach_target_in, call_target_in};
ghost use Rattle.vm_c_values.specs.Arguments.{IsAttachTarget, IsCallTarget};

use crate::Machine;
use bytes::Bytes;
use journal_model::Moment;
use vm_c_values::{
    NotDone, attach_target, call_target, copied_bytes, copied_text, payload_options,
};
use vm_core::VM;

fn moment_given(millis: u64) -> Option<Moment>
    ensures { result ≡ moment_given millis }
{
    if millis == 0 {
        None
    } else {
        Some(Moment::from_millis(millis))
    }
}

impl Machine {
    /// Cancels another invocation.
    pub fn sys_cancel_invocation(&mut self, target_id: &[u8]) -> Result<Bytes, NotDone>
        ensures { Given (IsUtf8 target_id.now) (DoesCall (SysCancelInvocation target_id.now) tt) self.old result self.new }
    {
        let target_id = copied_text(self.alloc, target_id)?;
        match self.vm.sys_cancel_invocation(target_id) {
            Ok(()) => Ok(Bytes::new()),
            Err(error) => Err(self.failed(error)),
        }
    }

    /// Waits for the answer of another invocation: the handle's notification brings it.
    pub fn sys_attach_invocation(
        &mut self,
        target: &[u8],
        notification: &mut u32,
    ) -> Result<Bytes, NotDone>
        ensures { Given (IsAttachTarget target.now) (DoesCall (λ old made new. IfSome (attach_target_in target.now) (λ target. SysAttachInvocation target old made new)) notification.new) self.old result self.new }
    {
        let target = attach_target(self.alloc, target)?;
        match self.vm.sys_attach_invocation(target) {
            Ok(handle) => {
                *notification = handle.number();
                Ok(Bytes::new())
            }
            Err(error) => Err(self.failed(error)),
        }
    }

    /// Looks whether another invocation has answered: the handle's notification says so, and with what.
    pub fn sys_get_invocation_output(
        &mut self,
        target: &[u8],
        notification: &mut u32,
    ) -> Result<Bytes, NotDone>
        ensures { Given (IsAttachTarget target.now) (DoesCall (λ old made new. IfSome (attach_target_in target.now) (λ target. SysGetInvocationOutput target old made new)) notification.new) self.old result self.new }
    {
        let target = attach_target(self.alloc, target)?;
        match self.vm.sys_get_invocation_output(target) {
            Ok(handle) => {
                *notification = handle.number();
                Ok(Bytes::new())
            }
            Err(error) => Err(self.failed(error)),
        }
    }

    /// Calls another handler: of the two notifications the first tells the invocation's id, the second brings its answer.
    pub fn sys_call(
        &mut self,
        target: &[u8],
        parameter: &[u8],
        unstable: u32,
        invocation_id: &mut u32,
        answer: &mut u32,
    ) -> Result<Bytes, NotDone>
        ensures { Given (IsCallTarget target.now) (DoesCall (SysCall (call_target_in target.now).target parameter.now (call_target_in target.now).name (payload_options unstable)) (record { invocation_id_notification_handle = invocation_id.new; call_notification_handle = answer.new })) self.old result self.new }
    {
        let parameter = copied_bytes(self.alloc, parameter)?;
        let named = call_target(self.alloc, target)?;
        let options = payload_options(unstable);
        match self
            .vm
            .sys_call(named.target, parameter, named.name, options)
        {
            Ok(made) => {
                *invocation_id = made.invocation_id_notification_handle.number();
                *answer = made.call_notification_handle.number();
                Ok(Bytes::new())
            }
            Err(error) => Err(self.failed(error)),
        }
    }

    /// Calls a handler without waiting for its answer, at a moment, or at once where it is 0: the handle's notification tells the
    /// invocation's id.
    pub fn sys_send(
        &mut self,
        target: &[u8],
        parameter: &[u8],
        execution_time_millis: u64,
        unstable: u32,
        invocation_id: &mut u32,
    ) -> Result<Bytes, NotDone>
        ensures { Given (IsCallTarget target.now) (DoesCall (SysSend (call_target_in target.now).target parameter.now (moment_given execution_time_millis) (call_target_in target.now).name (payload_options unstable)) (record { invocation_id_notification_handle = invocation_id.new })) self.old result self.new }
    {
        let parameter = copied_bytes(self.alloc, parameter)?;
        let named = call_target(self.alloc, target)?;
        let at = moment_given(execution_time_millis);
        let options = payload_options(unstable);
        match self
            .vm
            .sys_send(named.target, parameter, at, named.name, options)
        {
            Ok(made) => {
                *invocation_id = made.invocation_id_notification_handle.number();
                Ok(Bytes::new())
            }
            Err(error) => Err(self.failed(error)),
        }
    }
}
