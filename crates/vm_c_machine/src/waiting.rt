// Sleeps, awaits and takes.
ghost use Rattle.std.specs.Prelude.{◌≡◌, ◌+◌, ◌*◌, if◌then◌else◌, None, IsUtf8};
ghost use Rattle.vm_core.specs.Calls.{SysSleep, TakeNotification};
ghost use Rattle.vm_c_machine.specs.Calls.{DoesCall, Takes, Tells, Given};
ghost use Rattle.vm_c_machine.specs.Numbers.{AwaitsNodes, outcome_of, detail_of};
ghost use Rattle.vm_c_values.specs.Arguments.{IsTree};

use crate::Machine;
use bytes::Bytes;
use journal_model::{Moment, NotificationHandle, Value};
use vm_c_values::{Node, NotDone, copied_text, future_of, kind_of, reply_of};
use vm_core::VM;
use vm_types::AwaitResponse;

// Whom the outside is waited for: 1 for more input, 2 for a run's proposal, 3 for both.
fn waited_for(input: bool, proposal: bool) -> u32
    ensures { result ≡ (if input then 1 else 0) + (if proposal then 2 else 0) }
{
    match (input, proposal) {
        (false, false) => 0,
        (true, false) => 1,
        (false, true) => 2,
        (true, true) => 3,
    }
}

// The outcome of an await, and its detail.
fn response_numbers(response: &AwaitResponse) -> (u32, u32)
    ensures outcome { result.0 ≡ outcome_of response.now }
    ensures detail { result.1 ≡ detail_of response.now }
{
    match response {
        AwaitResponse::AnyCompleted => (0, 0),
        AwaitResponse::WaitingExternalProgress {
            waiting_input,
            waiting_run_proposal,
        } => (1, waited_for(*waiting_input, *waiting_run_proposal)),
        AwaitResponse::ExecuteRun(handle) => (2, handle.number()),
        AwaitResponse::CancelSignalReceived => (3, 0),
        AwaitResponse::EphemeralNotificationReady(id) => (4, id.number),
    }
}

impl Machine {
    /// Sleeps until so many milliseconds: the handle's notification comes then.
    pub fn sys_sleep(
        &mut self,
        name: &[u8],
        wake_up_millis: u64,
        notification: &mut u32,
    ) -> Result<Bytes, NotDone>
        ensures { Given (IsUtf8 name.now) (DoesCall (SysSleep name.now (wake_up_millis * 1_000_000) None) notification.new) self.old result self.new }
    {
        let name = copied_text(self.alloc, name)?;
        let wake_up = Moment::from_millis(wake_up_millis);
        match self.vm.sys_sleep(name, wake_up, None) {
            Ok(handle) => {
                *notification = handle.number();
                Ok(Bytes::new())
            }
            Err(error) => Err(self.failed(error)),
        }
    }

    /// Waits for a tree of handles: whether it is awake, and else which run's body is to be executed first, or what is to be waited for
    /// outside.
    pub fn do_await(
        &mut self,
        tree: &[Node],
        outcome: &mut u32,
        detail: &mut u32,
    ) -> Result<Bytes, NotDone>
        ensures { Given (IsTree tree.now) (DoesCall (AwaitsNodes tree.now outcome.new detail.new) tt) self.old result self.new }
    {
        let future = future_of(self.alloc, tree)?;
        match self.vm.do_await(future) {
            Ok(response) => {
                let (come_to, told) = response_numbers(&response);
                *outcome = come_to;
                *detail = told;
                Ok(Bytes::new())
            }
            Err(error) => Err(self.failed(error)),
        }
    }

    /// Takes what has come of a handle, if anything has: its kind, and as reply its bytes.
    pub fn take_notification(&mut self, notification: u32, kind: &mut u32) -> Result<Bytes, NotDone>
        ensures { Takes (TakeNotification notification) kind.new self.old result self.new }
    {
        match self
            .vm
            .take_notification(NotificationHandle::new(notification))
        {
            Ok(taken) => self.took(taken, kind),
            Err(error) => Err(self.failed(error)),
        }
    }

    // Tells what was taken.
    pub(crate) fn took(&self, taken: Option<Value>, kind: &mut u32) -> Result<Bytes, NotDone>
        ensures { Tells taken kind.new result }
    {
        *kind = kind_of(&taken);
        match reply_of(self.alloc, taken) {
            Ok(bytes) => Ok(bytes),
            Err(_) => Err(NotDone::Untold),
        }
    }
}
