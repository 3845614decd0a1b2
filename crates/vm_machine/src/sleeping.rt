// A call that waits for a moment.
ghost use Rattle.std.specs.Prelude.{◌≡◌, codes, Option, None};
ghost use Rattle.journal_model.specs.declared.call.Answer.{Answer};
ghost use Rattle.journal_model.specs.declared.call.Call.{Call};
ghost use Rattle.journal_model.specs.declared.call.Moment.{Moment};
ghost use Rattle.journal_model.specs.Refusal.{milliseconds, first_refusal, moment_tests};
ghost use Rattle.protocol_differences.specs.Control.{sleep_command_difference};
ghost use Rattle.protocol_types.specs.declared.message_type.MessageType.TheVariants.{SleepCommand};
ghost use Rattle.vm_machine.specs.Calls.{checks_off, IsMade, Calls, TellsMoment};

use crate::{Admission, MachineState};
use bytes::ByteStr;
use journal_model::{Moment, NotificationHandle};
use protocol_errors::Error;
use protocol_types::{MessageType, Version};
use vm_refusals::{RefusalError, to_millis};
use vm_types::NonDeterministicChecksOption;

/// Whether payloads are not compared.
pub fn checks_off(option: NonDeterministicChecksOption) -> bool
    ensures { result ≡ checks_off option }
{
    match option {
        NonDeterministicChecksOption::PayloadChecksDisabled => true,
        NonDeterministicChecksOption::Enabled => false,
    }
}

// A moment in milliseconds, or why a call with it is refused; `event` is what it is called then.
fn moment_of(version: Version, moment: Moment, event: &'static str) -> (u64, Option<RefusalError>)
    ensures { TellsMoment version moment event.now result }
{
    match to_millis(moment) {
        Ok(time) => (time, None),
        Err(refusal) => (
            0,
            Some(RefusalError {
                refusal,
                version,
                event,
            }),
        ),
    }
}

impl MachineState {
    // Makes the call.
    fn make_sleep(&mut self, name: ByteStr, time: u64) -> Result<NotificationHandle, Error>
        ensures { (wake_up : Moment) (now : Option Moment) → milliseconds wake_up ≡ time → first_refusal (moment_tests wake_up) ≡ None
            → IsMade sleep_command_difference (Call.Sleep name wake_up now) (λ handle. Answer.Handle handle) SleepCommand name self.old result self.new }
    {
        let ignoring = checks_off(self.options.non_determinism_checks);
        let made = self.active.sleep(self.alloc, ignoring, name, time);
        self.settle(made)
    }

    /// Sleeps until a moment: the handle's notification comes then. What the host holds for now is not looked at.
    pub fn sys_sleep(
        &mut self,
        name: ByteStr,
        wake_up: Moment,
        now: Option<Moment>,
    ) -> Result<NotificationHandle, Error>
        ensures { Calls sleep_command_difference (Call.Sleep name wake_up now) (λ handle. Answer.Handle handle) (codes "sleep duration") SleepCommand name self.old result self.new }
    {
        drop(now);
        let (time, refusal) = moment_of(self.version, wake_up, "sleep duration");
        match self.admit(refusal) {
            Admission::Admitted => self.make_sleep(name, time),
            Admission::Elsewhere => Err(self.fail_elsewhere(1, MessageType::SleepCommand, name)),
            Admission::Stopped(error) => Err(error),
        }
    }
}
