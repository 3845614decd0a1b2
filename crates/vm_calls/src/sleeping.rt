// A call that waits for a moment.
ghost use Rattle.std.specs.Prelude.{◌≡◌, Option, None};
ghost use Rattle.vm_calls.specs.Words.{Call, Answer, Invocation, Machine};
ghost use Rattle.journal_model.specs.Refusal.{milliseconds, refusal_of};
ghost use Rattle.journal_model.specs.declared.call.Moment.{Moment};
ghost use Rattle.protocol_types.specs.declared.message_type.MessageType.TheVariants.{SleepCommand};
ghost use Rattle.vm_calls.specs.Active.{Sees, IsAtCommand};
ghost use Rattle.vm_calls.specs.CommandCalls.{MakesCommand};
ghost use Rattle.vm_calls.specs.SpentReplay.{IsSpent, FailsSpent};
ghost use Rattle.vm_calls.specs.MismatchedCommands.{FindsAs};

use crate::{Active, CallError};
use bytes::ByteStr;
use journal_model::NotificationHandle;
use protocol_records::SleepCommandMessage;
use protocol_types::MessageType;
use std::alloc::Global;

impl Active {
    /// Sleeps until a moment, in milliseconds: the handle's notification comes then. On replay the recorded moment stands.
    pub fn sleep(
        &mut self,
        alloc: Global,
        checks_off: bool,
        name: ByteStr,
        wake_up_time: u64,
    ) -> Result<NotificationHandle, CallError<SleepCommandMessage>>
        ensures made { (given : Invocation) (m : Machine) (wake_up : Moment) (now : Option Moment) → milliseconds wake_up ≡ wake_up_time
            → refusal_of given.version (Call.Sleep name wake_up now) ≡ None → Sees given self.old m
            → MakesCommand checks_off given m (Call.Sleep name wake_up now) (λ handle. Answer.Handle handle) self.old result self.new }
        ensures spent { IsSpent self.old → FailsSpent 1 self.old result self.new }
        ensures found { FindsAs SleepCommand self.old result self.new }
        ensures told { IsAtCommand SleepCommand name self.old.journal self.new.journal }
    {
        let (name, result_completion_id, handle) = self.begin(MessageType::SleepCommand, name)?;
        let command = SleepCommandMessage {
            wake_up_time,
            result_completion_id,
            name,
        };
        self.put_completable(alloc, command, checks_off, handle)
    }
}
