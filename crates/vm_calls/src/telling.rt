// The calls that tell something to the outside or to another invocation, and are answered at once.
ghost use Rattle.std.specs.Prelude.{◌≡◌, [], Some, None};
ghost use Rattle.journal_model.specs.Request.{Request, SignalValue};
ghost use Rattle.journal_model.specs.declared.notification.SignalKey.{SignalKey};
ghost use Rattle.protocol_laws.specs.Requests.{request_of_send_signal};
ghost use Rattle.vm_calls.specs.Words.{Call, Answer, Invocation, Machine};
ghost use Rattle.journal_model.specs.Refusal.{refusal_of};
ghost use Rattle.protocol_types.specs.declared.message_type.MessageType.TheVariants.{OutputCommand, SendSignalCommand, CompleteAwakeableCommand};
ghost use Rattle.vm_calls.specs.Active.{Sees, IsAtCommand};
ghost use Rattle.vm_calls.specs.CommandCalls.{MakesCommand};
ghost use Rattle.vm_calls.specs.SpentReplay.{IsSpent, FailsSpent};
ghost use Rattle.vm_calls.specs.MismatchedCommands.{FindsAs};

use crate::{Active, CallError, ignores};
use bytes::ByteStr;
use journal_model::{NonEmptyValue, PayloadOptions};
use protocol_calls::{
    CompleteAwakeableCommandMessage, SendSignalCommandMessage, SendSignalCommandResult,
    SendSignalCommandSignalId,
};
use protocol_records::{OutputCommandMessage, Void};
use protocol_stream::to_output_result;
use protocol_types::MessageType;
use std::alloc::Global;
use vm_commands::{to_awakeable_result, to_signal_result};

/// The signal that cancels an invocation.
const CANCEL_SIGNAL: u32 = 1;

/// The command that cancels an invocation.
pub fn cancel_command(target_id: ByteStr, entry_name: ByteStr) -> SendSignalCommandMessage
    ensures { request_of_send_signal result ≡ Some (Request.SendSignal target_id (SignalKey.ByIndex 1) SignalValue.Empty entry_name) }
{
    SendSignalCommandMessage {
        target_invocation_id: target_id,
        signal_id: Some(SendSignalCommandSignalId::Idx(CANCEL_SIGNAL)),
        result: Some(SendSignalCommandResult::Void(Void {})),
        entry_name,
    }
}

impl Active {
    /// Cancels another invocation.
    pub fn cancel(
        &mut self,
        alloc: Global,
        checks_off: bool,
        target_id: ByteStr,
    ) -> Result<(), CallError<SendSignalCommandMessage>>
        ensures made { (given : Invocation) (m : Machine) → Sees given self.old m
            → MakesCommand checks_off given m (Call.Cancel target_id) (λ done. Answer.Done) self.old result self.new }
        ensures spent { IsSpent self.old → FailsSpent 0 self.old result self.new }
        ensures found { FindsAs SendSignalCommand self.old result self.new }
        ensures told { IsAtCommand SendSignalCommand [] self.old.journal self.new.journal }
    {
        let entry_name = self.ask(MessageType::SendSignalCommand, ByteStr::new())?;
        self.put_done(alloc, cancel_command(target_id, entry_name), checks_off)
    }

    /// Sends a signal of a name to another invocation.
    pub fn complete_signal(
        &mut self,
        alloc: Global,
        checks_off: bool,
        target_id: ByteStr,
        name: ByteStr,
        value: NonEmptyValue,
    ) -> Result<(), CallError<SendSignalCommandMessage>>
        ensures made { (given : Invocation) (m : Machine) → refusal_of given.version (Call.CompleteSignal target_id name value) ≡ None
            → Sees given self.old m → MakesCommand checks_off given m (Call.CompleteSignal target_id name value) (λ done. Answer.Done) self.old result self.new }
        ensures spent { IsSpent self.old → FailsSpent 0 self.old result self.new }
        ensures found { FindsAs SendSignalCommand self.old result self.new }
        ensures told { IsAtCommand SendSignalCommand [] self.old.journal self.new.journal }
    {
        let entry_name = self.ask(MessageType::SendSignalCommand, ByteStr::new())?;
        let carried = to_signal_result(alloc, value)?;
        let command = SendSignalCommandMessage {
            target_invocation_id: target_id,
            signal_id: Some(SendSignalCommandSignalId::Name(name)),
            result: Some(carried),
            entry_name,
        };
        self.put_done(alloc, command, checks_off)
    }

    /// Puts out the result of the invocation.
    pub fn output(
        &mut self,
        alloc: Global,
        checks_off: bool,
        value: NonEmptyValue,
        options: PayloadOptions,
    ) -> Result<(), CallError<OutputCommandMessage>>
        ensures made { (given : Invocation) (m : Machine) → refusal_of given.version (Call.Output value options) ≡ None
            → Sees given self.old m → MakesCommand checks_off given m (Call.Output value options) (λ done. Answer.Done) self.old result self.new }
        ensures spent { IsSpent self.old → FailsSpent 0 self.old result self.new }
        ensures found { FindsAs OutputCommand self.old result self.new }
        ensures told { IsAtCommand OutputCommand [] self.old.journal self.new.journal }
    {
        let name = self.ask(MessageType::OutputCommand, ByteStr::new())?;
        let carried = to_output_result(alloc, value)?;
        let command = OutputCommandMessage {
            name,
            result: Some(carried),
        };
        self.put_done(alloc, command, ignores(checks_off, options))
    }

    /// Completes the awakeable of this text.
    pub fn complete_awakeable(
        &mut self,
        alloc: Global,
        checks_off: bool,
        id: ByteStr,
        value: NonEmptyValue,
        options: PayloadOptions,
    ) -> Result<(), CallError<CompleteAwakeableCommandMessage>>
        ensures told { IsAtCommand CompleteAwakeableCommand [] self.old.journal self.new.journal }
        ensures made { (given : Invocation) (m : Machine) → refusal_of given.version (Call.CompleteAwakeable id value options) ≡ None
            → Sees given self.old m → MakesCommand checks_off given m (Call.CompleteAwakeable id value options) (λ done. Answer.Done) self.old result self.new }
        ensures spent { IsSpent self.old → FailsSpent 0 self.old result self.new }
        ensures found { FindsAs CompleteAwakeableCommand self.old result self.new }
    {
        let name = self.ask(MessageType::CompleteAwakeableCommand, ByteStr::new())?;
        let carried = to_awakeable_result(alloc, value)?;
        let command = CompleteAwakeableCommandMessage {
            awakeable_id: id,
            result: Some(carried),
            name,
        };
        self.put_done(alloc, command, ignores(checks_off, options))
    }
}
