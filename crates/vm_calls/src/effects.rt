// What is left of a call that takes no number once its command is made.
ghost use Rattle.std.specs.Prelude.{◌≡◌, ◌||◌, ℕ, Bool, Some};
ghost use Rattle.vm_calls.specs.Words.{Call, Answer, Request, Invocation, Machine};
ghost use Rattle.vm_commands.specs.HeaderEquality.{is_unstable};
ghost use Rattle.vm_calls.specs.Active.{HasCompletions};
ghost use Rattle.vm_calls.specs.CommandCalls.{MakesCommand};
ghost use Rattle.vm_calls.specs.ImmediateCalls.{DoesOne, HasAsked};
ghost use Rattle.vm_calls.specs.SpentReplay.{IsSpent, FailsSpent, KeepsRest};
ghost use Rattle.vm_calls.specs.MismatchedCommands.{FindsAs};
ghost use Rattle.protocol_messages.specs.RecordMessage.{type_of_record};
ghost use Rattle.protocol_types.specs.declared.message_type.MessageType.{MessageType};

use crate::{Active, CallError};
use std::alloc::Global;
use vm_commands::Command;

impl Active {
    /// Puts the command of a call that is answered at once. What is known of the state has been changed before.
    pub(crate) fn put_done<M: Command>(
        &mut self,
        alloc: Global,
        command: M,
        ignore_payload_equality: bool,
    ) -> Result<(), CallError<M>>
        ensures makes { (checks_off : Bool) (given : Invocation) (m : Machine) (call : Call) (request : Request) (old : Active) → M.request_of command ≡ Some request
            → DoesOne given m call request → ignore_payload_equality ≡ (checks_off || is_unstable call) → HasAsked given m request old self.old
            → MakesCommand checks_off given m call (λ done. Answer.Done) old result self.new }
        ensures spent { (request : Request) (taken : ℕ) (old : Active) → M.request_of command ≡ Some request → KeepsRest old self.old → HasCompletions taken old
            → IsSpent old → FailsSpent taken old result self.new }
        ensures found { (ty : MessageType) (old : Active) → type_of_record M.record_type ≡ Some ty → KeepsRest old self.old → FindsAs ty old result self.new }
        ensures journal { self.new.journal ≡ self.old.journal }
    {
        match self.put(alloc, command, ignore_payload_equality) {
            Ok(()) => Ok(()),
            Err(error) => Err(CallError::Put(error)),
        }
    }
}
