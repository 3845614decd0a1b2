// The calls that write and clear the object's state.
ghost use Rattle.std.specs.Prelude.{◌≡◌, OnOk};
ghost use Rattle.vm_calls.specs.Words.{Call, Answer, Request, Invocation, Machine};
ghost use Rattle.journal_model.specs.Run.{name_or_empty};
ghost use Rattle.protocol_types.specs.declared.message_type.MessageType.TheVariants.{SetStateCommand, ClearStateCommand, ClearAllStateCommand};
ghost use Rattle.vm_context.specs.StateKnowledge.{Follows};
ghost use Rattle.vm_calls.specs.Active.{Sees, IsAtCommand};
ghost use Rattle.vm_calls.specs.CommandCalls.{MakesCommand};
ghost use Rattle.vm_calls.specs.SpentReplay.{IsSpent, FailsSpent};
ghost use Rattle.vm_calls.specs.MismatchedCommands.{FindsAs};

use crate::{Active, CallError, ignores, or_empty};
use bytes::{ByteStr, Bytes};
use journal_model::PayloadOptions;
use protocol_commands::{
    ClearAllStateCommandMessage, ClearStateCommandMessage, SetStateCommandMessage,
};
use protocol_records::Value;
use protocol_types::MessageType;
use std::alloc::{AllocError, Global};
use vm_context::EagerState;

// The key has this value from now on.
fn set_known(state: &mut EagerState, key: &ByteStr, value: &Bytes) -> Result<(), AllocError>
    ensures { OnOk result (Follows (λ name. Request.SetState key.now value.now name) state.old state.new) }
{
    state.set(key.clone()?, value.clone()?)
}

// The key has no value from now on.
fn clear_known(state: &mut EagerState, key: &ByteStr) -> Result<(), AllocError>
    ensures { OnOk result (Follows (λ name. Request.ClearState key.now name) state.old state.new) }
{
    state.clear(key.clone()?)
}

impl Active {
    /// Sets a key of the state. Whether recorded bytes of another value stand is for the options to say.
    pub fn state_set(
        &mut self,
        alloc: Global,
        checks_off: bool,
        key: ByteStr,
        value: Bytes,
        name: Option<ByteStr>,
        options: PayloadOptions,
    ) -> Result<(), CallError<SetStateCommandMessage>>
        ensures made { (given : Invocation) (m : Machine) → Sees given self.old m
            → MakesCommand checks_off given m (Call.StateSet key value name options) (λ done. Answer.Done) self.old result self.new }
        ensures spent { IsSpent self.old → FailsSpent 0 self.old result self.new }
        ensures found { FindsAs SetStateCommand self.old result self.new }
        ensures told { IsAtCommand SetStateCommand (name_or_empty name) self.old.journal self.new.journal }
    {
        let name = self.ask(MessageType::SetStateCommand, or_empty(name))?;
        set_known(&mut self.state, &key, &value)?;
        let command = SetStateCommandMessage {
            key: key.into_bytes(),
            value: Some(Value { content: value }),
            name,
        };
        self.put_done(alloc, command, ignores(checks_off, options))
    }

    /// Clears a key of the state.
    pub fn state_clear(
        &mut self,
        alloc: Global,
        checks_off: bool,
        key: ByteStr,
        name: Option<ByteStr>,
    ) -> Result<(), CallError<ClearStateCommandMessage>>
        ensures made { (given : Invocation) (m : Machine) → Sees given self.old m
            → MakesCommand checks_off given m (Call.StateClear key name) (λ done. Answer.Done) self.old result self.new }
        ensures spent { IsSpent self.old → FailsSpent 0 self.old result self.new }
        ensures found { FindsAs ClearStateCommand self.old result self.new }
        ensures told { IsAtCommand ClearStateCommand (name_or_empty name) self.old.journal self.new.journal }
    {
        let name = self.ask(MessageType::ClearStateCommand, or_empty(name))?;
        clear_known(&mut self.state, &key)?;
        let command = ClearStateCommandMessage {
            key: key.into_bytes(),
            name,
        };
        self.put_done(alloc, command, checks_off)
    }

    /// Clears the state.
    pub fn state_clear_all(
        &mut self,
        alloc: Global,
        checks_off: bool,
        name: Option<ByteStr>,
    ) -> Result<(), CallError<ClearAllStateCommandMessage>>
        ensures made { (given : Invocation) (m : Machine) → Sees given self.old m
            → MakesCommand checks_off given m (Call.StateClearAll name) (λ done. Answer.Done) self.old result self.new }
        ensures spent { IsSpent self.old → FailsSpent 0 self.old result self.new }
        ensures found { FindsAs ClearAllStateCommand self.old result self.new }
        ensures told { IsAtCommand ClearAllStateCommand (name_or_empty name) self.old.journal self.new.journal }
    {
        let name = self.ask(MessageType::ClearAllStateCommand, or_empty(name))?;
        self.state.clear_all();
        self.put_done(alloc, ClearAllStateCommandMessage { name }, checks_off)
    }
}
