// The calls that are about a promise.
ghost use Rattle.std.specs.Prelude.{◌≡◌, [], Some, None, IfOk};
ghost use Rattle.vm_calls.specs.CommandCalls.{MakesCommand};
ghost use Rattle.vm_calls.specs.SpentReplay.{IsSpent, FailsSpent};
ghost use Rattle.vm_calls.specs.MismatchedCommands.{FindsAs};
ghost use Rattle.vm_calls.specs.Words.{Call, Answer, Request, Invocation, Machine};
ghost use Rattle.journal_model.specs.Refusal.{refusal_of};
ghost use Rattle.protocol_types.specs.declared.message_type.MessageType.TheVariants.{GetPromiseCommand, PeekPromiseCommand, CompletePromiseCommand};
ghost use Rattle.protocol_laws.specs.Requests.{request_of_complete_promise};
ghost use Rattle.vm_calls.specs.Active.{Sees, IsAtCommand};

use crate::{Active, CallError, ignores};
use bytes::ByteStr;
use journal_model::{NonEmptyValue, NotificationHandle, PayloadOptions};
use protocol_commands::{
    CompletePromiseCommandMessage, GetPromiseCommandMessage, PeekPromiseCommandMessage,
};
use protocol_types::MessageType;
use std::alloc::{AllocError, Global};
use vm_commands::to_promise_completion;

// The command that completes a promise, once its own completion's id is taken.
fn completing_command(
    alloc: Global,
    key: ByteStr,
    value: NonEmptyValue,
    result_completion_id: u32,
    name: ByteStr,
) -> Result<CompletePromiseCommandMessage, AllocError>
    ensures { IfOk result (λ command. request_of_complete_promise command ≡ Some (Request.CompletePromise key value result_completion_id name)) }
{
    let completion = to_promise_completion(alloc, value)?;
    Ok(CompletePromiseCommandMessage {
        key,
        completion: Some(completion),
        result_completion_id,
        name,
    })
}

impl Active {
    /// Waits for a promise: the handle's notification brings what it is completed with.
    pub fn get_promise(
        &mut self,
        alloc: Global,
        checks_off: bool,
        key: ByteStr,
    ) -> Result<NotificationHandle, CallError<GetPromiseCommandMessage>>
        ensures made { (given : Invocation) (m : Machine) → Sees given self.old m
            → MakesCommand checks_off given m (Call.GetPromise key) (λ handle. Answer.Handle handle) self.old result self.new }
        ensures spent { IsSpent self.old → FailsSpent 1 self.old result self.new }
        ensures found { FindsAs GetPromiseCommand self.old result self.new }
        ensures told { IsAtCommand GetPromiseCommand [] self.old.journal self.new.journal }
    {
        let (name, id, handle) = self.begin(MessageType::GetPromiseCommand, ByteStr::new())?;
        let command = GetPromiseCommandMessage {
            key,
            result_completion_id: id,
            name,
        };
        self.put_completable(alloc, command, checks_off, handle)
    }

    /// Looks whether a promise is completed: the handle's notification says so, and with what.
    pub fn peek_promise(
        &mut self,
        alloc: Global,
        checks_off: bool,
        key: ByteStr,
    ) -> Result<NotificationHandle, CallError<PeekPromiseCommandMessage>>
        ensures told { IsAtCommand PeekPromiseCommand [] self.old.journal self.new.journal }
        ensures made { (given : Invocation) (m : Machine) → Sees given self.old m
            → MakesCommand checks_off given m (Call.PeekPromise key) (λ handle. Answer.Handle handle) self.old result self.new }
        ensures spent { IsSpent self.old → FailsSpent 1 self.old result self.new }
        ensures found { FindsAs PeekPromiseCommand self.old result self.new }
    {
        let (name, result_completion_id, handle) = self.begin(
            MessageType::PeekPromiseCommand,
            ByteStr::new(),
        )?;
        self.put_completable(
            alloc,
            PeekPromiseCommandMessage {
                key,
                result_completion_id,
                name,
            },
            checks_off,
            handle,
        )
    }

    /// Completes a promise: the handle's notification says whether it was completed before.
    pub fn complete_promise(
        &mut self,
        alloc: Global,
        checks_off: bool,
        key: ByteStr,
        value: NonEmptyValue,
        options: PayloadOptions,
    ) -> Result<NotificationHandle, CallError<CompletePromiseCommandMessage>>
        ensures made { (given : Invocation) (m : Machine) → refusal_of given.version (Call.CompletePromise key value options) ≡ None → Sees given self.old m
            → MakesCommand checks_off given m (Call.CompletePromise key value options) (λ handle. Answer.Handle handle) self.old result self.new }
        ensures spent { IsSpent self.old → FailsSpent 1 self.old result self.new }
        ensures found { FindsAs CompletePromiseCommand self.old result self.new }
        ensures told { IsAtCommand CompletePromiseCommand [] self.old.journal self.new.journal }
    {
        let (name, id, handle) = self.begin(MessageType::CompletePromiseCommand, ByteStr::new())?;
        let command = completing_command(alloc, key, value, id, name)?;
        let ignoring = ignores(checks_off, options);
        self.put_completable(alloc, command, ignoring, handle)
    }
}
