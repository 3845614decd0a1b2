// What an attempt keeps while calls are made of it, and the steps that each call is made of.
ghost use Rattle.std.specs.Prelude.{◌≡◌, ◌+◌, ◌≤◌, ◌<◌, ◌^◌, ◌↔◌, ◌||◌, ℕ, Bool, true, List, Some, OnOk, OnErr, IfOk, IfErr, length};
ghost use Rattle.vm_calls.specs.Words.{Call, Answer, Request, Invocation, Machine};
ghost use Rattle.vm_commands.specs.HeaderEquality.{is_unstable};
ghost use Rattle.vm_calls.specs.Active.{left_of, still_replays, asking, TellsSame, IsAtCommand, IsActiveSettled, TakesCompletion, LacksCompletions, HasCompletions, PutsIn};
ghost use Rattle.vm_calls.specs.CommandCalls.{CompletesOne, HasCallBegun, MakesCommand};
ghost use Rattle.vm_calls.specs.SpentReplay.{IsSpent, FindsNone, FailsSpent, KeepsRest};
ghost use Rattle.vm_calls.specs.MismatchedCommands.{command_place, TellsPut, FindsAs};
ghost use Rattle.protocol_messages.specs.RecordMessage.{type_of_record};
ghost use Rattle.vm_awaits.specs.Views.{results_of, slots_of};
ghost use Rattle.vm_awaits.specs.Calls.{with_handle};
ghost use Rattle.vm_awaits.specs.declared.state.CreateHandleError.TheVariants.{HandlesExhausted};
ghost use Rattle.vm_calls.specs.declared.call_error.NumberError.TheVariants.{IdsExhausted};

use crate::{CallError, NumberError, PutError, put};
use bytes::ByteStr;
use journal_model::{NotificationHandle, NotificationId};
use protocol_stream::RawMessage;
use protocol_types::MessageType;
use std::alloc::{AllocError, Global};
use std::collections::VecDeque;
use vm_awaits::{AsyncResultsState, Children, CreateHandleError};
use vm_commands::Command;
use vm_context::{EagerState, Journal, Output};

/// What an attempt keeps while calls are made of it, from the last of the entries that its start has announced on.
#[derive(Debug, Drop)]
pub struct Active {
    /// Whether recorded commands are left, which the next calls have to match.
    pub is_replaying: bool,
    /// The recorded commands that are left, the next one first.
    pub commands: VecDeque<RawMessage>,
    pub results: AsyncResultsState,
    pub state: EagerState,
    pub journal: Journal,
    pub output: Output,
    /// The children that a cancellation is passed on to.
    pub children: Children,
}

fn number_error(error: CreateHandleError) -> NumberError
    ensures { (result ≡ IdsExhausted) ↔ (error ≡ HandlesExhausted) }
{
    match error {
        CreateHandleError::HandlesExhausted => NumberError::IdsExhausted,
        CreateHandleError::OutOfMemory => NumberError::OutOfMemory,
    }
}

/// The next handle, for this id.
pub fn handle_for(
    results: &mut AsyncResultsState,
    id: NotificationId,
) -> Result<NotificationHandle, NumberError>
    ensures handle { IfOk result (λ handle. handle ≡ 17 + length (slots_of results.old)) }
    ensures made { IfOk result (λ handle. results_of results.new ≡ with_handle id (results_of results.old)) }
    ensures left { OnOk result (2 ^ 32 ≤ 17 + length (slots_of results.old) → ⊥) }
    ensures err { IfErr result (λ error. error ≡ IdsExhausted → 2 ^ 32 < 17 + length (slots_of results.old) + 1) }
{
    match results.create_handle_mapping(id) {
        Ok(handle) => Ok(handle),
        Err(error) => Err(number_error(error)),
    }
}

// An attempt replays until the last recorded command is matched.
fn still_replays(is_replaying: bool, commands: &VecDeque<RawMessage>) -> bool
    ensures { result ≡ still_replays is_replaying commands.now.items }
{
    is_replaying && !commands.is_empty()
}

impl Active {
    /// Whether so many completion ids, or handles for them, are not left.
    pub fn lacks_completions(&self, taken: u32) -> bool
        ensures { (result ≡ true) ↔ LacksCompletions taken self.now }
    {
        match taken.checked_sub(1) {
            Some(behind) => {
                self.journal.lacks_completions(behind) || self.results.lacks_handles(behind)
            }
            None => false,
        }
    }

    /// A command of this type and name is asked for: errors that follow tell it. Answers a copy of the name.
    pub fn ask(&mut self, ty: MessageType, name: ByteStr) -> Result<ByteStr, AllocError>
        ensures copy { IfOk result (λ copy. copy ≡ name) }
        ensures journal { self.new ≡ asking ty name self.old }
    {
        let copy: Result<ByteStr, AllocError> = name.clone();
        self.journal.transition(ty, name);
        copy
    }

    // Takes the next completion id, and the handle that stands for it.
    fn next_completion(&mut self) -> Result<(u32, NotificationHandle), NumberError>
        ensures ok { IfOk result (λ made. TakesCompletion made self.old self.new) }
        ensures err { IfErr result (λ error. error ≡ IdsExhausted → LacksCompletions 1 self.old) }
        ensures output { self.new.output ≡ self.old.output }
        ensures told { TellsSame self.old.journal self.new.journal }
    {
        let Ok(id) = self.journal.next_completion_notification_id() else {
            return Err(NumberError::IdsExhausted);
        };
        let handle = handle_for(&mut self.results, NotificationId::CompletionId(id))?;
        Ok((id, handle))
    }

    /// Begins a call of one completion, whose command is of this type and name: takes the completion's id and the handle that
    /// stands for it. Answers a copy of the name beside the two.
    pub fn begin(
        &mut self,
        ty: MessageType,
        name: ByteStr,
    ) -> Result<(ByteStr, u32, NotificationHandle), NumberError>
        ensures name { IfOk result (λ taken. taken.0 ≡ name) }
        ensures taken { IfOk result (λ taken. TakesCompletion (taken.1, taken.2) (asking ty name self.old) self.new) }
        ensures err { IfErr result (λ error. error ≡ IdsExhausted → LacksCompletions 1 self.old) }
        ensures output { self.new.output ≡ self.old.output }
        ensures told { IsAtCommand ty name self.old.journal self.new.journal }
    {
        let copy = self.ask(ty, name);
        let (id, handle) = self.next_completion()?;
        match copy {
            Ok(name) => Ok((name, id, handle)),
            Err(_) => Err(NumberError::OutOfMemory),
        }
    }

    /// Matches a call's command with the next recorded one, or writes it. Where the last recorded one was matched, the attempt
    /// replays no more.
    pub fn put<M: Command>(
        &mut self,
        alloc: Global,
        command: M,
        ignore_payload_equality: bool,
    ) -> Result<(), PutError<M>>
        ensures put { (request : Request) (written : List Request) → M.request_of command ≡ Some request → IsActiveSettled self.old
            → PutsIn ignore_payload_equality request written self.old result self.new }
        ensures spent { (request : Request) → M.request_of command ≡ Some request → IsSpent self.old → FindsNone result × (self.new.output ≡ self.old.output) }
        ensures found { (ty : MessageType) → type_of_record M.record_type ≡ Some ty
            → IfErr result (λ error. TellsPut ty (command_place self.new.journal) self.old.commands.items error) }
        ensures journal { self.new.journal ≡ self.old.journal }
    {
        let index = self.journal.command_index();
        match put(
            alloc,
            self.is_replaying,
            &mut self.commands,
            &mut self.output,
            index,
            command,
            ignore_payload_equality,
        ) {
            Ok(()) => {
                self.is_replaying = still_replays(self.is_replaying, &self.commands);
                Ok(())
            }
            Err(error) => Err(error),
        }
    }

    /// Puts the command of a call that has begun, and answers the handle of its completion.
    pub fn put_completable<M: Command>(
        &mut self,
        alloc: Global,
        command: M,
        ignore_payload_equality: bool,
        handle: NotificationHandle,
    ) -> Result<NotificationHandle, CallError<M>>
        ensures makes { (checks_off : Bool) (given : Invocation) (m : Machine) (call : Call) (request : Request) (old : Active) → M.request_of command ≡ Some request
            → CompletesOne given m call request → ignore_payload_equality ≡ (checks_off || is_unstable call) → HasCallBegun given m handle old self.old
            → MakesCommand checks_off given m call (λ handle. Answer.Handle handle) old result self.new }
        ensures spent { (request : Request) (taken : ℕ) (old : Active) → M.request_of command ≡ Some request → KeepsRest old self.old → HasCompletions taken old
            → IsSpent old → FailsSpent taken old result self.new }
        ensures found { (ty : MessageType) (old : Active) → type_of_record M.record_type ≡ Some ty → KeepsRest old self.old → FindsAs ty old result self.new }
        ensures journal { self.new.journal ≡ self.old.journal }
    {
        match self.put(alloc, command, ignore_payload_equality) {
            Ok(()) => Ok(handle),
            Err(error) => Err(CallError::Put(error)),
        }
    }
}
