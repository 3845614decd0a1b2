// The calls that make a handle and put no command.
ghost use Rattle.std.specs.Prelude.{◌≡◌, ◌↔◌, Bool, true, IfOk, IfErr};
ghost use Rattle.vm_calls.specs.Words.{Call, Answer, Invocation, Machine};
ghost use Rattle.vm_calls.specs.Active.{Sees, TellsSame};
ghost use Rattle.vm_calls.specs.Handles.{LacksHandle, LacksSignal, TakesSignal, GivesSignal, GivesAwakeable, MakesHandle};
ghost use Rattle.vm_calls.specs.declared.call_error.NumberError.TheVariants.{IdsExhausted};

use crate::{Active, NumberError, handle_for};
use bytes::{ByteStr, Bytes};
use journal_model::{NotificationHandle, NotificationId};
use std::alloc::Global;
use vm_types::{AwakeableHandle, awakeable_id};

impl Active {
    /// Whether no handle is left.
    pub fn lacks_handle(&self) -> bool
        ensures { (result ≡ true) ↔ LacksHandle self.now }
    {
        self.results.lacks_handles(0)
    }

    /// Whether no number of an awakeable's signal, or no handle, is left.
    pub fn lacks_signal(&self) -> bool
        ensures { (result ≡ true) ↔ LacksSignal self.now }
    {
        self.journal.lacks_signal() || self.lacks_handle()
    }

    // Takes the next number of an awakeable's signal, and the handle that stands for it.
    fn next_signal(&mut self) -> Result<(u32, NotificationHandle), NumberError>
        ensures ok { IfOk result (λ made. TakesSignal made self.old self.new) }
        ensures err { IfErr result (λ error. error ≡ IdsExhausted → LacksSignal self.old) }
        ensures output { self.new.output ≡ self.old.output }
        ensures told { TellsSame self.old.journal self.new.journal }
    {
        let Ok(id) = self.journal.next_signal_notification_id() else {
            return Err(NumberError::IdsExhausted);
        };
        let handle = handle_for(&mut self.results, NotificationId::SignalId(id))?;
        Ok((id, handle))
    }

    /// The handle of a signal of this name. Nothing is recorded of it, and no command is counted.
    pub fn create_signal_handle(&mut self, name: ByteStr) -> Result<NotificationHandle, NumberError>
        ensures told { TellsSame self.old.journal self.new.journal }
        ensures gives { GivesSignal name self.old result self.new }
        ensures made { (checks_off : Bool) (given : Invocation) (m : Machine) → Sees given self.old m
            → MakesHandle checks_off given m (Call.Signal name) (λ handle. Answer.Handle handle) LacksHandle self.old result self.new }
    {
        match handle_for(&mut self.results, NotificationId::SignalName(name)) {
            Ok(handle) => Ok(handle),
            Err(error) => Err(error),
        }
    }

    /// A signal that the outside completes by the text that names it: the invocation's id and the signal's number. Nothing is
    /// recorded of it, and no command is counted.
    pub fn awakeable(
        &mut self,
        alloc: Global,
        invocation_id: &Bytes,
    ) -> Result<AwakeableHandle, NumberError>
        ensures told { TellsSame self.old.journal self.new.journal }
        ensures gives { GivesAwakeable invocation_id.now self.old result self.new }
        ensures made { (checks_off : Bool) (given : Invocation) (m : Machine) → given.input.invocation_id ≡ invocation_id.now → Sees given self.old m
            → MakesHandle checks_off given m Call.Awakeable (λ made. Answer.Awakeable made.id made.handle) LacksSignal self.old result self.new }
    {
        let (signal, handle) = self.next_signal()?;
        match awakeable_id(alloc, invocation_id, signal) {
            Ok(id) => Ok(AwakeableHandle { id, handle }),
            Err(_) => Err(NumberError::OutOfMemory),
        }
    }
}
