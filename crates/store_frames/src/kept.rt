//! An arrival as its row keeps it.

ghost use Rattle.std.specs.Prelude.{◌≡◌, ◌∷◌, [], Some, None, IsSomeAnd};
ghost use Rattle.journal_model.specs.Notification.{Arrival};
ghost use Rattle.journal_model.specs.declared.notification.NotificationId.{NotificationId};
ghost use Rattle.journal_model.specs.Spelling.{notification_payload};
ghost use Rattle.protocol_wire.specs.Wire.{Field};
ghost use Rattle.protocol_wire.specs.ComingFields.{coming};
ghost use Rattle.protocol_wire.specs.CodeFields.{field};
ghost use Rattle.store_frames.specs.First.{IsPut, first_state, await_state_of};
ghost use Rattle.store_frames.specs.KeptArrivals.{AreBoth, Names, ReadsKept, SignalFits, completion_in, state_by};

use crate::first::FirstArrivals;
use crate::kept_fault::KeptFault;
use bytes::Bytes;
use protocol_table::table::notification::FAILURE;
use protocol_trees::AwaitState;
use protocol_wire::{Fields, Payload, Scanned, ScannedField};
use std::alloc::Global;

/// The field that names an arrival, and the one of what it carries.
fn both_fields<'a>(all: Fields<'a>) -> Option<(ScannedField<'a>, ScannedField<'a>)>
    ensures { (one two : Field) → coming all.entry ≡ one ∷ two ∷ [] → IsSomeAnd result (AreBoth one two) }
{
    let mut rest = all;
    let named = rest.next()?;
    let brought = rest.next()?;
    Some((named, brought))
}

/// What the field with this number carries comes to.
fn state_by(number: u32) -> AwaitState
    ensures { result ≡ state_by number }
{
    if number == FAILURE.number {
        AwaitState::Failed
    } else {
        AwaitState::Succeeded
    }
}

impl FirstArrivals {
    /// A signal, by its number or its name, came to this.
    fn put_named(
        &mut self,
        alloc: Global,
        named: Scanned<'_>,
        state: AwaitState,
    ) -> Result<(), KeptFault>
        ensures { (id : NotificationId) → Names named.entry id → SignalFits id → ReadsKept (λ _. IsPut (first_state self.old) id state (first_state self.new)) result }
    {
        match named {
            Scanned::Varint(number) => match u32::try_from(number) {
                Ok(number) => Ok(self.put_signal(number, state)?),
                Err(_) => Err(KeptFault::Foreign),
            },
            Scanned::Bytes(name) => {
                let name = Bytes::copy_from_slice(alloc, name)?;
                Ok(self.put_name(name, state)?)
            }
            Scanned::Fixed => Err(KeptFault::Foreign),
        }
    }

    /// The arrival of a completion, by its payload.
    fn hear_completion(&mut self, number: u32, payload: &[u8]) -> Result<(), KeptFault>
        ensures { (arrival : Arrival) → completion_in arrival.id ≡ Some number → payload.now ≡ notification_payload arrival
            → ReadsKept (λ _. IsPut (first_state self.old) arrival.id (await_state_of arrival.result) (first_state self.new)) result }
    {
        let listed = Payload::new(payload);
        match both_fields(listed.fields()) {
            Some((_, brought)) => Ok(self.put_completion(number, state_by(brought.number))?),
            None => Err(KeptFault::Foreign),
        }
    }

    /// The arrival of a signal, by its payload.
    fn hear_signal(&mut self, alloc: Global, payload: &[u8]) -> Result<(), KeptFault>
        ensures { (arrival : Arrival) → completion_in arrival.id ≡ None → payload.now ≡ notification_payload arrival → SignalFits arrival.id
            → ReadsKept (λ _. IsPut (first_state self.old) arrival.id (await_state_of arrival.result) (first_state self.new)) result }
    {
        let listed = Payload::new(payload);
        match both_fields(listed.fields()) {
            Some((named, brought)) => self.put_named(alloc, named.value, state_by(brought.number)),
            None => Err(KeptFault::Foreign),
        }
    }

    /// One more arrival, by the completion that it answers and its payload. Nothing of what it carries is copied.
    pub fn hear_kept(
        &mut self,
        alloc: Global,
        answered: Option<u32>,
        payload: &[u8],
    ) -> Result<(), KeptFault>
        ensures { (arrival : Arrival) → answered ≡ completion_in arrival.id → payload.now ≡ notification_payload arrival → SignalFits arrival.id
            → ReadsKept (λ _. IsPut (first_state self.old) arrival.id (await_state_of arrival.result) (first_state self.new)) result }
    {
        match answered {
            Some(number) => self.hear_completion(number, payload),
            None => self.hear_signal(alloc, payload),
        }
    }
}
