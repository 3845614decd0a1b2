//! What has come of each id: of each the first.

ghost use Rattle.std.specs.Prelude.{◌≡◌, ◌++◌, ◌∷◌, [], List, ℕ, if◌then◌else◌, Some, unwrap_or, OnOk};
ghost use Rattle.std.specs.Option.{option_copied};
ghost use Rattle.indexmap.specs.IndexMap.{get};
ghost use Rattle.journal_model.specs.Notification.{Arrival};
ghost use Rattle.journal_model.specs.declared.notification.NotificationId.TheVariants as ids;
ghost use Rattle.protocol_trees.specs.Future.{id_meant};
ghost use Rattle.store_frames.specs.First.{AreFirst, IsPut, first_state, or_pending, await_state_of};

use bytes::Bytes;
use indexmap::IndexMap;
use journal_model::{Notification, NotificationId, NotificationResult};
use protocol_trees::{AwaitState, NotificationIdRef};
use std::alloc::{AllocError, Global};
use std::hash::Hash;

/// Whether the first arrival of each id succeeded or failed. A look-up takes the same time however many have come.
#[derive(Debug, Drop)]
pub struct FirstArrivals {
    alloc: Global,
    completions: IndexMap<u32, AwaitState>,
    signals: IndexMap<u32, AwaitState>,
    names: IndexMap<Bytes, AwaitState>,
}

/// What a result comes to: all but a failure succeed.
fn state_of(brought: &NotificationResult) -> AwaitState
    ensures { result ≡ await_state_of brought.now }
{
    match brought {
        NotificationResult::Failure(_) => AwaitState::Failed,
        _ => AwaitState::Succeeded,
    }
}

/// The state of a key that has none so far.
fn put_first<K: Eq + Hash + Drop>(
    all: &mut IndexMap<K, AwaitState>,
    key: K,
    state: AwaitState,
) -> Result<(), AllocError>
    ensures { OnOk result ((q : K) → get K.eq all.new q ≡ (if K.eq key q then Some (unwrap_or (get K.eq all.old key) state) else get K.eq all.old q)) }
{
    if all.contains_key(&key) {
        return Ok(());
    }
    match all.insert(key, state) {
        Ok(_) => Ok(()),
        Err(refused) => {
            let (key, _) = refused.value;
            drop(key);
            Err(AllocError)
        }
    }
}

fn or_pending(found: Option<&AwaitState>) -> AwaitState
    ensures { result ≡ or_pending (option_copied found.entry) }
{
    match found {
        Some(state) => *state,
        None => AwaitState::Pending,
    }
}

impl FirstArrivals {
    /// Nothing has come.
    pub fn new(alloc: Global) -> FirstArrivals
        ensures { AreFirst result [] }
    {
        FirstArrivals {
            alloc,
            completions: IndexMap::new(alloc),
            signals: IndexMap::new(alloc),
            names: IndexMap::new(alloc),
        }
    }

    /// The arrival of this completion came to this, where it is the first.
    pub(crate) fn put_completion(
        &mut self,
        number: u32,
        state: AwaitState,
    ) -> Result<(), AllocError>
        ensures { OnOk result (IsPut (first_state self.old) (ids.CompletionId number) state (first_state self.new)) }
    {
        put_first(&mut self.completions, number, state)
    }

    pub(crate) fn put_signal(&mut self, number: u32, state: AwaitState) -> Result<(), AllocError>
        ensures { OnOk result (IsPut (first_state self.old) (ids.SignalId number) state (first_state self.new)) }
    {
        put_first(&mut self.signals, number, state)
    }

    pub(crate) fn put_name(&mut self, name: Bytes, state: AwaitState) -> Result<(), AllocError>
        ensures { OnOk result (IsPut (first_state self.old) (ids.SignalName name) state (first_state self.new)) }
    {
        put_first(&mut self.names, name, state)
    }

    fn hear(&mut self, arrival: &Notification) -> Result<(), AllocError>
        ensures { OnOk result (IsPut (first_state self.old) arrival.now.id (await_state_of arrival.now.result) (first_state self.new)) }
    {
        let state = state_of(&arrival.result);
        match &arrival.id {
            NotificationId::CompletionId(number) => self.put_completion(*number, state),
            NotificationId::SignalId(number) => self.put_signal(*number, state),
            NotificationId::SignalName(name) => self.put_name(name.as_bytes().clone()?, state),
        }
    }

    /// These come behind others.
    pub fn hear_all(&mut self, arrivals: &[Notification]) -> Result<(), AllocError>
        ensures { (before : List Arrival) → AreFirst self.old before → OnOk result (AreFirst self.new (before ++ arrivals.now)) }
    {
        for arrival in arrivals {
            self.hear(arrival)?;
        }
        Ok(())
    }

    /// What has come of an id.
    pub fn state(&self, id: NotificationIdRef<'_>) -> AwaitState
        ensures { result ≡ or_pending (first_state self.now (id_meant id.entry)) }
    {
        match id {
            NotificationIdRef::CompletionId(number) => or_pending(self.completions.get(&number)),
            NotificationIdRef::SignalId(number) => or_pending(self.signals.get(&number)),
            NotificationIdRef::SignalName(name) => or_pending(self.names.get(name.as_bytes())),
        }
    }
}
