// What was looked at and waits to be taken.
ghost use Rattle.std.specs.Prelude.{◌≡◌, ℕ, ◌∷◌, ◌++◌, [], drop, if◌then◌else◌, nat_eq, Some, OnOk, OnErr, IfErr, IsErrAnd};
ghost use Rattle.journal_model.specs.declared.notification.NotificationId.TheVariants.{CompletionId};
ghost use Rattle.std.specs.Option.{option_copied};
ghost use Rattle.indexmap.specs.IndexMap.{get};
ghost use Rattle.journal_model.specs.Options.{replaces};
ghost use Rattle.attempt_model.specs.Results.{first_waiting_result, ready_after, ready_without_first};
ghost use Rattle.vm_awaits.specs.ReadyViews.{items_of, ready_in, none_ready};

use bytes::ByteStr;
use indexmap::IndexMap;
use journal_model::{Notification, NotificationId, NotificationResult, SignalDelivery};
use std::alloc::{AllocFailed, Global};
use std::collections::VecDeque;
use std::hash::Hash;

/// Deliveries in the order in which they came.
type Deliveries = VecDeque<NotificationResult>;

/// What has come, was looked at and waits to be taken: of a completion its result, of a signal its deliveries in order.
///
/// A look-up takes the same time however much waits. Any number may be that of a completion, so they are kept by a map too.
#[derive(Debug, Drop)]
pub struct ReadyNotifications {
    alloc: Global,
    completions: IndexMap<u32, NotificationResult>,
    signals: IndexMap<u32, Deliveries>,
    names: IndexMap<ByteStr, Deliveries>,
}

fn replaces(delivery: SignalDelivery, id: &NotificationId) -> bool
    ensures { result ≡ replaces delivery id.now }
{
    match id {
        NotificationId::CompletionId(_) => true,
        _ => matches!(delivery, SignalDelivery::Overwrite),
    }
}

// There was no memory for a notification.
fn given_back(
    id: NotificationId,
    brought: NotificationResult,
) -> Result<(), AllocFailed<Notification>>
    ensures { IsErrAnd result (λ refused. refused.value ≡ record { id = id; result = brought }) }
{
    Err(AllocFailed {
        value: Notification {
            id,
            result: brought,
        },
    })
}

// The result of a completion, in place of one that waits.
fn push_completion(
    completions: &mut IndexMap<u32, NotificationResult>,
    number: u32,
    brought: NotificationResult,
) -> Result<(), AllocFailed<Notification>>
    ensures ok { OnOk result ((n : ℕ) → get nat_eq completions.new n ≡ (if nat_eq number n then Some brought else get nat_eq completions.old n)) }
    ensures value { IfErr result (λ refused. refused.value ≡ record { id = CompletionId number; result = brought }) }
    ensures err { OnErr result ((n : ℕ) → get nat_eq completions.new n ≡ get nat_eq completions.old n) }
{
    match completions.insert(number, brought) {
        Ok(earlier) => {
            drop(earlier);
            Ok(())
        }
        Err(refused) => {
            let (number, result) = refused.value;
            given_back(NotificationId::CompletionId(number), result)
        }
    }
}

// One more delivery of this key: alone, or behind those that wait.
fn push_delivery<K: Eq + Hash + Drop>(
    alloc: Global,
    all: &mut IndexMap<K, Deliveries>,
    replaces: bool,
    key: K,
    delivered: NotificationResult,
) -> Result<(), AllocFailed<(K, NotificationResult)>>
    ensures ok { OnOk result ((q : K) → items_of (get K.eq all.new q)
        ≡ (if K.eq key q then (if replaces then delivered ∷ [] else items_of (get K.eq all.old key) ++ delivered ∷ []) else items_of (get K.eq all.old q))) }
    ensures value { IfErr result (λ refused. refused.value ≡ (key, delivered)) }
    ensures err { OnErr result ((q : K) → items_of (get K.eq all.new q) ≡ items_of (get K.eq all.old q)) }
{
    if !replaces {
        if let Some(deliveries) = all.get_mut(&key) {
            return match deliveries.push_back(delivered) {
                Ok(()) => Ok(()),
                Err(refused) => Err(AllocFailed {
                    value: (key, refused.value),
                }),
            };
        }
    }
    if all.reserve(1).is_err() {
        return Err(AllocFailed {
            value: (key, delivered),
        });
    }
    let mut deliveries = VecDeque::new(alloc);
    match deliveries.push_back(delivered) {
        Ok(()) => {
            drop(all.insert(key, deliveries).unwrap());
            Ok(())
        }
        Err(refused) => Err(AllocFailed {
            value: (key, refused.value),
        }),
    }
}

// The first delivery of this key is taken; nothing is kept of a key of which none is left.
fn take_delivery<K: Eq + Hash + Drop>(
    all: &mut IndexMap<K, Deliveries>,
    key: &K,
) -> Option<NotificationResult>
    ensures value { result ≡ first_waiting_result (items_of (get K.eq all.old key.now)) }
    ensures rest { (q : K) → items_of (get K.eq all.new q)
        ≡ (if K.eq key.now q then drop 1 (items_of (get K.eq all.old key.now)) else items_of (get K.eq all.old q)) }
{
    let deliveries = all.get_mut(key)?;
    let first = deliveries.pop_front();
    if deliveries.is_empty() {
        drop(all.swap_remove(key));
    }
    first
}

impl ReadyNotifications {
    /// Nothing waits.
    pub fn new(alloc: Global) -> ReadyNotifications
        ensures { ready_in result ≡ none_ready }
    {
        ReadyNotifications {
            alloc,
            completions: IndexMap::new(alloc),
            signals: IndexMap::new(alloc),
            names: IndexMap::new(alloc),
        }
    }

    /// The first that waits of this id.
    pub fn first(&self, id: &NotificationId) -> Option<&NotificationResult>
        ensures { option_copied result ≡ first_waiting_result (ready_in self.now id.now) }
    {
        match id {
            NotificationId::CompletionId(number) => self.completions.get(number),
            NotificationId::SignalId(number) => self.signals.get(number)?.front(),
            NotificationId::SignalName(name) => self.names.get(name)?.front(),
        }
    }

    /// One more waits. Where there is no memory for it, it is given back.
    pub fn push(
        &mut self,
        delivery: SignalDelivery,
        notification: Notification,
    ) -> Result<(), AllocFailed<Notification>>
        ensures ok { OnOk result (ready_in self.new ≡ ready_after delivery (ready_in self.old) notification) }
        ensures value { IfErr result (λ refused. refused.value ≡ notification) }
        ensures err { OnErr result (ready_in self.new ≡ ready_in self.old) }
    {
        let replaces = replaces(delivery, &notification.id);
        let Notification { id, result } = notification;
        match id {
            NotificationId::CompletionId(number) => push_completion(
                &mut self.completions,
                number,
                result,
            ),
            NotificationId::SignalId(number) => {
                match push_delivery(self.alloc, &mut self.signals, replaces, number, result) {
                    Ok(()) => Ok(()),
                    Err(refused) => {
                        let (number, result) = refused.value;
                        given_back(NotificationId::SignalId(number), result)
                    }
                }
            }
            NotificationId::SignalName(name) => {
                match push_delivery(self.alloc, &mut self.names, replaces, name, result) {
                    Ok(()) => Ok(()),
                    Err(refused) => {
                        let (name, result) = refused.value;
                        given_back(NotificationId::SignalName(name), result)
                    }
                }
            }
        }
    }

    /// The first that waits of this id is taken.
    pub fn take(&mut self, id: &NotificationId) -> Option<NotificationResult>
        ensures value { result ≡ first_waiting_result (ready_in self.old id.now) }
        ensures rest { ready_in self.new ≡ ready_without_first (ready_in self.old) (Some id.now) }
    {
        match id {
            NotificationId::CompletionId(number) => self.completions.swap_remove(number),
            NotificationId::SignalId(number) => take_delivery(&mut self.signals, number),
            NotificationId::SignalName(name) => take_delivery(&mut self.names, name),
        }
    }
}
