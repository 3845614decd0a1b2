// The line of notifications that no await has looked at.
ghost use Rattle.std.specs.Prelude.{◌≡◌, ◌<◌, ◌+◌, ◌^◌, ℕ, [], ◌∷◌, ◌++◌, IfOk, OnOk, OnErr};
ghost use Rattle.std.specs.List.{list_any};
ghost use Rattle.std.specs.Option.{option_copied};
ghost use Rattle.journal_model.specs.Journal.{completes};
ghost use Rattle.vm_awaits.specs.Calls.{first_in, LooksAtOne};
ghost use Rattle.vm_awaits.specs.Lines.{completion_of, count_in, OneMore, OneFewer};
ghost use Rattle.vm_awaits.specs.ReadyViews.{ready_in};

use crate::ReadyNotifications;
use indexmap::IndexMap;
use journal_model::{Notification, NotificationId, SignalDelivery};
use std::alloc::{AllocError, Global};
use std::collections::VecDeque;
use std::marker::Model;

/// The notifications that no await has looked at, in their order.
///
/// Whether one of them is for a completion takes a look at its count, and not at all that stand in line.
#[derive(Debug, Drop)]
pub struct Line {
    notifications: VecDeque<Notification>,
    /// How many of them are for each completion.
    counts: IndexMap<u32, usize>,
}

impl Model for Line {
    ghost use Rattle.std.specs.Prelude.{List};
    ghost use Rattle.journal_model.specs.declared.notification.Notification.{Notification};
    ghost use Rattle.vm_awaits.specs.Lines.{Counts};

    ghost Value = { List Notification };

    ghost view = { λ line. line.notifications.items };

    ghost invariant = { λ line. Counts line.counts line.notifications.items };
}

// The completion that a notification is for, if it is for one.
fn completion_of(id: &NotificationId) -> Option<u32>
    ensures { result ≡ completion_of id.now }
{
    match id {
        NotificationId::CompletionId(number) => Some(*number),
        NotificationId::SignalId(_) | NotificationId::SignalName(_) => None,
    }
}

fn count_of(counts: &IndexMap<u32, usize>, completion: u32) -> usize
    ensures { result ≡ count_in counts.now completion }
{
    match counts.get(&completion) {
        Some(count) => *count,
        None => 0,
    }
}

// One more is for the completion, if there is one.
fn add_one(counts: &mut IndexMap<u32, usize>, completion: Option<u32>) -> Result<(), AllocError>
    requires fits { (n : ℕ) → count_in counts.old n + 1 < 2 ^ 64 }
    ensures ok { OnOk result (OneMore completion counts.old counts.new) }
    ensures err { OnErr result ((n : ℕ) → count_in counts.new n ≡ count_in counts.old n) }
{
    if let Some(number) = completion {
        let count = count_of(counts, number);
        counts.insert(number, count + 1)?;
    }
    Ok(())
}

// One fewer is.
fn take_one(counts: &mut IndexMap<u32, usize>, completion: Option<u32>)
    ensures { OneFewer completion counts.old counts.new }
{
    if let Some(number) = completion {
        if let Some(count) = counts.get_mut(&number) {
            if *count > 1 {
                *count -= 1;
                return;
            }
        }
        drop(counts.swap_remove(&number));
    }
}

impl Line {
    /// None stands in line.
    pub fn new(alloc: Global) -> Line
        ensures { result ≡ [] }
    {
        Line {
            notifications: VecDeque::new(alloc),
            counts: IndexMap::new(alloc),
        }
    }

    /// One more stands in line.
    pub fn push(&mut self, notification: Notification) -> Result<(), AllocError>
        ensures ok { OnOk result (self.new ≡ self.old ++ notification ∷ []) }
        ensures err { OnErr result (self.new ≡ self.old) }
    {
        self.notifications.reserve(1)?;
        add_one(&mut self.counts, completion_of(&notification.id))?;
        self.notifications.push_back_reserved(notification);
        Ok(())
    }

    /// The one that stands first.
    pub fn first(&self) -> Option<&Notification>
        ensures { option_copied result ≡ first_in self.now }
    {
        self.notifications.front()
    }

    /// Whether one is for this completion.
    pub fn has(&self, completion: u32) -> bool
        ensures { result ≡ list_any (completes completion) self.now }
    {
        count_of(&self.counts, completion) > 0
    }

    /// Looks at the one that stands first, if one does. Where there is no memory for it, it stands there still.
    pub fn look_at_one(
        &mut self,
        ready: &mut ReadyNotifications,
        delivery: SignalDelivery,
    ) -> Result<bool, AllocError>
        ensures ok { IfOk result (λ looked. LooksAtOne delivery looked self.old (ready_in ready.old) self.new (ready_in ready.new)) }
        ensures err { OnErr result ((self.new ≡ self.old) × (ready_in ready.new ≡ ready_in ready.old)) }
    {
        let Some(notification) = self.notifications.pop_front() else {
            return Ok(false);
        };
        let completion = completion_of(&notification.id);
        match ready.push(delivery, notification) {
            Ok(()) => {
                take_one(&mut self.counts, completion);
                Ok(true)
            }
            Err(refused) => {
                self.notifications.push_front_reserved(refused.value);
                Err(AllocError)
            }
        }
    }
}
