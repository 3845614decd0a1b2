// The record of what a future waits for, over the ids that its handles stand for.
ghost use Rattle.std.specs.Prelude.{◌≡◌, ◌-◌, min, OnOk, IfOk};
ghost use Rattle.journal_model.specs.Future.{tree_of};
ghost use Rattle.journal_model.specs.PrunedTrees.{asking_of, only_leaves};
ghost use Rattle.protocol_stream.specs.Records.{future_node, future_record};
ghost use Rattle.protocol_trees.specs.Future.{id_meant};
ghost use Rattle.attempt_model.specs.Results.{slot_of};
ghost use Rattle.vm_awaits.specs.Records.{count_of, no_node, with_id, with_leaf, with_nested};
ghost use Rattle.vm_awaits.specs.Trees.{combinator_meant};

use crate::id_for;
use crate::tree::{Combinator, Opened, open, record_combinator, required_by};
use bytes::ByteStr;
use journal_model::{NotificationHandle, NotificationId, UnresolvedFuture};
use protocol_records::{CombinatorType, Future};
use protocol_trees::NotificationIdRef;
use sequence::Sequence;
use std::alloc::{AllocError, Global};

// What stands in a node: the ids of its leaves, by their kinds, and the records of the nodes in it.
#[derive(Drop)]
struct NodeParts {
    completions: Sequence<u32>,
    signals: Sequence<u32>,
    names: Sequence<ByteStr>,
    nested: Sequence<Future>,
}

impl NodeParts {
    fn new(alloc: Global) -> NodeParts
        ensures { result ≡ no_node }
    {
        NodeParts {
            completions: Sequence::new(alloc),
            signals: Sequence::new(alloc),
            names: Sequence::new(alloc),
            nested: Sequence::new(alloc),
        }
    }

    // One leaf more.
    fn push_id(&mut self, id: NotificationIdRef<'_>) -> Result<(), AllocError>
        ensures { OnOk result (self.new ≡ with_id (id_meant id.entry) self.old) }
    {
        match id {
            NotificationIdRef::CompletionId(number) => self.completions.push(number),
            NotificationIdRef::SignalId(number) => self.signals.push(number),
            NotificationIdRef::SignalName(name) => self.names.push(name.clone()?),
        }
    }

    // One handle more. One that stands for nothing is left out.
    fn push_leaf(
        &mut self,
        slots: &[Option<NotificationId>],
        handle: NotificationHandle,
    ) -> Result<(), AllocError>
        ensures { OnOk result (self.new ≡ with_leaf (slot_of slots.now handle) self.old) }
    {
        match id_for(slots, handle) {
            Some(id) => self.push_id(id),
            None => Ok(()),
        }
    }

    // One node more.
    fn push_nested(&mut self, future: Future) -> Result<(), AllocError>
        ensures { OnOk result (self.new ≡ with_nested future self.old) }
    {
        self.nested.push(future)
    }

    // How many leaves and nodes stand in it.
    fn count(&self) -> u128
        ensures { result ≡ count_of self.now }
    {
        self.completions.len() as u128
            + self.signals.len() as u128
            + self.names.len() as u128
            + self.nested.len() as u128
    }

    fn into_future(self, combinator_type: CombinatorType, required: u32) -> Future
        ensures { result ≡ future_node self.completions self.signals self.names self.nested combinator_type required }
    {
        let NodeParts {
            completions,
            signals,
            names,
            nested,
        } = self;
        Future {
            waiting_completions: completions,
            waiting_signals: signals,
            waiting_named_signals: names,
            nested_futures: nested,
            combinator_type,
            required,
        }
    }
}

// At most so many.
fn at_most(number: u32, left: u128) -> u32
    ensures { result ≡ min number left }
{
    match u32::try_from(left) {
        Ok(left) => number.min(left),
        Err(_) => number,
    }
}

// So many less, or none.
fn less(number: u32, out: u128) -> u32
    ensures { result ≡ number - out }
{
    match u32::try_from(out) {
        Ok(out) => number.saturating_sub(out),
        Err(_) => 0,
    }
}

// How a node of so many children combines those that are left: a number of successes is lowered to what is left.
fn asking_of(combinator: Combinator, count: usize, left: u128) -> Combinator
    ensures { combinator_meant result ≡ asking_of (combinator_meant combinator) count left }
{
    match combinator {
        Combinator::AtLeast(required) => {
            let out = (count as u128).saturating_sub(left);
            Combinator::AtLeast(at_most(required, left).max(less(required, out)))
        }
        other => other,
    }
}

/// The record of a future over the ids that its handles stand for. A single leaf is a first-completed node of it, and a number of successes
/// is lowered where a leaf stands for none.
pub(crate) fn record_of(
    alloc: Global,
    slots: &[Option<NotificationId>],
    future: &UnresolvedFuture,
) -> Result<Future, AllocError>
    ensures { IfOk result (λ told. told ≡ future_record (only_leaves (slot_of slots.now) (tree_of future.now))) }
{
    let mut parts = NodeParts::new(alloc);
    match open(future) {
        Opened::Leaf(handle) => {
            parts.push_leaf(slots, handle)?;
            Ok(parts.into_future(CombinatorType::FirstCompleted, 0))
        }
        Opened::Node(combinator, children) => {
            for child in children {
                match open(child) {
                    Opened::Leaf(handle) => parts.push_leaf(slots, handle)?,
                    Opened::Node(_, _) => parts.push_nested(record_of(alloc, slots, child)?)?,
                }
            }
            let asking = asking_of(combinator, children.len(), parts.count());
            Ok(parts.into_future(record_combinator(asking), required_by(asking)))
        }
    }
}
