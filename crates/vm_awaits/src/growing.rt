// The flat vector of a future, with what waits for its leaves.
ghost use Rattle.std.specs.Prelude.{◌≡◌, ◌++◌, length, IfOk, OnOk};
ghost use Rattle.journal_model.specs.Future.{tree_of};
ghost use Rattle.vm_flat_trees.specs.Counts.{state_meant};
ghost use Rattle.vm_flat_trees.specs.Flat.{flat_at, flat_of, reckoned};
ghost use Rattle.attempt_model.specs.Results.{handle_state};
ghost use Rattle.vm_awaits.specs.ReadyViews.{ready_in};

use crate::{ReadyNotifications, state_for};
use journal_model::{NotificationId, UnresolvedFuture};
use protocol_trees::AwaitState;
use std::alloc::{AllocError, Global};
use vm_flat_trees::climbing::leaf_counts;
use vm_flat_trees::node::{FlatNode, Kind, counted, no_counts, state_by};
use vm_flat_trees::opening::{Opened, open};

// Puts the nodes of a future behind others, and answers what it has come to.
fn build(
    nodes: &mut Vec<FlatNode>,
    slots: &[Option<NotificationId>],
    ready: &ReadyNotifications,
    future: &UnresolvedFuture,
    parent: Option<usize>,
) -> Result<AwaitState, AllocError>
    ensures nodes { OnOk result (nodes.new.items ≡ nodes.old.items ++ flat_at (λ handle. handle) (handle_state slots.now (ready_in ready.now)) (length nodes.old.items) parent (tree_of future.now)) }
    ensures state { IfOk result (λ state. state_meant state ≡ reckoned (tree_of future.now) (handle_state slots.now (ready_in ready.now))) }
{
    match open(future) {
        Opened::Leaf(handle) => {
            let state = state_for(slots, ready, handle);
            nodes.push(FlatNode {
                kind: Kind::Leaf(handle.number()),
                parent,
                counts: leaf_counts(state),
            })?;
            Ok(state)
        }
        Opened::Node(kind, children) => {
            let place = nodes.len();
            nodes.push(FlatNode {
                kind,
                parent,
                counts: no_counts(),
            })?;
            let mut counts = no_counts();
            for child in children {
                let state = build(nodes, slots, ready, child, Some(place))?;
                counts = counted(state, counts);
            }
            nodes[place] = FlatNode {
                kind,
                parent,
                counts,
            };
            Ok(state_by(kind, counts))
        }
    }
}

// How many nodes a future has at least: all, where it is a leaf or a node over leaves.
fn fewest_nodes(future: &UnresolvedFuture) -> usize {
    match open(future) {
        Opened::Leaf(_) => 1,
        Opened::Node(_, children) => 1 + children.len(),
    }
}

/// The nodes of a future, with what waits for its leaves.
pub(crate) fn nodes_of(
    alloc: Global,
    slots: &[Option<NotificationId>],
    ready: &ReadyNotifications,
    future: &UnresolvedFuture,
) -> Result<Vec<FlatNode>, AllocError>
    ensures { IfOk result (λ nodes. nodes.items ≡ flat_of (tree_of future.now) (handle_state slots.now (ready_in ready.now))) }
{
    let mut nodes = Vec::with_capacity(alloc, fewest_nodes(future))?;
    build(&mut nodes, slots, ready, future, None)?;
    Ok(nodes)
}
