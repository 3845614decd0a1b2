// An awaited future as a flat vector, with the leaves of each id.
ghost use Rattle.std.specs.Prelude.{◌≡◌, ◌≤◌, IfOk, OnOk};
ghost use Rattle.std.specs.Option.{ForSome};
ghost use Rattle.journal_model.specs.declared.notification.NotificationId.{NotificationId};
ghost use Rattle.journal_model.specs.AwaitTree.{Pending};
ghost use Rattle.journal_model.specs.Future.{tree_of};
ghost use Rattle.attempt_model.specs.Results.{handle_state};
ghost use Rattle.vm_flat_trees.specs.SleepingTree.{has_woken, awaited_over, delivered, ways_for, still_waits};
ghost use Rattle.vm_flat_trees.specs.Counts.{state_meant};
ghost use Rattle.vm_awaits.specs.ReadyViews.{ready_in};
ghost use Rattle.vm_awaits.specs.Ids.{FindsLeaves, leaves_in, with_node};

use crate::growing::nodes_of;
use crate::ids::IdLeaves;
use crate::telling::tell_leaves;
use crate::{ReadyNotifications, id_for};
use journal_model::{NotificationHandle, NotificationId, UnresolvedFuture};
use protocol_trees::AwaitState;
use std::alloc::{AllocError, Global};
use std::marker::Model;
use vm_flat_trees::awake::is_awake_now;
use vm_flat_trees::climbing::is_completed;
use vm_flat_trees::left::left;
use vm_flat_trees::node::{FlatNode, Kind};

// From so many nodes on a map is made of where the leaves of each id stand.
const MANY: usize = 16;

/// An awaited future as a vector of nodes in preorder, each with the counts of its children.
///
/// A contract sees the tree that sleeps, whose leaves tell what they stand for and what has come of them; of a tree that is awake it
/// sees nothing more. The first delivery finds its leaves by a pass over the nodes. Before a second one a map from an id to its leaves
/// is made, where the nodes are many. A delivery needs no memory: where there is none for the map, it passes over the nodes too.
#[derive(Drop)]
pub struct FlatTree<'a> {
    slots: &'a [Option<NotificationId>],
    nodes: Vec<FlatNode>,
    leaves: Option<IdLeaves>,
    is_told: bool,
    is_awake: bool,
}

impl<'a> Model for FlatTree<'a> {
    ghost use Rattle.vm_flat_trees.specs.SleepingTree.{Awaited, awaited_in};
    ghost use Rattle.vm_flat_trees.specs.AwaitedCode.{awaited_code};

    ghost Value = { Awaited };

    ghost coded = { awaited_code };

    ghost use Rattle.vm_awaits.specs.Awaits.{AwaitsSome};

    ghost view = { λ flat. awaited_in flat.slots.now flat.nodes.items flat.is_awake };

    ghost invariant = { λ flat. AwaitsSome flat.slots.now flat.nodes.items flat.leaves flat.is_awake };
}

// One node more.
fn add_node(
    alloc: Global,
    leaves: &mut IdLeaves,
    slots: &[Option<NotificationId>],
    kind: Kind,
    place: usize,
) -> Result<(), AllocError>
    ensures { OnOk result ((id : NotificationId) → leaves_in leaves.new id ≡ with_node slots.now kind place (leaves_in leaves.old) id) }
{
    match kind {
        Kind::Leaf(handle) => match id_for(slots, NotificationHandle::new(handle)) {
            Some(id) => leaves.add(alloc, id, place),
            None => Ok(()),
        },
        _ => Ok(()),
    }
}

// Where the leaves of each id stand.
fn leaves_of(
    alloc: Global,
    slots: &[Option<NotificationId>],
    nodes: &[FlatNode],
) -> Result<IdLeaves, AllocError>
    ensures { IfOk result (FindsLeaves slots.now nodes.now) }
{
    let mut leaves = IdLeaves::new(alloc);
    for place in 0..nodes.len() {
        add_node(alloc, &mut leaves, slots, nodes[place].kind, place)?;
    }
    Ok(leaves)
}

// Before a second delivery, makes the map from an id to its leaves, where the nodes are many and there is memory for it.
fn look_up(
    alloc: Global,
    leaves: &mut Option<IdLeaves>,
    is_told: bool,
    slots: &[Option<NotificationId>],
    nodes: &[FlatNode],
)
    ensures { ForSome leaves.old (FindsLeaves slots.now nodes.now) → ForSome leaves.new (FindsLeaves slots.now nodes.now) }
{
    if !is_told || leaves.is_some() || nodes.len() < MANY {
        return;
    }
    if let Ok(found) = leaves_of(alloc, slots, nodes) {
        drop(leaves.replace(found));
    }
}

impl<'a> FlatTree<'a> {
    /// The future, over what its handles stand for, with what waits to be taken of it.
    pub fn new(
        alloc: Global,
        slots: &'a [Option<NotificationId>],
        ready: &ReadyNotifications,
        future: &UnresolvedFuture,
    ) -> Result<FlatTree<'a>, AllocError>
        ensures { IfOk result (λ flat. flat ≡ awaited_over slots.now (handle_state slots.now (ready_in ready.now)) (tree_of future.now)) }
    {
        let nodes = nodes_of(alloc, slots, ready, future)?;
        let is_awake = is_awake_now(nodes.as_slice());
        Ok(FlatTree {
            slots,
            nodes,
            leaves: None,
            is_told: false,
            is_awake,
        })
    }

    /// Whether it is awake: it is completed, or a child has ended some node of it at once.
    pub fn is_awake(&self) -> bool
        ensures { result ≡ has_woken self.now }
    {
        self.is_awake
    }

    /// Tells all leaves of an id what has come. One that was completed before keeps what it came to. It answers how many nodes were
    /// visited on the way up from the leaves. The pass over all nodes that finds the leaves is not counted: there is one in each delivery to
    /// a tree of few nodes, in the first one to any tree, and in each where there is no memory for the map.
    pub fn deliver(&mut self, id: &NotificationId, state: AwaitState) -> u128
        ensures heard { self.new ≡ delivered id.now (state_meant state) self.old }
        ensures visits { result ≤ ways_for id.now self.old }
        ensures pending { state_meant state ≡ Pending → result ≡ 0 }
    {
        if self.is_awake {
            return 0;
        }
        if !is_completed(state) {
            return 0;
        }
        look_up(
            *self.nodes.allocator(),
            &mut self.leaves,
            self.is_told,
            self.slots,
            self.nodes.as_slice(),
        );
        let told = tell_leaves(
            &self.leaves,
            self.slots,
            self.nodes.as_mut_slice(),
            id,
            state,
        );
        self.is_told = true;
        self.is_awake = told.is_awake;
        told.visits
    }

    /// What it still waits for, where it isn't awake: what is completed is left out.
    pub fn left(&self, alloc: Global) -> Result<UnresolvedFuture, AllocError>
        ensures { IfOk result (λ left. ForSome self.now (λ tree. tree_of left ≡ still_waits tree)) }
    {
        left(alloc, self.nodes.as_slice())
    }
}
