// The way from a leaf to the root.
ghost use Rattle.std.specs.Prelude.{◌≡◌, ◌<◌, ◌≤◌, ◌||◌, ◌^◌, ◌+◌, true, not, ℕ, length, [], ◌∷◌, Some};
ghost use Rattle.journal_model.specs.AwaitTree.{is_completed};
ghost use Rattle.vm_flat_trees.specs.Counts.{state_meant, counts_of};
ghost use Rattle.vm_flat_trees.specs.ChildCounts.{moved, visited, come_to, IsWay};
ghost use Rattle.vm_flat_trees.specs.LeafDelivery.{IsPendingLeaf, Sleeps, Climbs, ChangesNode, HasRoom};

use crate::node::{Counts, FlatNode, is_ended, state_by};
use protocol_trees::AwaitState;

/// What a delivery to one leaf came to.
#[derive(Clone, Copy)]
pub struct Climbed {
    pub visits: u128,
    pub is_awake: bool,
}

fn moved(counts: Counts, came: AwaitState) -> Counts
    requires pending { 0 < counts.pending }
    requires succeeded { counts.succeeded < 2 ^ 63 }
    requires failed { counts.failed < 2 ^ 63 }
    ensures { result ≡ moved (state_meant came) counts }
{
    match came {
        AwaitState::Pending => counts,
        AwaitState::Succeeded => Counts {
            pending: counts.pending - 1,
            succeeded: counts.succeeded + 1,
            failed: counts.failed,
        },
        AwaitState::Failed => Counts {
            pending: counts.pending - 1,
            succeeded: counts.succeeded,
            failed: counts.failed + 1,
        },
    }
}

pub fn leaf_counts(state: AwaitState) -> Counts
    ensures { result ≡ counts_of (state_meant state ∷ []) }
{
    match state {
        AwaitState::Pending => Counts {
            pending: 1,
            succeeded: 0,
            failed: 0,
        },
        AwaitState::Succeeded => Counts {
            pending: 0,
            succeeded: 1,
            failed: 0,
        },
        AwaitState::Failed => Counts {
            pending: 0,
            succeeded: 0,
            failed: 1,
        },
    }
}

// The leaf at this place has come to this.
fn complete(nodes: &mut [FlatNode], place: usize, state: AwaitState) -> FlatNode
    requires { place < length nodes.old }
    ensures { ChangesNode (come_to (state_meant state)) nodes.old place nodes.new result }
{
    let before = nodes[place];
    let node = FlatNode {
        kind: before.kind,
        parent: before.parent,
        counts: leaf_counts(state),
    };
    nodes[place] = node;
    node
}

// The node at this place hears what a child has come to.
fn visit(nodes: &mut [FlatNode], place: usize, came: AwaitState) -> FlatNode
    requires within { place < length nodes.old }
    requires room { HasRoom nodes.old place }
    ensures { ChangesNode (visited (state_meant came)) nodes.old place nodes.new result }
{
    let before = nodes[place];
    let node = FlatNode {
        kind: before.kind,
        parent: before.parent,
        counts: moved(before.counts, came),
    };
    nodes[place] = node;
    node
}

pub fn is_completed(state: AwaitState) -> bool
    ensures { result ≡ is_completed (state_meant state) }
{
    !matches!(state, AwaitState::Pending)
}

fn either(one: bool, other: bool) -> bool
    ensures { result ≡ (one || other) }
{
    if one { true } else { other }
}

/// Tells a leaf that waits what it has come to, and then each node on the way to the root, as far as what is below it is completed.
pub fn climb(nodes: &mut [FlatNode], leaf: usize, state: AwaitState) -> Climbed
    requires sleeps { Sleeps nodes.old }
    requires leaf { IsPendingLeaf nodes.old leaf }
    requires state { is_completed (state_meant state) ≡ true }
    ensures climbs { Climbs (state_meant state) nodes.old leaf nodes.new result.is_awake }
    ensures visits { (many : ℕ) → IsWay nodes.old (Some leaf) many → result.visits ≤ many }
    ensures small { result.visits ≤ leaf + 1 }
{
    let first = complete(nodes, leaf, state);
    let mut came = state;
    let mut next = first.parent;
    let mut visits = 1u128;
    let mut is_awake = false;
    'climbing: loop {
        let Some(place) = next else {
            return Climbed {
                visits,
                is_awake: true,
            };
        };
        let node = visit(nodes, place, came);
        visits += 1;
        is_awake = either(is_awake, is_ended(node.kind, node.counts));
        came = state_by(node.kind, node.counts);
        next = node.parent;
        if !is_completed(came) {
            return Climbed { visits, is_awake };
        }
    }
}
