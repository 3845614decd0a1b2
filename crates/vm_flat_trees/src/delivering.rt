// A delivery to all leaves of one id.
ghost use Rattle.std.specs.Prelude.{◌≡◌, true};
ghost use Rattle.journal_model.specs.AwaitTree.{is_completed};
ghost use Rattle.vm_flat_trees.specs.Counts.{state_meant};
ghost use Rattle.vm_flat_trees.specs.LeafDelivery.{Sleeps};
ghost use Rattle.vm_flat_trees.specs.NotificationDelivery.{CanHearOf, Delivers, IsLeafAt, TellsOne};

use crate::climbing::{Climbed, climb, is_completed};
use crate::node::{FlatNode, state_by};
use protocol_trees::AwaitState;

/// Tells one leaf. One that was completed before stays as it is.
pub fn tell(nodes: &mut [FlatNode], place: usize, state: AwaitState) -> Climbed
    requires sleeps { Sleeps nodes.old }
    requires leaf { IsLeafAt nodes.old place }
    requires state { is_completed (state_meant state) ≡ true }
    ensures { TellsOne (state_meant state) nodes.old place nodes.new result.is_awake result.visits }
{
    let node = nodes[place];
    if is_completed(state_by(node.kind, node.counts)) {
        return Climbed {
            visits: 1,
            is_awake: false,
        };
    }
    climb(nodes, place, state)
}

/// Tells all leaves of an id, which stand at these places, what has come, as far as the tree sleeps. It answers how many nodes were
/// visited, and whether the tree is awake.
pub fn deliver_to(nodes: &mut [FlatNode], places: &[usize], state: AwaitState) -> Climbed
    requires hears { CanHearOf nodes.old places.now }
    requires state { is_completed (state_meant state) ≡ true }
    ensures { Delivers nodes.old places.now (state_meant state) nodes.new result.is_awake result.visits }
{
    let mut visits = 0u128;
    for place in places {
        let told = tell(nodes, *place, state);
        visits += told.visits;
        if told.is_awake {
            return Climbed {
                visits,
                is_awake: true,
            };
        }
    }
    Climbed {
        visits,
        is_awake: false,
    }
}
