// The leaves of an id are told what has come.
ghost use Rattle.std.specs.Prelude.{◌≡◌, true};
ghost use Rattle.std.specs.Option.{ForSome};
ghost use Rattle.protocol_trees.specs.Future.{id_meant};
ghost use Rattle.journal_model.specs.AwaitTree.{is_completed};
ghost use Rattle.journal_model.specs.Notification.{same_id};
ghost use Rattle.vm_flat_trees.specs.NotificationRecipients.{waits_for};
ghost use Rattle.vm_flat_trees.specs.Counts.{state_meant};
ghost use Rattle.vm_flat_trees.specs.NotificationDelivery.{CanHearOf, Delivers};
ghost use Rattle.vm_flat_trees.specs.Places.{places_where};
ghost use Rattle.vm_awaits.specs.Ids.{FindsLeaves, passes};

use crate::id_for;
use crate::ids::IdLeaves;
use journal_model::{NotificationHandle, NotificationId};
use protocol_trees::{AwaitState, NotificationIdRef};
use vm_flat_trees::climbing::Climbed;
use vm_flat_trees::delivering::{deliver_to, tell};
use vm_flat_trees::node::{FlatNode, Kind};

fn is_same(id: &NotificationId, other: NotificationIdRef<'_>) -> bool
    ensures { result ≡ same_id id.now (id_meant other.entry) }
{
    match id {
        NotificationId::CompletionId(own) => match other {
            NotificationIdRef::CompletionId(number) => *own == number,
            _ => false,
        },
        NotificationId::SignalId(own) => match other {
            NotificationIdRef::SignalId(number) => *own == number,
            _ => false,
        },
        NotificationId::SignalName(own) => match other {
            NotificationIdRef::SignalName(name) => own == name,
            _ => false,
        },
    }
}

// Whether a node is a leaf of an id.
fn is_for(slots: &[Option<NotificationId>], kind: Kind, id: &NotificationId) -> bool
    ensures { result ≡ passes (waits_for slots.now id.now) kind }
{
    match kind {
        Kind::Leaf(handle) => match id_for(slots, NotificationHandle::new(handle)) {
            Some(other) => is_same(id, other),
            None => false,
        },
        _ => false,
    }
}

// Tells the leaves of an id, which are found by a pass over the nodes, as far as the tree sleeps.
fn tell_in_passing(
    slots: &[Option<NotificationId>],
    nodes: &mut [FlatNode],
    id: &NotificationId,
    state: AwaitState,
) -> Climbed
    requires hears { CanHearOf nodes.old (places_where (waits_for slots.now id.now) 0 nodes.old) }
    requires state { is_completed (state_meant state) ≡ true }
    ensures { Delivers nodes.old (places_where (waits_for slots.now id.now) 0 nodes.old) (state_meant state) nodes.new result.is_awake result.visits }
{
    let mut visits = 0u128;
    for place in 0..nodes.len() {
        if is_for(slots, nodes[place].kind, id) {
            let told = tell(nodes, place, state);
            visits += told.visits;
            if told.is_awake {
                return Climbed {
                    visits,
                    is_awake: true,
                };
            }
        }
    }
    Climbed {
        visits,
        is_awake: false,
    }
}

/// Tells the leaves of an id, by the map where there is one, as far as the tree sleeps.
pub(crate) fn tell_leaves(
    leaves: &Option<IdLeaves>,
    slots: &[Option<NotificationId>],
    nodes: &mut [FlatNode],
    id: &NotificationId,
    state: AwaitState,
) -> Climbed
    requires hears { CanHearOf nodes.old (places_where (waits_for slots.now id.now) 0 nodes.old) }
    requires finds { ForSome leaves.now (FindsLeaves slots.now nodes.old) }
    requires state { is_completed (state_meant state) ≡ true }
    ensures { Delivers nodes.old (places_where (waits_for slots.now id.now) 0 nodes.old) (state_meant state) nodes.new result.is_awake result.visits }
{
    match leaves {
        Some(leaves) => deliver_to(nodes, leaves.at(id), state),
        None => tell_in_passing(slots, nodes, id, state),
    }
}
