//! Whether what is awaited names one of some arrivals.

ghost use Rattle.std.specs.Prelude.{◌≡◌, List};
ghost use Rattle.journal_model.specs.Notification.{Arrival};
ghost use Rattle.journal_model.specs.AwaitTree.{is_completed};
ghost use Rattle.protocol_trees.specs.Shape.{state_meant};
ghost use Rattle.protocol_trees.specs.Future.{future_tree};
ghost use Rattle.store_frames.specs.First.{AreFirst};
ghost use Rattle.store_arrivals.specs.NamedArrivals.{names_any};

use protocol_records::Future;
use protocol_trees::{AwaitState, AwaitTree};
use store_frames::FirstArrivals;

/// Whether an id of this state is that of an arrival.
fn has_come(state: AwaitState) -> bool
    ensures { result ≡ is_completed (state_meant state) }
{
    !matches!(state, AwaitState::Pending)
}

/// Whether a leaf of a future's tree is the id of one of these arrivals.
pub(crate) fn names_any(awaited: &Future, first: &FirstArrivals) -> bool
    ensures { (arrivals : List Arrival) → AreFirst first.now arrivals → result ≡ names_any arrivals (future_tree awaited.now) }
{
    for index in 0..awaited.leaf_count() {
        if has_come(first.state(awaited.leaf(index))) {
            return true;
        }
    }
    for place in 0..awaited.child_count() {
        if names_any(awaited.child(place), first) {
            return true;
        }
    }
    false
}
