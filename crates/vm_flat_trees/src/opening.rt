// A future by its root.
ghost use Rattle.std.specs.Prelude.{◌≡◌};
ghost use Rattle.journal_model.specs.Future.{tree_of};
ghost use Rattle.vm_flat_trees.specs.FutureRoots.{opened_tree, IsInner};

use crate::node::Kind;
use journal_model::{NotificationHandle, UnresolvedFuture};

/// A future, opened at its root.
#[derive(Clone, Copy)]
pub enum Opened<'a> {
    Leaf(NotificationHandle),
    Node(Kind, &'a [UnresolvedFuture]),
}

/// Opens a future at its root.
#[tactic(auto, using(journal_model::proofs::TreeLemmas::future_trees))]
pub fn open(future: &UnresolvedFuture) -> Opened<'_>
    ensures tree { tree_of future.now ≡ opened_tree result }
    ensures inner { IsInner result }
{
    match future {
        UnresolvedFuture::Single(handle) => Opened::Leaf(*handle),
        UnresolvedFuture::Unknown(children) => Opened::Node(Kind::Unknown, children.as_slice()),
        UnresolvedFuture::FirstCompleted(children) => {
            Opened::Node(Kind::FirstCompleted, children.as_slice())
        }
        UnresolvedFuture::AllCompleted(children) => {
            Opened::Node(Kind::AllCompleted, children.as_slice())
        }
        UnresolvedFuture::FirstSucceededOrAllFailed(children) => Opened::Node(
            Kind::FirstSucceededOrAllFailed,
            children.as_slice(),
        ),
        UnresolvedFuture::AllSucceededOrFirstFailed(children) => Opened::Node(
            Kind::AllSucceededOrFirstFailed,
            children.as_slice(),
        ),
        UnresolvedFuture::AtLeast(required, children) => Opened::Node(
            Kind::AtLeast(*required),
            children.as_slice(),
        ),
    }
}
