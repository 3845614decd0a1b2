// A future by its root.
ghost use Rattle.std.specs.Prelude.{◌≡◌};
ghost use Rattle.journal_model.specs.Future.{tree_of};
ghost use Rattle.journal_model.specs.Spelling.{required_by};
ghost use Rattle.protocol_stream.specs.Records.{combinator_record};
ghost use Rattle.vm_awaits.specs.Trees.{combinator_meant, opened_tree};

use journal_model::{NotificationHandle, UnresolvedFuture};
use protocol_records::CombinatorType;

/// How a node combines its children.
#[derive(Clone, Copy, Debug)]
pub enum Combinator {
    Unknown,
    FirstCompleted,
    AllCompleted,
    FirstSucceededOrAllFailed,
    AllSucceededOrFirstFailed,
    AtLeast(u32),
}

/// A future, opened at its root.
#[derive(Clone, Copy)]
pub enum Opened<'a> {
    Leaf(NotificationHandle),
    Node(Combinator, &'a [UnresolvedFuture]),
}

/// Opens a future at its root.
#[tactic(auto, using(journal_model::proofs::TreeLemmas::future_trees))]
pub fn open(future: &UnresolvedFuture) -> Opened<'_>
    ensures { tree_of future.now ≡ opened_tree result }
{
    match future {
        UnresolvedFuture::Single(handle) => Opened::Leaf(*handle),
        UnresolvedFuture::Unknown(children) => Opened::Node(
            Combinator::Unknown,
            children.as_slice(),
        ),
        UnresolvedFuture::FirstCompleted(children) => Opened::Node(
            Combinator::FirstCompleted,
            children.as_slice(),
        ),
        UnresolvedFuture::AllCompleted(children) => Opened::Node(
            Combinator::AllCompleted,
            children.as_slice(),
        ),
        UnresolvedFuture::FirstSucceededOrAllFailed(children) => Opened::Node(
            Combinator::FirstSucceededOrAllFailed,
            children.as_slice(),
        ),
        UnresolvedFuture::AllSucceededOrFirstFailed(children) => Opened::Node(
            Combinator::AllSucceededOrFirstFailed,
            children.as_slice(),
        ),
        UnresolvedFuture::AtLeast(required, children) => Opened::Node(
            Combinator::AtLeast(*required),
            children.as_slice(),
        ),
    }
}

/// How the record of a node names its combinator.
pub(crate) fn record_combinator(combinator: Combinator) -> CombinatorType
    ensures { result ≡ combinator_record (combinator_meant combinator) }
{
    match combinator {
        Combinator::Unknown => CombinatorType::Unknown,
        Combinator::FirstCompleted => CombinatorType::FirstCompleted,
        Combinator::AllCompleted => CombinatorType::AllCompleted,
        Combinator::FirstSucceededOrAllFailed => CombinatorType::FirstSucceededOrAllFailed,
        Combinator::AllSucceededOrFirstFailed => CombinatorType::AllSucceededOrFirstFailed,
        Combinator::AtLeast(_) => CombinatorType::AtLeastSucceeded,
    }
}

/// How many successes a node asks for.
pub(crate) fn required_by(combinator: Combinator) -> u32
    ensures { result ≡ required_by (combinator_meant combinator) }
{
    match combinator {
        Combinator::AtLeast(required) => required,
        _ => 0,
    }
}
