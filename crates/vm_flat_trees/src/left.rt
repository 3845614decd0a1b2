// What is left of a flat tree.
ghost use Rattle.std.specs.Prelude.{◌≡◌, ℕ, false, take, drop, map, IfOk, OnOk};
ghost use Rattle.journal_model.specs.AwaitTree.{AwaitTree, AwaitState, is_awake};
ghost use Rattle.journal_model.specs.Future.{tree_of, trees_from};
ghost use Rattle.journal_model.specs.PrunedTrees.{pruned};
ghost use Rattle.vm_flat_trees.specs.Flat.{combined, pending_before, read_pending, children_in, flat_of};

use crate::climbing::is_completed;
use crate::node::{FlatNode, Kind, lowered_kind, state_by};
use journal_model::{CANCEL_NOTIFICATION_HANDLE, NotificationHandle, UnresolvedFuture};
use sequence::Sequence;
use std::alloc::{AllocError, Global};
use std::collections::VecDeque;

// A future of this kind over these children.
#[tactic(auto, using(journal_model::proofs::TreeLemmas::future_trees))]
fn combined(kind: Kind, children: Sequence<UnresolvedFuture>) -> UnresolvedFuture
    ensures { tree_of result ≡ combined kind (trees_from (map tree_of children)) }
{
    match kind {
        Kind::Leaf(handle) => UnresolvedFuture::Single(NotificationHandle::new(handle)),
        Kind::Unknown => UnresolvedFuture::Unknown(children),
        Kind::FirstCompleted => UnresolvedFuture::FirstCompleted(children),
        Kind::AllCompleted => UnresolvedFuture::AllCompleted(children),
        Kind::FirstSucceededOrAllFailed => UnresolvedFuture::FirstSucceededOrAllFailed(children),
        Kind::AllSucceededOrFirstFailed => UnresolvedFuture::AllSucceededOrFirstFailed(children),
        Kind::AtLeast(required) => UnresolvedFuture::AtLeast(required, children),
    }
}

fn children_in(kind: Kind, many: usize) -> usize
    ensures { result ≡ children_in kind many }
{
    if matches!(kind, Kind::Leaf(_)) {
        0
    } else {
        many
    }
}

// So many of the first.
fn take_first(
    futures: &mut VecDeque<UnresolvedFuture>,
    many: usize,
) -> Result<Sequence<UnresolvedFuture>, AllocError>
    ensures ok { IfOk result (λ taken. taken ≡ take many futures.old.items) }
    ensures left { OnOk result (futures.new.items ≡ drop many futures.old.items) }
{
    let mut taken = Sequence::new(*futures.allocator());
    for _i in 0..many {
        let Some(future) = futures.pop_front() else {
            return Ok(taken);
        };
        taken.push(future)?;
    }
    Ok(taken)
}

// One node more, before those behind it: one that is completed is left out.
fn put_before(futures: &mut VecDeque<UnresolvedFuture>, node: FlatNode) -> Result<(), AllocError>
    ensures { OnOk result (map tree_of futures.new.items ≡ pending_before node (map tree_of futures.old.items)) }
{
    if is_completed(state_by(node.kind, node.counts)) {
        return Ok(());
    }
    let kind = lowered_kind(node.kind, node.counts);
    let children = take_first(futures, children_in(kind, node.counts.pending))?;
    futures.push_front(combined(kind, children))?;
    Ok(())
}

// The futures of the nodes that aren't completed, read from the end.
fn read_pending(alloc: Global, nodes: &[FlatNode]) -> Result<VecDeque<UnresolvedFuture>, AllocError>
    ensures { IfOk result (λ futures. map tree_of futures.items ≡ read_pending nodes.now) }
{
    let mut futures = VecDeque::new(alloc);
    let mut place = nodes.len();
    while place > 0 {
        place -= 1;
        put_before(&mut futures, nodes[place])?;
    }
    Ok(futures)
}

/// What a tree that sleeps still waits for.
pub fn left(alloc: Global, nodes: &[FlatNode]) -> Result<UnresolvedFuture, AllocError>
    ensures { IfOk result (λ left. (tree : AwaitTree ℕ) (leaves : ℕ → AwaitState) → nodes.now ≡ flat_of tree leaves → is_awake tree leaves ≡ false → tree_of left ≡ pruned tree leaves) }
{
    let mut futures = read_pending(alloc, nodes)?;
    match futures.pop_front() {
        Some(future) => Ok(future),
        None => Ok(UnresolvedFuture::Single(CANCEL_NOTIFICATION_HANDLE)),
    }
}
