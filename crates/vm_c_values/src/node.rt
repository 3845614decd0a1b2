// Trees of handles, as arrays of nodes.
ghost use Rattle.std.specs.Prelude.{◌≡◌, ◌≤◌, [], ◌∷◌, ◌++◌, length, IfOk, IfErr, IsTrue, OnOk};
ghost use Rattle.journal_model.specs.Future.{tree_of};
ghost use Rattle.vm_c_values.specs.Arguments.{IsTree, IsUnread, Reads};
ghost use Rattle.vm_c_values.specs.Nodes.{nodes_from_top, nodes_in_order, nodes_of};
ghost use Rattle.vm_c_values.specs.Stacks.{is_combinator, stands_on};
ghost use Rattle.vm_c_values.specs.declared.not_done.Unread.TheVariants.{Memory};

use crate::Unread;
use crate::levels::is_within;
use journal_model::{NotificationHandle, UnresolvedFuture};
use sequence::Sequence;
use std::alloc::{AllocError, Global};

/// A node of a tree of handles. A tree is an array of its nodes, each before those of its children.
#[repr(C)]
#[derive(Clone, Copy)]
pub struct Node {
    /// 0: a handle. Else a combinator: 1 the first completed, 2 all completed, 3 the first succeeded or all failed, 4 all succeeded or the
    /// first failed, 5 at least so many succeeded, 6 unknown, which is as the first completed.
    pub kind: u32,
    /// The handle, or how many children the combinator has.
    pub number: u32,
    /// How many children are to succeed, for kind 5; for others 0.
    pub required: u32,
}

// So many trees from the top of the stack.
fn children(
    alloc: Global,
    stack: &mut Vec<UnresolvedFuture>,
    count: u32,
) -> Result<Sequence<UnresolvedFuture>, Unread>
    ensures as_many { IfOk result (λ children. length children ≡ count) }
    ensures nodes { IfOk result (λ children. nodes_from_top stack.old.items ≡ nodes_in_order children ++ nodes_from_top stack.new.items) }
    ensures unread { IfErr result (IsUnread (count ≤ length stack.old.items)) }
{
    let mut children = Sequence::new(alloc);
    for _taken in 0..count {
        let Some(child) = stack.pop() else {
            return Err(Unread::Malformed);
        };
        children.push(child)?;
    }
    Ok(children)
}

// A combinator of this kind over its children.
#[tactic(auto, using(journal_model::proofs::TreeLemmas::future_trees, crate::proofs::Stacking::over_children))]
fn combined(
    kind: u32,
    required: u32,
    children: Sequence<UnresolvedFuture>,
) -> Result<UnresolvedFuture, Unread>
    ensures nodes { IfOk result (λ tree. nodes_of (tree_of tree) ≡ record { kind = kind; number = length children; required = required } ∷ nodes_in_order children) }
    ensures unread { IfErr result (IsUnread (IsTrue (is_combinator kind required))) }
{
    if kind == 5 {
        return Ok(UnresolvedFuture::AtLeast(required, children));
    }
    if required != 0 {
        return Err(Unread::Malformed);
    }
    match kind {
        1 => Ok(UnresolvedFuture::FirstCompleted(children)),
        2 => Ok(UnresolvedFuture::AllCompleted(children)),
        3 => Ok(UnresolvedFuture::FirstSucceededOrAllFailed(children)),
        4 => Ok(UnresolvedFuture::AllSucceededOrFirstFailed(children)),
        6 => Ok(UnresolvedFuture::Unknown(children)),
        _ => Err(Unread::Malformed),
    }
}

// The tree of a node whose children are on top of the stack.
#[tactic(auto, using(journal_model::proofs::TreeLemmas::future_trees))]
fn rooted(
    alloc: Global,
    stack: &mut Vec<UnresolvedFuture>,
    node: Node,
) -> Result<UnresolvedFuture, Unread>
    ensures nodes { IfOk result (λ tree. node ∷ nodes_from_top stack.old.items ≡ nodes_of (tree_of tree) ++ nodes_from_top stack.new.items) }
    ensures unread { IfErr result (IsUnread (IsTrue (stands_on node (length stack.old.items)))) }
{
    if node.kind != 0 {
        let children = children(alloc, stack, node.number)?;
        return combined(node.kind, node.required, children);
    }
    if node.required != 0 {
        return Err(Unread::Malformed);
    }
    Ok(UnresolvedFuture::Single(NotificationHandle::new(node.number)))
}

fn put(stack: &mut Vec<UnresolvedFuture>, tree: UnresolvedFuture) -> Result<(), Unread>
    ensures ok { OnOk result (stack.new.items ≡ stack.old.items ++ tree ∷ []) }
    ensures memory { IfErr result (λ why. why ≡ Memory) }
{
    match stack.push(tree) {
        Ok(()) => Ok(()),
        Err(refused) => Err(AllocError::from(refused).into()),
    }
}

// The trees of nodes, from the last node on.
fn stacked(alloc: Global, nodes: &[Node]) -> Result<Vec<UnresolvedFuture>, Unread>
    ensures nodes { IfOk result (λ stack. nodes_from_top stack.items ≡ nodes.now) }
    ensures unread { IfErr result (IsUnread (IsTree nodes.now)) }
{
    let mut stack = Vec::new(alloc);
    let mut rest = nodes;
    while let Some(split) = rest.split_last() {
        let (node, before) = split;
        let tree = rooted(alloc, &mut stack, *node)?;
        put(&mut stack, tree)?;
        rest = before;
    }
    Ok(stack)
}

/// The tree of these nodes, where they are those of one tree that is not nested deeper than `NODE_LEVELS`. Of a deeper one none is made.
#[tactic(auto, using(crate::proofs::Stacking::alone, crate::proofs::Counting::several, crate::proofs::Nesting::few_levels, crate::proofs::Nesting::too_deep))]
pub fn future_of(alloc: Global, nodes: &[Node]) -> Result<UnresolvedFuture, Unread>
    ensures { Reads (IsTree nodes.now) (λ future. nodes_of (tree_of future) ≡ nodes.now) result }
{
    if !is_within(alloc, nodes)? {
        return Err(Unread::Malformed);
    }
    let mut stack = stacked(alloc, nodes)?;
    let Some(root) = stack.pop() else {
        return Err(Unread::Malformed);
    };
    if !stack.is_empty() {
        return Err(Unread::Malformed);
    }
    Ok(root)
}
