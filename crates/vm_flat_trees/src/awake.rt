// Whether a flat tree is awake.
ghost use Rattle.std.specs.Prelude.{◌≡◌};
ghost use Rattle.journal_model.specs.AwaitTree.{is_completed};
ghost use Rattle.vm_flat_trees.specs.Flat.{is_awake_flat, root_state};

use crate::climbing::is_completed;
use crate::node::{FlatNode, is_ended, state_by};

fn is_root_completed(nodes: &[FlatNode]) -> bool
    ensures { result ≡ is_completed (root_state nodes.now) }
{
    match nodes.first() {
        Some(node) => is_completed(state_by(node.kind, node.counts)),
        None => false,
    }
}

/// Whether a tree is awake: its root is completed, or a child has ended some node at once.
pub fn is_awake_now(nodes: &[FlatNode]) -> bool
    ensures { result ≡ is_awake_flat nodes.now }
{
    if is_root_completed(nodes) {
        return true;
    }
    for node in nodes {
        if is_ended(node.kind, node.counts) {
            return true;
        }
    }
    false
}
