// How deep a tree of handles is nested, by its nodes: no deeper one is made, since what walks a tree takes some stack for each level.
ghost use Rattle.std.specs.Prelude.{◌≡◌, ℕ, nat_le, [], drop, reverse, IfOk};
ghost use Rattle.std.specs.List.{list_all};
ghost use Rattle.journal_model.specs.AwaitTree.{AwaitTree, levels_of};
ghost use Rattle.vm_c_values.specs.Levels.{level_over, levels_on, most_of};
ghost use Rattle.vm_c_values.specs.Nodes.{nodes_of};
ghost use Rattle.vm_c_values.specs.Stacks.{children_of};
ghost use Rattle.vm_c_values.specs.declared.levels.TheConstants.{NODE_LEVELS};

use crate::node::Node;
use std::alloc::{AllocError, Global};

/// How many nodes of a tree may stand one in another.
pub const NODE_LEVELS: u32 = 256;

// The most of so many levels from the top, which are taken.
fn most_taken(levels: &mut Vec<u32>, count: u32) -> u32
    ensures most { result ≡ most_of count (reverse levels.old.items) }
    ensures left { reverse levels.new.items ≡ drop count (reverse levels.old.items) }
{
    let mut most = 0;
    for _taken in 0..count {
        let Some(level) = levels.pop() else {
            return most;
        };
        most = most.max(level);
    }
    most
}

// The level of a node whose children's are on top, which are taken.
fn level_of(levels: &mut Vec<u32>, node: Node) -> u32
    ensures level { result ≡ level_over node (reverse levels.old.items) }
    ensures left { reverse levels.new.items ≡ drop (children_of node) (reverse levels.old.items) }
{
    if node.kind == 0 {
        return 0;
    }
    most_taken(levels, node.number).min(NODE_LEVELS) + 1
}

// The levels of the trees of nodes, from the last node on.
fn stacked(alloc: Global, nodes: &[Node]) -> Result<Vec<u32>, AllocError>
    ensures { IfOk result (λ levels. reverse levels.items ≡ levels_on nodes.now []) }
{
    let mut levels = Vec::new(alloc);
    let mut rest = nodes;
    while let Some(split) = rest.split_last() {
        let (node, before) = split;
        let level = level_of(&mut levels, *node);
        levels.push(level)?;
        rest = before;
    }
    Ok(levels)
}

fn are_within(levels: &[u32]) -> bool
    ensures { result ≡ list_all (λ level. nat_le level NODE_LEVELS) levels.now }
{
    for level in levels {
        if *level > NODE_LEVELS {
            return false;
        }
    }
    true
}

/// Whether the tree of these nodes is nested no deeper than a tree may be.
pub(crate) fn is_within(alloc: Global, nodes: &[Node]) -> Result<bool, AllocError>
    ensures { IfOk result (λ within. (tree : AwaitTree ℕ) → nodes_of tree ≡ nodes.now → within ≡ nat_le (levels_of tree) NODE_LEVELS) }
{
    let levels = stacked(alloc, nodes)?;
    Ok(are_within(&levels))
}
