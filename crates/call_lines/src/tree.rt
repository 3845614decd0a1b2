//! The words of a tree of handles, each node before its children: a handle, or a combinator and how many children it has.

ghost use Rattle.std.specs.Prelude.{◌≡◌, map};
ghost use Rattle.script_lines.specs.LineReader.{Gives};
ghost use Rattle.call_lines.specs.TreeReader.{GrowsBy, PutsOn, StacksBy, TakesChildren, combined_by, kind_of, node_of, numbered_of, over_of, over_kind, tree_read};
ghost use Rattle.journal_model.specs.Future.{tree_of};

use journal_model::{AwaitedFuture, NotificationHandle, UnresolvedFuture};
use script_lines::word::{LineError, parse_u32};
use sequence::Sequence;
use server_lines::word::split_at_colon;
use std::alloc::{AllocError, Global};

/// How a node combines its children.
#[derive(Clone, Copy)]
pub enum NodeKind {
    /// The first that is completed.
    Any,
    All,
    FirstSucceeded,
    AllSucceeded,
    /// So many successes.
    AtLeast(u32),
    Unknown,
}

/// What a word of a tree says.
#[derive(Clone, Copy)]
pub enum TreeNode {
    Handle(u32),
    /// A combinator, and how many children it has.
    Over(NodeKind, u32),
}

#[tactic(auto, unfolding(crate::specs::TreeReader::kind_of))]
fn parse_kind(word: &[u8]) -> Option<NodeKind>
    ensures { result ≡ kind_of word.now }
{
    if word == b"any".as_slice() {
        Some(NodeKind::Any)
    } else if word == b"all".as_slice() {
        Some(NodeKind::All)
    } else if word == b"first-succeeded".as_slice() {
        Some(NodeKind::FirstSucceeded)
    } else if word == b"all-succeeded".as_slice() {
        Some(NodeKind::AllSucceeded)
    } else if word == b"unknown".as_slice() {
        Some(NodeKind::Unknown)
    } else {
        None
    }
}

#[tactic(auto, unfolding(crate::specs::TreeReader::numbered_of, script_lines::specs::LineReader::then_read))]
fn parse_numbered(text: &[u8]) -> Option<TreeNode>
    ensures { result ≡ numbered_of text.now }
{
    let (required, count) = split_at_colon(text)?;
    let required = parse_u32(required)?;
    let count = parse_u32(count)?;
    Some(TreeNode::Over(NodeKind::AtLeast(required), count))
}

#[tactic(auto, unfolding(crate::specs::TreeReader::over_kind, script_lines::specs::LineReader::then_read))]
fn parse_over(kind: &[u8], text: &[u8]) -> Option<TreeNode>
    ensures { result ≡ over_kind kind.now text.now }
{
    if kind == b"at-least".as_slice() {
        return parse_numbered(text);
    }
    let kind = parse_kind(kind)?;
    let count = parse_u32(text)?;
    Some(TreeNode::Over(kind, count))
}

#[tactic(auto, unfolding(crate::specs::TreeReader::over_of, script_lines::specs::LineReader::then_read))]
fn parse_combinator(word: &[u8]) -> Option<TreeNode>
    ensures { result ≡ over_of word.now }
{
    let (kind, text) = split_at_colon(word)?;
    parse_over(kind, text)
}

/// The node that a word says: `N`, `KIND:N` or `at-least:N:N`.
#[tactic(auto, unfolding(crate::specs::TreeReader::node_of, crate::specs::TreeReader::handle_or))]
fn parse_node(word: &[u8]) -> Option<TreeNode>
    ensures { result ≡ node_of word.now }
{
    match parse_u32(word) {
        Some(handle) => Some(TreeNode::Handle(handle)),
        None => parse_combinator(word),
    }
}

// So many trees from the top of the stack.
fn children(
    alloc: Global,
    stack: &mut Vec<UnresolvedFuture>,
    count: u32,
) -> Result<Sequence<UnresolvedFuture>, LineError>
    ensures { TakesChildren count stack.old.items result stack.new.items }
{
    let mut children = Sequence::new(alloc);
    for _taken in 0..count {
        let Some(child) = stack.pop() else {
            return Err(LineError::NotUnderstood);
        };
        children.push(child)?;
    }
    Ok(children)
}

#[tactic(auto, using(journal_model::proofs::TreeLemmas::future_trees))]
fn combined(kind: NodeKind, children: Sequence<UnresolvedFuture>) -> UnresolvedFuture
    ensures { tree_of result ≡ combined_by kind (map tree_of children) }
{
    match kind {
        NodeKind::Any => UnresolvedFuture::FirstCompleted(children),
        NodeKind::All => UnresolvedFuture::AllCompleted(children),
        NodeKind::FirstSucceeded => UnresolvedFuture::FirstSucceededOrAllFailed(children),
        NodeKind::AllSucceeded => UnresolvedFuture::AllSucceededOrFirstFailed(children),
        NodeKind::AtLeast(required) => UnresolvedFuture::AtLeast(required, children),
        NodeKind::Unknown => UnresolvedFuture::Unknown(children),
    }
}

// The tree of a node whose children are on top of the stack.
#[tactic(auto, using(journal_model::proofs::TreeLemmas::future_trees))]
fn rooted(
    alloc: Global,
    stack: &mut Vec<UnresolvedFuture>,
    node: TreeNode,
) -> Result<UnresolvedFuture, LineError>
    ensures { GrowsBy node stack.old.items result stack.new.items }
{
    match node {
        TreeNode::Handle(handle) => Ok(UnresolvedFuture::Single(NotificationHandle::new(handle))),
        TreeNode::Over(kind, count) => {
            let children = children(alloc, stack, count)?;
            Ok(combined(kind, children))
        }
    }
}

fn put(stack: &mut Vec<UnresolvedFuture>, tree: UnresolvedFuture) -> Result<(), LineError>
    ensures { PutsOn tree stack.old.items result stack.new.items }
{
    match stack.push(tree) {
        Ok(()) => Ok(()),
        Err(refused) => Err(AllocError::from(refused).into()),
    }
}

// The trees of words, from the last word on.
fn stacked(alloc: Global, words: &[&[u8]]) -> Result<Vec<UnresolvedFuture>, LineError>
    ensures { StacksBy (map (λ word. word.now) words.now) result }
{
    let mut stack = Vec::new(alloc);
    let mut left = words.len();
    while left > 0 {
        left -= 1;
        let Some(node) = parse_node(words[left]) else {
            return Err(LineError::NotUnderstood);
        };
        let tree = rooted(alloc, &mut stack, node)?;
        put(&mut stack, tree)?;
    }
    Ok(stack)
}

/// The tree that the last words spell.
pub fn parse_tree(alloc: Global, words: &[&[u8]]) -> Result<AwaitedFuture, LineError>
    ensures { Gives result (tree_read (map (λ word. word.now) words.now)) }
{
    let mut stack = stacked(alloc, words)?;
    let Some(root) = stack.pop() else {
        return Err(LineError::NotUnderstood);
    };
    if stack.is_empty() {
        Ok(AwaitedFuture::new(root))
    } else {
        Err(LineError::NotUnderstood)
    }
}
