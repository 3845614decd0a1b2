//! Awaits: `await WORD ..` with the tree's nodes behind their children: a number is a handle, and `F2`, `A2`, `S2`, `R2` and `U2`
//! are nodes over the two trees before them, the first completed, all completed, the first succeeded or all failed, all succeeded
//! or the first failed, and unknown; `K2/3` is one over three that asks for two successes. `^9` puts nine nodes over the tree before it. `completed HANDLE`, `take HANDLE`, `input`.
use crate::answers::{debug, failed, taken};
use invocation_vm::{Input, NotificationHandle, Sequence, UnresolvedFuture, VM};
use std::alloc::Global;
use test_rows::{Hex, number};

// The last so many trees, in their order.
fn last(
    alloc: Global,
    trees: &mut Vec<UnresolvedFuture>,
    count: u32,
) -> Option<Sequence<UnresolvedFuture>> {
    let kept = trees.len().saturating_sub(count as usize);
    let children = trees.drain(kept..).collect(alloc).ok()?;
    Some(Sequence::from_vec(children))
}

fn node(kind: &str, children: Sequence<UnresolvedFuture>) -> Option<UnresolvedFuture> {
    match kind {
        "F" => Some(UnresolvedFuture::FirstCompleted(children)),
        "A" => Some(UnresolvedFuture::AllCompleted(children)),
        "S" => Some(UnresolvedFuture::FirstSucceededOrAllFailed(children)),
        "R" => Some(UnresolvedFuture::AllSucceededOrFirstFailed(children)),
        "U" => Some(UnresolvedFuture::Unknown(children)),
        _ => {
            drop(children);
            None
        }
    }
}

// A node that asks for so many successes, over so many trees before it.
fn at_least(
    alloc: Global,
    trees: &mut Vec<UnresolvedFuture>,
    numbers: &str,
) -> Option<UnresolvedFuture> {
    let (required, count) = numbers.split_once('/')?;
    let required = number(required)?;
    let count = number(count)?;
    Some(UnresolvedFuture::AtLeast(required, last(alloc, trees, count)?))
}

// The node over the trees before it that a word spells.
fn over_last(
    alloc: Global,
    trees: &mut Vec<UnresolvedFuture>,
    word: &str,
) -> Option<UnresolvedFuture> {
    let (kind, count) = word.split_at_checked(1)?;
    if kind == "K" {
        return at_least(alloc, trees, count);
    }
    let count = number(count)?;
    node(kind, last(alloc, trees, count)?)
}

// So many nodes, one over another, over the tree before them.
fn put_nested(alloc: Global, trees: &mut Vec<UnresolvedFuture>, levels: u32) -> Option<()> {
    for _level in 0..levels {
        let made = UnresolvedFuture::AllCompleted(last(alloc, trees, 1)?);
        trees.push(made).ok()?;
    }
    Some(())
}

fn put(alloc: Global, trees: &mut Vec<UnresolvedFuture>, word: &str, behind: u32) -> Option<()> {
    if let Some(levels) = word.strip_prefix('^') {
        return put_nested(alloc, trees, number(levels)?);
    }
    let made = match number(word) {
        Some(number) => UnresolvedFuture::Single(number.wrapping_add(behind).into()),
        None => over_last(alloc, trees, word)?,
    };
    trees.push(made).ok()
}

fn put_all(
    alloc: Global,
    trees: &mut Vec<UnresolvedFuture>,
    words: &[&str],
    behind: u32,
) -> Option<UnresolvedFuture> {
    for word in words {
        put(alloc, trees, *word, behind)?;
    }
    trees.pop()
}

/// The tree that words spell, over the handles so far behind the numbers.
pub fn tree(alloc: Global, words: &[&str], behind: u32) -> Option<UnresolvedFuture> {
    let mut trees = Vec::new(alloc);
    let made = put_all(alloc, &mut trees, words, behind);
    drop(trees);
    made
}

fn wait<V: VM>(alloc: Global, vm: &mut V, words: &[&str]) -> Option<String> {
    match vm.do_await(tree(alloc, words, 0)?) {
        Ok(response) => debug(alloc, response),
        Err(error) => failed(alloc, error),
    }
}

fn input(alloc: Global, input: Input) -> Option<String> {
    let told = format!(in alloc;
        "{} key {} seed {} value {}",
        input.invocation_id,
        input.key,
        input.random_seed,
        Hex(input.input.as_slice())
    )
    .ok();
    drop(input);
    told
}

fn read_input<V: VM>(alloc: Global, vm: &mut V) -> Option<String> {
    match vm.sys_input() {
        Ok(read) => input(alloc, read),
        Err(error) => failed(alloc, error),
    }
}

fn completed<V: VM>(alloc: Global, vm: &V, handle: &str) -> Option<String> {
    debug(
        alloc,
        vm.is_completed(NotificationHandle::from(number(handle)?)),
    )
}

fn take<V: VM>(alloc: Global, vm: &mut V, handle: &str) -> Option<String> {
    let handle = NotificationHandle::from(number(handle)?);
    taken(alloc, vm.take_notification(handle))
}

pub fn answer<V: VM>(alloc: Global, vm: &mut V, call: &str, operands: &[&str]) -> Option<String> {
    match operands {
        words if call == "await" => wait(alloc, vm, words),
        [] if call == "input" => read_input(alloc, vm),
        [handle] if call == "completed" => completed(alloc, vm, *handle),
        [handle] if call == "take" => take(alloc, vm, *handle),
        _ => None,
    }
}
