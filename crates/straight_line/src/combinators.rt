//! Futures over several handles.
ghost use Rattle.std.specs.Prelude.{◌≡◌, IfOk, map};
ghost use Rattle.journal_model.specs.Future.{tree_of, node};
ghost use Rattle.journal_model.specs.declared.future.UnresolvedFuture.{UnresolvedFuture};
ghost use Rattle.straight_line.specs.Combinators as combining;

use journal_model::{AwaitedFuture, NotificationHandle, UnresolvedFuture};
use sequence::Sequence;
use std::alloc::{AllocError, Global};

/// When several have come.
#[derive(Clone, Copy)]
pub enum Combinator {
    /// With the first that has come.
    FirstCompleted,
    /// When each has come.
    AllCompleted,
    /// With one that has succeeded, or when all have failed.
    FirstSucceededOrAllFailed,
    /// With one that has failed, or when all have succeeded.
    AllSucceededOrFirstFailed,
    /// When so many have succeeded, or fewer than that can still. Versions before 9 refuse it.
    AtLeast(u32),
}

fn singles(
    alloc: Global,
    handles: &[NotificationHandle],
) -> Result<Sequence<UnresolvedFuture>, AllocError>
    ensures { IfOk result (λ children. children ≡ map UnresolvedFuture.Single handles.now) }
{
    let mut children = Sequence::new(alloc);
    for handle in handles {
        children.push(UnresolvedFuture::Single(*handle))?;
    }
    Ok(children)
}

#[tactic(auto, using(journal_model::proofs::TreeLemmas::future_trees))]
fn combined(combinator: Combinator, children: Sequence<UnresolvedFuture>) -> UnresolvedFuture
    ensures { tree_of result ≡ node (combining.combines combinator) (map tree_of children) }
{
    match combinator {
        Combinator::FirstCompleted => UnresolvedFuture::FirstCompleted(children),
        Combinator::AllCompleted => UnresolvedFuture::AllCompleted(children),
        Combinator::FirstSucceededOrAllFailed => {
            UnresolvedFuture::FirstSucceededOrAllFailed(children)
        }
        Combinator::AllSucceededOrFirstFailed => {
            UnresolvedFuture::AllSucceededOrFirstFailed(children)
        }
        Combinator::AtLeast(required) => UnresolvedFuture::AtLeast(required, children),
    }
}

/// The future over these handles.
#[tactic(auto, using(crate::proofs::Trees::single_trees))]
pub fn future_over(
    alloc: Global,
    combinator: Combinator,
    handles: &[NotificationHandle],
) -> Result<AwaitedFuture, AllocError>
    ensures { IfOk result (λ future. future ≡ combining.tree_over combinator handles.now) }
{
    let children = singles(alloc, handles)?;
    Ok(AwaitedFuture::new(combined(combinator, children)))
}
