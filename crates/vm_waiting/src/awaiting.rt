// A future is awaited.
ghost use Rattle.std.specs.Prelude.{◌≡◌, ◌∷◌, [], IfOk};
ghost use Rattle.journal_model.specs.declared.future.UnresolvedFuture.{UnresolvedFuture};
ghost use Rattle.journal_model.specs.Future.{tree_of};
ghost use Rattle.journal_model.specs.Await.{with_cancellation, awaited_tree};
ghost use Rattle.vm_awaits.specs.Views.{results_of};
ghost use Rattle.vm_waiting.specs.AwaitSteps.{awaits_nothing, is_cancelled_in, asleep_as, Cancels, PassesOn, WakesAs, Resolves, AwaitComesTo, AwaitsSeen};

use crate::WaitsFor;
use crate::cancelling::{CancelError, put_cancels};
use crate::children::{ChildrenKnown, ids_of, look_for_children};
use journal_model::{CANCEL_NOTIFICATION_HANDLE, ImplicitCancellationOption, UnresolvedFuture};
use protocol_calls::SendSignalCommandMessage;
use sequence::Sequence;
use std::alloc::{AllocError, Global};
use std::mem::replace;
use vm_awaits::{AsyncResultsState, ResolveFutureResult};
use vm_calls::{Active, Children, PutError};

/// What an await has come to.
#[derive(Debug, Drop)]
pub enum Awaited {
    /// Something that it waits for has come.
    AnyCompleted,
    /// The invocation was cancelled, and the cancellation was passed on.
    Cancelled,
    /// Nothing is left to look at; this is what it still waits for.
    Asleep(WaitsFor),
}

/// Why an await fails.
#[derive(Debug, Drop)]
pub enum AwaitError {
    /// Commands are recorded behind it, but this did not come before them.
    UncompletedInReplay(WaitsFor),
    /// A cancellation cannot be passed on, since what came for a child is no invocation id.
    ChildNotId,
    /// The command that passes a cancellation on was neither matched nor written.
    Put(PutError<SendSignalCommandMessage>),
    OutOfMemory,
}

#[tactic(auto, using(journal_model::proofs::TreeLemmas::future_trees))]
fn awaits_nothing(future: &UnresolvedFuture) -> bool
    ensures { result ≡ awaits_nothing (tree_of future.now) }
{
    match future {
        UnresolvedFuture::FirstCompleted(children) => children.is_empty(),
        _ => false,
    }
}

fn cancellation_alone(alloc: Global) -> Result<Sequence<UnresolvedFuture>, AllocError>
    ensures { IfOk result (λ children. children ≡ UnresolvedFuture.Single 1 ∷ []) }
{
    let mut children = Sequence::new(alloc);
    children.push(UnresolvedFuture::Single(CANCEL_NOTIFICATION_HANDLE))?;
    Ok(children)
}

fn beside_cancellation(
    alloc: Global,
    future: UnresolvedFuture,
) -> Result<Sequence<UnresolvedFuture>, AllocError>
    ensures { IfOk result (λ children. children ≡ future ∷ UnresolvedFuture.Single 1 ∷ []) }
{
    let mut children = Sequence::new(alloc);
    children.push(future)?;
    children.push(UnresolvedFuture::Single(CANCEL_NOTIFICATION_HANDLE))?;
    Ok(children)
}

fn with_cancellation(
    alloc: Global,
    future: UnresolvedFuture,
) -> Result<UnresolvedFuture, AllocError>
    ensures { IfOk result (λ whole. tree_of whole ≡ with_cancellation (tree_of future)) }
{
    if awaits_nothing(&future) {
        drop(future);
        return Ok(UnresolvedFuture::FirstCompleted(cancellation_alone(alloc)?));
    }
    Ok(UnresolvedFuture::FirstCompleted(beside_cancellation(alloc, future)?))
}

fn whole_of(
    alloc: Global,
    cancellation: ImplicitCancellationOption,
    future: UnresolvedFuture,
) -> Result<UnresolvedFuture, AllocError>
    ensures { IfOk result (λ whole. tree_of whole ≡ awaited_tree cancellation (tree_of future)) }
{
    match cancellation {
        ImplicitCancellationOption::Disabled => Ok(future),
        ImplicitCancellationOption::Enabled { .. } => with_cancellation(alloc, future),
    }
}

fn resolve(
    results: &mut AsyncResultsState,
    alloc: Global,
    cancellation: ImplicitCancellationOption,
    future: UnresolvedFuture,
) -> Result<ResolveFutureResult, AllocError>
    ensures { IfOk result (λ answer. Resolves cancellation (tree_of future) (results_of results.old) answer (results_of results.new)) }
{
    let whole = whole_of(alloc, cancellation, future)?;
    results.try_resolve_future(whole)
}

fn is_cancelled(results: &AsyncResultsState, cancellation: ImplicitCancellationOption) -> bool
    ensures { result ≡ is_cancelled_in cancellation (results_of results.now) }
{
    match cancellation {
        ImplicitCancellationOption::Disabled => false,
        ImplicitCancellationOption::Enabled { .. } => {
            results.is_handle_completed(CANCEL_NOTIFICATION_HANDLE)
        }
    }
}

// What an await that stays asleep comes to: it waits, but for commands that are recorded behind it.
fn stay_asleep(is_replaying: bool, waits: WaitsFor) -> Result<Awaited, AwaitError>
    ensures { result ≡ asleep_as is_replaying waits }
{
    if is_replaying {
        return Err(AwaitError::UncompletedInReplay(waits));
    }
    Ok(Awaited::Asleep(waits))
}

// All children have their invocation ids: the cancellation is passed on to each, and one delivery of it is taken.
fn cancel(active: &mut Active, alloc: Global, checks_off: bool) -> Result<Awaited, AwaitError>
    ensures { Cancels checks_off active.old result active.new }
{
    let Ok(ids) = ids_of(alloc, &active.children, &active.results) else {
        return Err(AwaitError::OutOfMemory);
    };
    match put_cancels(active, alloc, checks_off, ids) {
        Ok(()) => {
            drop(replace(&mut active.children, Children::new(alloc)));
            drop(active.results.take_handle(CANCEL_NOTIFICATION_HANDLE));
            Ok(Awaited::Cancelled)
        }
        Err(CancelError::Put(error)) => Err(AwaitError::Put(error)),
        Err(CancelError::OutOfMemory) => Err(AwaitError::OutOfMemory),
    }
}

// A cancellation ends the await.
fn pass_on(active: &mut Active, alloc: Global, checks_off: bool) -> Result<Awaited, AwaitError>
    ensures { PassesOn checks_off active.old result active.new }
{
    match look_for_children(&active.children, &mut active.results) {
        Ok(ChildrenKnown::AllIds) => cancel(active, alloc, checks_off),
        Ok(ChildrenKnown::Unknown(completion)) => {
            stay_asleep(active.is_replaying, WaitsFor::Child(completion))
        }
        Ok(ChildrenKnown::NoId) => Err(AwaitError::ChildNotId),
        Err(_) => Err(AwaitError::OutOfMemory),
    }
}

// An await that is awake.
fn wake(
    active: &mut Active,
    alloc: Global,
    cancellation: ImplicitCancellationOption,
    checks_off: bool,
) -> Result<Awaited, AwaitError>
    ensures { WakesAs cancellation checks_off active.old result active.new }
{
    if !is_cancelled(&active.results, cancellation) {
        return Ok(Awaited::AnyCompleted);
    }
    pass_on(active, alloc, checks_off)
}

// Awaits a future, whatever the attempt is seen as.
fn come_to(
    active: &mut Active,
    alloc: Global,
    cancellation: ImplicitCancellationOption,
    checks_off: bool,
    future: UnresolvedFuture,
) -> Result<Awaited, AwaitError>
    ensures { AwaitComesTo cancellation checks_off (tree_of future) active.old result active.new }
{
    match resolve(&mut active.results, alloc, cancellation, future) {
        Ok(ResolveFutureResult::AnyCompleted) => wake(active, alloc, cancellation, checks_off),
        Ok(ResolveFutureResult::WaitExternalInput(left)) => {
            stay_asleep(active.is_replaying, WaitsFor::Future(left))
        }
        Err(_) => Err(AwaitError::OutOfMemory),
    }
}

/// Awaits a future: looks at what has come, one notification a step, until the future is awake.
///
/// A cancellation that waits then ends the await, where cancellations do. It is passed on to the children: their invocation ids are
/// looked for as the future was, and the first that is unknown is waited for alone. Once all are known, one command for each cancels
/// it, no child is tracked any more, and one delivery of the cancellation is taken.
pub fn await_future(
    active: &mut Active,
    alloc: Global,
    cancellation: ImplicitCancellationOption,
    checks_off: bool,
    future: UnresolvedFuture,
) -> Result<Awaited, AwaitError>
    ensures held { AwaitComesTo cancellation checks_off (tree_of future) active.old result active.new }
    ensures awaits { AwaitsSeen cancellation checks_off (tree_of future) active.old result active.new }
{
    come_to(active, alloc, cancellation, checks_off, future)
}
