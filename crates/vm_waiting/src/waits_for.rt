// What an await that stays asleep waits for.
ghost use Rattle.std.specs.Prelude.{◌≡◌, IfOk};
ghost use Rattle.journal_model.specs.AwaitTree.{Single};
ghost use Rattle.journal_model.specs.declared.notification.NotificationId.TheVariants.{CompletionId};
ghost use Rattle.protocol_stream.specs.Records.{future_record};
ghost use Rattle.attempt_model.specs.Results.{Slots};
ghost use Rattle.vm_awaits.specs.Views.{slots_of};
ghost use Rattle.vm_waiting.specs.SuspensionFrames.{is_too_deep};
ghost use Rattle.vm_waiting.specs.WaitsFor.{ids_over, waits_for_any};

use crate::handles::has_handle;
use crate::nesting::is_nested_within;
use journal_model::UnresolvedFuture;
use protocol_records::{CombinatorType, Future};
use protocol_wire::LEVELS;
use sequence::Sequence;
use std::alloc::{AllocError, Global};
use vm_awaits::AsyncResultsState;

/// What an await that stays asleep waits for.
#[derive(Debug, Drop)]
pub enum WaitsFor {
    /// What is left of its future.
    Future(UnresolvedFuture),
    /// A cancellation waits: the invocation id of this child, by its completion, and nothing else.
    Child(u32),
}

// A child's invocation id, as the record of a future.
fn record_of_child(alloc: Global, completion: u32) -> Result<Future, AllocError>
    ensures { IfOk result (λ told. told ≡ future_record (Single (CompletionId completion))) }
{
    let mut waiting_completions = Sequence::new(alloc);
    waiting_completions.push(completion)?;
    Ok(Future {
        waiting_completions,
        waiting_signals: Sequence::new(alloc),
        waiting_named_signals: Sequence::new(alloc),
        nested_futures: Sequence::new(alloc),
        combinator_type: CombinatorType::FirstCompleted,
        required: 0,
    })
}

impl WaitsFor {
    /// As a record over ids.
    pub fn to_record(
        &self,
        alloc: Global,
        results: &AsyncResultsState,
    ) -> Result<Future, AllocError>
        ensures { IfOk result (λ told. told ≡ future_record (ids_over (slots_of results.now) self.now)) }
    {
        match self {
            WaitsFor::Future(left) => results.resolve_unresolved_future(left),
            WaitsFor::Child(completion) => record_of_child(alloc, *completion),
        }
    }

    /// Whether there is anything in it.
    pub(crate) fn is_for_any(&self) -> bool
        ensures { result ≡ waits_for_any self.now }
    {
        match self {
            WaitsFor::Future(left) => has_handle(left),
            WaitsFor::Child(_) => true,
        }
    }

    /// Whether it is nested deeper than a frame can tell. What its handles stand for does not count.
    pub(crate) fn is_too_deep(&self) -> bool
        ensures { (slots : Slots) → result ≡ is_too_deep (ids_over slots self.now) }
    {
        match self {
            WaitsFor::Future(left) => !is_nested_within(left, LEVELS - 1),
            WaitsFor::Child(_) => false,
        }
    }
}
