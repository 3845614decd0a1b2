//! What a suspended attempt waits for, as it is kept.

ghost use Rattle.std.specs.Prelude.{◌≡◌, List, Some};
ghost use Rattle.journal_model.specs.Notification.{Arrival};
ghost use Rattle.journal_model.specs.AwaitTree.{is_awake};
ghost use Rattle.journal_model.specs.Event.{Frame, Suspension};
ghost use Rattle.protocol_types.specs.Version.{version_number};
ghost use Rattle.protocol_trees.specs.Future.{future_tree};
ghost use Rattle.store_frames.specs.Answer.{KeepsSuspension};
ghost use Rattle.store_frames.specs.ReadFrames.{IsFrameRead};
ghost use Rattle.store_frames.specs.First.{AreFirst, arrived_state};
ghost use Rattle.store_frames.specs.KeptArrivals.{ReadsKept};
ghost use Rattle.store_frames.specs.AwaitedFutures.{IsAwaited, any_of, TellsLists, TellsTree};

use crate::first::FirstArrivals;
use crate::kept_fault::KeptFault;
use protocol_records::{CombinatorType, Future, SuspensionMessage, SuspensionMessageV6};
use protocol_trees::is_awake;
use protocol_types::{Feature, Version};
use protocol_wire::{DecodeError, decode};
use sequence::Sequence;
use std::alloc::Global;

/// The tree of a suspension, which it must have.
fn read_tree(alloc: Global, payload: &[u8]) -> Result<Future, KeptFault>
    ensures { (suspension : Suspension) → TellsTree suspension payload.now → ReadsKept (IsAwaited suspension) result }
{
    match decode::<SuspensionMessage>(alloc, payload) {
        Ok(one) => {
            let SuspensionMessage { awaiting_on } = one;
            match awaiting_on {
                Some(awaited) => Ok(awaited),
                None => Err(KeptFault::Foreign),
            }
        }
        Err(DecodeError::Fault(_)) => Err(KeptFault::Foreign),
        Err(DecodeError::Memory) => Err(KeptFault::OutOfMemory),
    }
}

/// A tree that any of these ids completes.
fn any_of(alloc: Global, one: SuspensionMessageV6) -> Future
    ensures { result ≡ any_of one }
{
    let SuspensionMessageV6 {
        waiting_completions,
        waiting_signals,
        waiting_named_signals,
    } = one;
    Future {
        waiting_completions,
        waiting_signals,
        waiting_named_signals,
        nested_futures: Sequence::new(alloc),
        combinator_type: CombinatorType::FirstCompleted,
        required: 0,
    }
}

/// The ids of a suspension's three lists, any of which it waits for.
fn read_lists(alloc: Global, payload: &[u8]) -> Result<Future, KeptFault>
    ensures { (suspension : Suspension) → TellsLists suspension payload.now → ReadsKept (IsAwaited suspension) result }
{
    match decode::<SuspensionMessageV6>(alloc, payload) {
        Ok(one) => Ok(any_of(alloc, one)),
        Err(DecodeError::Fault(_)) => Err(KeptFault::Foreign),
        Err(DecodeError::Memory) => Err(KeptFault::OutOfMemory),
    }
}

/// What an attempt of this version waits for, by the payload that is kept of its suspension. Before version 7 that is any of the ids in
/// three lists.
pub fn awaited(alloc: Global, version: Version, payload: &[u8]) -> Result<Future, KeptFault>
    ensures { (suspension : Suspension) → IsFrameRead (version_number version) (Frame.Suspend (Some suspension)) → KeepsSuspension suspension payload.now
        → ReadsKept (IsAwaited suspension) result }
{
    if Feature::AwaitTree.is_later_than(version.number()) {
        read_lists(alloc, payload)
    } else {
        read_tree(alloc, payload)
    }
}

/// Whether these arrivals wake what is waited for: each leaf goes by its first.
pub fn is_woken(awaited: &Future, first: &FirstArrivals) -> bool
    ensures { (arrivals : List Arrival) → AreFirst first.now arrivals → result ≡ is_awake (future_tree awaited.now) (arrived_state arrivals) }
{
    is_awake(awaited, |leaf| first.state(leaf))
}
