//! Whether arrivals wake what a suspended attempt waits for.

ghost use Rattle.std.specs.Prelude.{◌≡◌, ◌++◌, List, false, Some, Err, drop as without, IfErr};
ghost use Rattle.sqlite.specs.Held.{state};
ghost use Rattle.sqlite.specs.State.{HasCleanDisk};
ghost use Rattle.journal_model.specs.Notification.{Arrival};
ghost use Rattle.journal_model.specs.Event.{Event, Frame, Suspension};
ghost use Rattle.journal_model.specs.Journal.{recorded_arrivals};
ghost use Rattle.journal_model.specs.Attempt.{is_woken};
ghost use Rattle.protocol_types.specs.Version.{version_number};
ghost use Rattle.protocol_trees.specs.Future.{future_tree};
ghost use Rattle.store_frames.specs.Answer.{KeepsSuspension};
ghost use Rattle.store_frames.specs.ReadFrames.{IsFrameRead};
ghost use Rattle.store_frames.specs.First.{AreFirst};
ghost use Rattle.store_frames.specs.KeptArrivals.{ReadsKept};
ghost use Rattle.store_frames.specs.AwaitedFutures.{IsAwaited};
ghost use Rattle.store_tables.specs.Looks.{OnlyAsks};
ghost use Rattle.store_refusals.specs.Preparations.{TellsOrRefuses};
ghost use Rattle.store_invocations.specs.Rows.{IsStoreOf};
ghost use Rattle.store_arrivals.specs.ArrivalRows.{AreRowsOf, fault_refusal};
ghost use Rattle.store_arrivals.specs.NamedArrivals.{names_any};
ghost use Rattle.store_refusals.specs.Causes.{IsUnasked, TellsCause};

use crate::named::names_any;
use bytes::ByteStr;
use journal_model::Notification;
use protocol_records::Future;
use protocol_types::Version;
use sqlite::Alter;
use std::alloc::Global;
use store_frames::{FirstArrivals, KeptFault, awaited};
use store_refusals::Refusal;
use store_tables::{EntryRow, StoreTables, arrivals_after};

/// What is kept and not read is a row that no store writes.
fn refusal_of(fault: KeptFault) -> Refusal
    ensures { result ≡ fault_refusal fault }
{
    match fault {
        KeptFault::OutOfMemory => Refusal::OutOfMemory,
        KeptFault::Foreign => Refusal::ForeignRow,
    }
}

/// The arrivals of these rows.
fn hear_rows(alloc: Global, rows: &[EntryRow]) -> Result<FirstArrivals, KeptFault>
    ensures { (arrivals : List Arrival) → AreRowsOf arrivals rows.now → ReadsKept (λ first. AreFirst first arrivals) result }
{
    let mut first = FirstArrivals::new(alloc);
    for row in rows {
        match first.hear_kept(alloc, row.answered, row.payload.as_slice()) {
            Ok(()) => {}
            Err(fault) => {
                drop(first);
                return Err(fault);
            }
        }
    }
    Ok(first)
}

/// These behind the others.
fn with_new(
    kept: Result<FirstArrivals, KeptFault>,
    new: &[Notification],
) -> Result<FirstArrivals, Refusal>
    ensures told { (arrivals : List Arrival) → ReadsKept (λ first. AreFirst first arrivals) kept → TellsOrRefuses (λ first. AreFirst first (arrivals ++ new.now)) result }
    ensures unasked { IfErr result IsUnasked }
{
    match kept {
        Ok(mut first) => match first.hear_all(new) {
            Ok(()) => Ok(first),
            Err(_) => {
                drop(first);
                Err(Refusal::OutOfMemory)
            }
        },
        Err(fault) => Err(refusal_of(fault)),
    }
}

/// The recorded arrivals of an invocation behind so many, and these behind them.
fn heard_after<S: Alter>(
    tables: &mut StoreTables<S>,
    id: &ByteStr,
    heard: u32,
    new: &[Notification],
) -> Result<FirstArrivals, Refusal>
    ensures told { HasCleanDisk (state S.Store tables.new) → (events : List Event) → IsStoreOf events (state S.Store tables.old)
        → TellsOrRefuses (λ first. AreFirst first (without heard (recorded_arrivals events id.now) ++ new.now)) result }
    ensures looks { OnlyAsks S.Store tables.old tables.new }
    ensures cause { IfErr result (TellsCause (state S.Store tables.old) (state S.Store tables.new)) }
{
    let rows = arrivals_after(tables, id, heard)?;
    let kept = hear_rows(tables.alloc(), rows.as_slice());
    drop(rows);
    with_new(kept, new)
}

/// Whether what was heard, if it was, wakes what is awaited.
fn woken_by(awaited: Future, heard: Result<FirstArrivals, Refusal>) -> Result<bool, Refusal>
    ensures told { (suspension : Suspension) (arrivals : List Arrival) → IsAwaited suspension awaited → TellsOrRefuses (λ first. AreFirst first arrivals) heard
        → TellsOrRefuses (λ woken. woken ≡ is_woken arrivals (Some suspension)) result }
    ensures refused { IfErr result (λ why. heard ≡ Err why) }
{
    match heard {
        Ok(first) => {
            let woken = store_frames::is_woken(&awaited, &first);
            drop(first);
            drop(awaited);
            Ok(woken)
        }
        Err(why) => {
            drop(awaited);
            Err(why)
        }
    }
}

/// Whether an attempt that was suspended, by the payload that is kept of it, is woken by the recorded arrivals behind so many, which it
/// heard, and by these behind them. Its invocation speaks this version.
pub fn is_woken<S: Alter>(
    tables: &mut StoreTables<S>,
    id: &ByteStr,
    version: Version,
    suspension: &[u8],
    heard: u32,
    new: &[Notification],
) -> Result<bool, Refusal>
    ensures told { HasCleanDisk (state S.Store tables.new) → (events : List Event) → IsStoreOf events (state S.Store tables.old)
        → (waits : Suspension) → IsFrameRead (version_number version) (Frame.Suspend (Some waits)) → KeepsSuspension waits suspension.now
        → TellsOrRefuses (λ woken. woken ≡ is_woken (without heard (recorded_arrivals events id.now) ++ new.now) (Some waits)) result }
    ensures looks { OnlyAsks S.Store tables.old tables.new }
    ensures cause { IfErr result (TellsCause (state S.Store tables.old) (state S.Store tables.new)) }
{
    match awaited(tables.alloc(), version, suspension) {
        Ok(awaited) => {
            let heard = heard_after(tables, id, heard, new);
            woken_by(awaited, heard)
        }
        Err(fault) => Err(refusal_of(fault)),
    }
}

/// Whether a leaf of what is awaited is the id of one of these arrivals.
fn is_named(alloc: Global, awaited: &Future, new: &[Notification]) -> Result<bool, Refusal>
    ensures told { TellsOrRefuses (λ named. named ≡ names_any new.now (future_tree awaited.now)) result }
    ensures unasked { IfErr result IsUnasked }
{
    match with_new(Ok(FirstArrivals::new(alloc)), new) {
        Ok(first) => {
            let named = names_any(awaited, &first);
            drop(first);
            Ok(named)
        }
        Err(why) => Err(why),
    }
}

/// Whether what is awaited, and not woken by the recorded arrivals behind so many, is woken by these behind them.
fn woken_by_new<S: Alter>(
    tables: &mut StoreTables<S>,
    id: &ByteStr,
    awaited: Future,
    heard: u32,
    new: &[Notification],
) -> Result<bool, Refusal>
    ensures told { HasCleanDisk (state S.Store tables.new) → (events : List Event) → IsStoreOf events (state S.Store tables.old)
        → (waits : Suspension) → IsAwaited waits awaited → is_woken (without heard (recorded_arrivals events id.now)) (Some waits) ≡ false
        → TellsOrRefuses (λ woken. woken ≡ is_woken (without heard (recorded_arrivals events id.now) ++ new.now) (Some waits)) result }
    ensures looks { OnlyAsks S.Store tables.old tables.new }
    ensures cause { IfErr result (TellsCause (state S.Store tables.old) (state S.Store tables.new)) }
{
    match is_named(tables.alloc(), &awaited, new) {
        Ok(true) => {
            let heard = heard_after(tables, id, heard, new);
            woken_by(awaited, heard)
        }
        Ok(false) => {
            drop(awaited);
            Ok(false)
        }
        Err(why) => {
            drop(awaited);
            Err(why)
        }
    }
}

/// Whether an attempt that was suspended, by the payload that is kept of it, and is not woken by the recorded arrivals behind so many,
/// which it heard, is woken by these behind them. Where what it waits for names none of these, no arrival is read.
pub(crate) fn is_woken_by_new<S: Alter>(
    tables: &mut StoreTables<S>,
    id: &ByteStr,
    version: Version,
    suspension: &[u8],
    heard: u32,
    new: &[Notification],
) -> Result<bool, Refusal>
    ensures told { HasCleanDisk (state S.Store tables.new) → (events : List Event) → IsStoreOf events (state S.Store tables.old)
        → (waits : Suspension) → IsFrameRead (version_number version) (Frame.Suspend (Some waits)) → KeepsSuspension waits suspension.now
        → is_woken (without heard (recorded_arrivals events id.now)) (Some waits) ≡ false
        → TellsOrRefuses (λ woken. woken ≡ is_woken (without heard (recorded_arrivals events id.now) ++ new.now) (Some waits)) result }
    ensures looks { OnlyAsks S.Store tables.old tables.new }
    ensures cause { IfErr result (TellsCause (state S.Store tables.old) (state S.Store tables.new)) }
{
    match awaited(tables.alloc(), version, suspension) {
        Ok(awaited) => woken_by_new(tables, id, awaited, heard, new),
        Err(fault) => Err(refusal_of(fault)),
    }
}
