//! What a signal makes ready, and a cancellation.

ghost use Rattle.std.specs.Prelude.{◌≡◌, List, IfErr};
ghost use Rattle.sqlite.specs.Held.{state};
ghost use Rattle.sqlite.specs.State.{HasCleanDisk};
ghost use Rattle.journal_model.specs.Notification.{Text};
ghost use Rattle.journal_model.specs.Event.{Event};
ghost use Rattle.store_frames.specs.ReadFrames.{SignalKeyFits};
ghost use Rattle.journal_model.specs.Cause.{may_signal, own_tests};
ghost use Rattle.store_tables.specs.Looks.{OnlyAsks};
ghost use Rattle.store_refusals.specs.Preparations.{Prepares};
ghost use Rattle.store_refusals.specs.RefusalConditions.{refusal_by};
ghost use Rattle.store_invocations.specs.Rows.{Decides, IsOpenRow, IsStoreOf};
ghost use Rattle.store_arrivals.specs.Arrivals.{IsMadeReady};
ghost use Rattle.store_arrivals.specs.Signals.{signal_tests};
ghost use Rattle.store_refusals.specs.Causes.{TellsCause};

use crate::arrival::PreparedArrival;
use crate::woken::prepare_woken;
use bytes::ByteStr;
use journal_model::{Notification, NotificationId, NotificationResult, SignalKey};
use protocol_stream::MessageType;
use sqlite::Alter;
use store_invocations::open_row;
use store_refusals::{Cause, Refusal};
use store_tables::{InvocationRow, StoreTables};

/// It does nothing: its contract says that the number of a key has 32 bits.
fn note_number(key: &SignalKey)
    ensures { SignalKeyFits key.now }
{
    if let SignalKey::ByIndex(number) = key {
        let _number = *number;
    }
}

/// Whether a signal may carry this.
fn may_carry(brought: &NotificationResult) -> bool
    ensures { result ≡ may_signal brought.now }
{
    matches!(
        brought,
        NotificationResult::Void | NotificationResult::Value(_) | NotificationResult::Failure(_)
    )
}

/// Why a signal is refused: for what it carries, or for its number.
fn signal_refusal(key: &SignalKey, brought: &NotificationResult) -> Option<Refusal>
    ensures { result ≡ refusal_by (signal_tests key.now brought.now) }
{
    if !may_carry(brought) {
        return Some(Refusal::Cause(Cause::WrongKind));
    }
    if key.is_reserved() {
        return Some(Refusal::Cause(Cause::ReservedSignal));
    }
    None
}

/// What a signal makes ready, of the open invocation that has this row.
fn signal_for<S: Alter>(
    tables: &mut StoreTables<S>,
    row: InvocationRow,
    key: SignalKey,
    brought: NotificationResult,
) -> Result<PreparedArrival, Refusal>
    ensures decided { HasCleanDisk (state S.Store tables.new) → (events : List Event) (id : Text) → IsStoreOf events (state S.Store tables.old) → IsOpenRow events id row
        → Decides (own_tests events (Event.Signal id key brought)) (IsMadeReady events (Event.Signal id key brought) id) result }
    ensures looks { OnlyAsks S.Store tables.old tables.new }
    ensures cause { IfErr result (TellsCause (state S.Store tables.old) (state S.Store tables.new)) }
{
    match signal_refusal(&key, &brought) {
        Some(why) => {
            drop(row);
            drop(key);
            drop(brought);
            Err(why)
        }
        None => prepare_woken(
            tables,
            row,
            MessageType::SignalNotification,
            Notification {
                id: key.into_id(),
                result: brought,
            },
        ),
    }
}

/// What a cancellation makes ready, of the open invocation that has this row.
fn cancel_for<S: Alter>(
    tables: &mut StoreTables<S>,
    row: InvocationRow,
) -> Result<PreparedArrival, Refusal>
    ensures decided { HasCleanDisk (state S.Store tables.new) → (events : List Event) (id : Text) → IsStoreOf events (state S.Store tables.old) → IsOpenRow events id row
        → Decides (own_tests events (Event.Cancel id)) (IsMadeReady events (Event.Cancel id) id) result }
    ensures looks { OnlyAsks S.Store tables.old tables.new }
    ensures cause { IfErr result (TellsCause (state S.Store tables.old) (state S.Store tables.new)) }
{
    prepare_woken(
        tables,
        row,
        MessageType::SignalNotification,
        Notification {
            id: NotificationId::SignalId(1),
            result: NotificationResult::Void,
        },
    )
}

/// What a signal from outside makes ready, or why it is refused.
pub fn prepare_signal<S: Alter>(
    tables: &mut StoreTables<S>,
    id: &ByteStr,
    key: SignalKey,
    brought: NotificationResult,
) -> Result<PreparedArrival, Refusal>
    ensures prepared { HasCleanDisk (state S.Store tables.new) → (events : List Event) → IsStoreOf events (state S.Store tables.old)
        → Prepares events (Event.Signal id.now key brought) (IsMadeReady events (Event.Signal id.now key brought) id.now) result }
    ensures fits { SignalKeyFits key }
    ensures looks { OnlyAsks S.Store tables.old tables.new }
    ensures cause { IfErr result (TellsCause (state S.Store tables.old) (state S.Store tables.new)) }
{
    note_number(&key);
    match open_row(tables, id) {
        Ok(row) => signal_for(tables, row, key, brought),
        Err(why) => {
            drop(key);
            drop(brought);
            Err(why)
        }
    }
}

/// What a cancellation makes ready, or why it is refused.
pub fn prepare_cancel<S: Alter>(
    tables: &mut StoreTables<S>,
    id: &ByteStr,
) -> Result<PreparedArrival, Refusal>
    ensures prepared { HasCleanDisk (state S.Store tables.new) → (events : List Event) → IsStoreOf events (state S.Store tables.old)
        → Prepares events (Event.Cancel id.now) (IsMadeReady events (Event.Cancel id.now) id.now) result }
    ensures looks { OnlyAsks S.Store tables.old tables.new }
    ensures cause { IfErr result (TellsCause (state S.Store tables.old) (state S.Store tables.new)) }
{
    match open_row(tables, id) {
        Ok(row) => cancel_for(tables, row),
        Err(why) => Err(why),
    }
}
