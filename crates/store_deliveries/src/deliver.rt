//! A delivery, made ready.

ghost use Rattle.std.specs.Prelude.{◌≡◌, ◌++◌, ◌∷◌, [], List, Some, option_map, IfErr, IfOk};
ghost use Rattle.sqlite.specs.Held.{state};
ghost use Rattle.sqlite.specs.State.{HasCleanDisk};
ghost use Rattle.journal_model.specs.Event.{Event};
ghost use Rattle.delivery_laws.specs.Message.{message_at};
ghost use Rattle.delivery_laws.specs.Outbox.{Outbox, OwedRow};
ghost use Rattle.delivery_laws.specs.Delivery.{DeliveryRules, signal_brought, value_brought};
ghost use Rattle.store_tables.specs.Looks.{OnlyAsks};
ghost use Rattle.store_refusals.specs.Causes.{TellsCause};
ghost use Rattle.store_refusals.specs.Preparations.{TellsOrRefuses};
ghost use Rattle.store_invocations.specs.Rows.{IsStoreOf};
ghost use Rattle.store_deliveries.specs.Awakeables.{ReadsAwakeables, awakeable_read, named_told};
ghost use Rattle.store_deliveries.specs.PreparedDeliveries.{IsReady, PreparesDelivery, brought_by, is_cause, kept_with, writes_of_all};
ghost use Rattle.store_deliveries.specs.PreparedRows.{drop_write};
ghost use Rattle.store_deliveries.specs.RecordedMessages.{message_told};
ghost use Rattle.store_deliveries.specs.StoredOutbox.{HasOutbox};

use crate::awakeable::{NamedAwakeable, awakeable_in};
use crate::delivery::PreparedDelivery;
use crate::owed::owed_message;
use crate::recorded::{RecordedMessage, recorded_message};
use crate::row::drop_row;
use bytes::ByteStr;
use journal_model::{NotificationResult, SignalKey};
use sqlite::Alter;
use std::alloc::{AllocError, Global};
use store_arrivals::{PreparedArrival, prepare_signal};
use store_refusals::Refusal;
use store_tables::{StoreTables, Write};

fn is_cause(why: Refusal) -> bool
    ensures { result ≡ is_cause why }
{
    matches!(why, Refusal::Cause(_))
}

fn arrival_writes(made: PreparedArrival) -> Vec<Write>
    ensures { result.items ≡ made.writes.items }
{
    let PreparedArrival { writes, place: _ } = made;
    writes
}

/// What a signal writes that its target takes; nothing where the target refuses it.
fn signal_writes<S: Alter>(
    tables: &mut StoreTables<S>,
    target: &ByteStr,
    key: SignalKey,
    brought: NotificationResult,
) -> Result<Vec<Write>, Refusal>
    ensures told { HasCleanDisk (state S.Store tables.new) → (events : List Event) → IsStoreOf events (state S.Store tables.old)
        → TellsOrRefuses (λ writes. writes.items ≡ writes_of_all events (signal_brought events target.now key brought)) result }
    ensures looks { OnlyAsks S.Store tables.old tables.new }
    ensures cause { IfErr result (TellsCause (state S.Store tables.old) (state S.Store tables.new)) }
{
    match prepare_signal(tables, target, key, brought) {
        Ok(made) => Ok(arrival_writes(made)),
        Err(why) => {
            if is_cause(why) {
                Ok(Vec::new(tables.alloc()))
            } else {
                Err(why)
            }
        }
    }
}

/// These writes, and behind them that the row of a number goes.
fn with_drop(alloc: Global, number: u64, mut writes: Vec<Write>) -> Result<Vec<Write>, AllocError>
    ensures { IfOk result (λ all. all.items ≡ writes.items ++ drop_write number ∷ []) }
{
    let row = drop_row(alloc, number)?;
    writes.push(row)?;
    Ok(writes)
}

/// What the value of an awakeable writes, if one is named.
fn value_writes<S: Alter>(
    tables: &mut StoreTables<S>,
    named: Option<NamedAwakeable>,
    brought: NotificationResult,
) -> Result<Vec<Write>, Refusal>
    ensures told { HasCleanDisk (state S.Store tables.new) → (events : List Event) → IsStoreOf events (state S.Store tables.old)
        → TellsOrRefuses (λ writes. writes.items ≡ writes_of_all events (value_brought events (option_map named_told named) brought)) result }
    ensures looks { OnlyAsks S.Store tables.old tables.new }
    ensures cause { IfErr result (TellsCause (state S.Store tables.old) (state S.Store tables.new)) }
{
    match named {
        Some(NamedAwakeable { invocation, signal }) => {
            let writes = signal_writes(tables, &invocation, SignalKey::ByIndex(signal), brought);
            drop(invocation);
            writes
        }
        None => {
            drop(brought);
            Ok(Vec::new(tables.alloc()))
        }
    }
}

/// What the value of the awakeable writes that a text names, if it names one.
fn completion_writes<S: Alter>(
    tables: &mut StoreTables<S>,
    awakeable: ByteStr,
    brought: NotificationResult,
) -> Result<Vec<Write>, Refusal>
    ensures told { HasCleanDisk (state S.Store tables.new) → (events : List Event) → IsStoreOf events (state S.Store tables.old)
        → TellsOrRefuses (λ writes. writes.items ≡ writes_of_all events (value_brought events (awakeable_read awakeable) brought)) result }
    ensures looks { OnlyAsks S.Store tables.old tables.new }
    ensures cause { IfErr result (TellsCause (state S.Store tables.old) (state S.Store tables.new)) }
{
    let named = awakeable_in(tables.alloc(), &awakeable);
    drop(awakeable);
    match named {
        Ok(found) => value_writes(tables, found, brought),
        Err(refused) => {
            drop(brought);
            Err(Refusal::from(refused))
        }
    }
}

/// What a message writes.
fn message_writes<S: Alter>(
    tables: &mut StoreTables<S>,
    message: RecordedMessage,
) -> Result<Vec<Write>, Refusal>
    ensures told { HasCleanDisk (state S.Store tables.new) → (rules : DeliveryRules) (events : List Event) → ReadsAwakeables rules → IsStoreOf events (state S.Store tables.old)
        → TellsOrRefuses (λ writes. writes.items ≡ writes_of_all events (brought_by rules events message)) result }
    ensures looks { OnlyAsks S.Store tables.old tables.new }
    ensures cause { IfErr result (TellsCause (state S.Store tables.old) (state S.Store tables.new)) }
{
    match message {
        RecordedMessage::Tells {
            target,
            key,
            brought,
        } => {
            let writes = signal_writes(tables, &target, key, brought);
            drop(target);
            writes
        }
        RecordedMessage::Completes { awakeable, brought } => {
            completion_writes(tables, awakeable, brought)
        }
    }
}

/// What a message writes, and that the row of a number goes.
fn deliver_message<S: Alter>(
    tables: &mut StoreTables<S>,
    number: u64,
    message: RecordedMessage,
) -> Result<PreparedDelivery, Refusal>
    ensures made { HasCleanDisk (state S.Store tables.new) → (rules : DeliveryRules) (events : List Event) (outbox : Outbox) (row : OwedRow) → ReadsAwakeables rules
        → IsStoreOf events (state S.Store tables.old) → row.number ≡ number → message_at events row.sender row.place ≡ Some (message_told message)
        → TellsOrRefuses (IsReady rules (kept_with events outbox) row) result }
    ensures looks { OnlyAsks S.Store tables.old tables.new }
    ensures cause { IfErr result (TellsCause (state S.Store tables.old) (state S.Store tables.new)) }
{
    let writes = message_writes(tables, message)?;
    let all = with_drop(tables.alloc(), number, writes)?;
    Ok(PreparedDelivery::Ready(all))
}

/// What is made ready of the delivery of a number: what its message brings, and that its row goes. A message that its target refuses, and the
/// value of an awakeable that its text does not name, brings nothing, and its row goes.
pub fn prepare_delivery<S: Alter>(
    tables: &mut StoreTables<S>,
    number: u64,
) -> Result<PreparedDelivery, Refusal>
    ensures prepared { HasCleanDisk (state S.Store tables.new) → (rules : DeliveryRules) (events : List Event) (outbox : Outbox) → ReadsAwakeables rules
        → IsStoreOf events (state S.Store tables.old) → HasOutbox events outbox (state S.Store tables.old) → PreparesDelivery rules (kept_with events outbox) number result }
    ensures looks { OnlyAsks S.Store tables.old tables.new }
    ensures cause { IfErr result (TellsCause (state S.Store tables.old) (state S.Store tables.new)) }
{
    let found = owed_message(tables, number)?;
    match found {
        Some(owed) => {
            let message = recorded_message(tables, &owed.sender, owed.place);
            drop(owed);
            deliver_message(tables, number, message?)
        }
        None => Ok(PreparedDelivery::Settled),
    }
}
