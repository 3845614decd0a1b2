//! What is owed, by the rows of the outbox.

ghost use Rattle.std.specs.Prelude.{◌≡◌, ◌≤◌, ◌<◌, ◌^◌, ℕ, List, length, map, option_map, IfErr};
ghost use Rattle.std.specs.List.{AllByRecursion};
ghost use Rattle.sqlite.specs.Held.{state};
ghost use Rattle.sqlite.specs.State.{HasCleanDisk};
ghost use Rattle.journal_model.specs.Event.{Event};
ghost use Rattle.delivery_laws.specs.Outbox.{Outbox, OwedRow, row_key};
ghost use Rattle.store_tables.specs.Looks.{OnlyAsks};
ghost use Rattle.store_refusals.specs.Causes.{IsUnasked, TellsCause};
ghost use Rattle.store_refusals.specs.Preparations.{TellsOrRefuses};
ghost use Rattle.store_invocations.specs.Rows.{IsStoreOf};
ghost use Rattle.store_deliveries.specs.ReadRows.{AreKeptAs, count_given};
ghost use Rattle.store_deliveries.specs.StoredOutbox.{AreRowsOf, FitsRow, HasOutbox, kept_rows, row_of_key, row_of_number, row_told};

use crate::read::{known_message, number_in};
use crate::row::{OwedMessage, row_key};
use bytes::{ByteStr, Bytes};
use sqlite::Alter;
use std::alloc::Global;
use store_refusals::Refusal;
use store_tables::{StateRow, StoreTables, state_at, states_of};

/// The row of the outbox under a key, if there is one.
fn row_at<S: Alter>(tables: &mut StoreTables<S>, key: &Bytes) -> Result<Option<StateRow>, Refusal>
    ensures told { HasCleanDisk (state S.Store tables.new) → (events : List Event) (outbox : Outbox) → IsStoreOf events (state S.Store tables.old) → HasOutbox events outbox (state S.Store tables.old)
        → TellsOrRefuses (λ row. (row ≡ row_of_key outbox key.now) × AllByRecursion FitsRow outbox.rows) result }
    ensures looks { OnlyAsks S.Store tables.old tables.new }
    ensures cause { IfErr result (TellsCause (state S.Store tables.old) (state S.Store tables.new)) }
{
    let outbox = ByteStr::new();
    let row = state_at(tables, &outbox, key)?;
    Ok(row)
}

/// All rows of the outbox, by ascending keys.
fn all_rows<S: Alter>(tables: &mut StoreTables<S>) -> Result<Vec<StateRow>, Refusal>
    ensures told { HasCleanDisk (state S.Store tables.new) → (events : List Event) (outbox : Outbox) → IsStoreOf events (state S.Store tables.old) → HasOutbox events outbox (state S.Store tables.old)
        → TellsOrRefuses (λ rows. (rows.items ≡ kept_rows outbox) × AllByRecursion FitsRow outbox.rows) result }
    ensures looks { OnlyAsks S.Store tables.old tables.new }
    ensures cause { IfErr result (TellsCause (state S.Store tables.old) (state S.Store tables.new)) }
{
    let outbox = ByteStr::new();
    let rows = states_of(tables, &outbox)?;
    Ok(rows)
}

/// The number that the value of a row spells.
fn number_of(row: StateRow) -> Result<u64, Refusal>
    ensures told { (number : ℕ) → number < 2 ^ 64 → row.value ≡ row_key number → TellsOrRefuses (λ n. n ≡ number) result }
    ensures unasked { IfErr result IsUnasked }
{
    let found = number_in(row.value.as_slice());
    drop(row);
    match found {
        Some(number) => Ok(number),
        None => Err(Refusal::ForeignRow),
    }
}

/// The greatest number that was given.
pub(crate) fn given_number<S: Alter>(tables: &mut StoreTables<S>) -> Result<u64, Refusal>
    ensures told { HasCleanDisk (state S.Store tables.new) → (events : List Event) (outbox : Outbox) → IsStoreOf events (state S.Store tables.old) → HasOutbox events outbox (state S.Store tables.old) → TellsOrRefuses (λ n. n ≡ outbox.given) result }
    ensures looks { OnlyAsks S.Store tables.old tables.new }
    ensures cause { IfErr result (TellsCause (state S.Store tables.old) (state S.Store tables.new)) }
{
    let key = Bytes::new();
    let found = row_at(tables, &key)?;
    match found {
        Some(row) => number_of(row),
        None => Ok(0),
    }
}

/// The message of a number, if it is owed.
pub(crate) fn owed_message<S: Alter>(
    tables: &mut StoreTables<S>,
    number: u64,
) -> Result<Option<OwedMessage>, Refusal>
    ensures told { HasCleanDisk (state S.Store tables.new) → (events : List Event) (outbox : Outbox) → IsStoreOf events (state S.Store tables.old) → HasOutbox events outbox (state S.Store tables.old)
        → TellsOrRefuses (λ message. option_map row_told message ≡ row_of_number outbox number) result }
    ensures looks { OnlyAsks S.Store tables.old tables.new }
    ensures cause { IfErr result (TellsCause (state S.Store tables.old) (state S.Store tables.new)) }
{
    let key = row_key(tables.alloc(), number)?;
    let found = row_at(tables, &key)?;
    match found {
        Some(row) => {
            let message = known_message(&row);
            drop(row);
            match message {
                Ok(message) => Ok(Some(message)),
                Err(why) => Err(why),
            }
        }
        None => Ok(None),
    }
}

/// How many of the rows have the key of the greatest number that was given: the first, or none.
fn count_given(rows: &[StateRow]) -> usize
    ensures counted { result ≡ count_given rows.now }
    ensures within { result ≤ length rows.now }
{
    match rows.first() {
        Some(row) => { if row.key.is_empty() { 1 } else { 0 } }
        None => 0,
    }
}

/// The messages of these rows.
fn messages_in(alloc: Global, rows: &[StateRow]) -> Result<Vec<OwedMessage>, Refusal>
    ensures told { (owed : List OwedRow) → AreKeptAs owed rows.now → TellsOrRefuses (λ messages. map row_told messages.items ≡ owed) result }
    ensures unasked { IfErr result IsUnasked }
{
    let mut messages = Vec::new(alloc);
    for row in rows {
        match known_message(row) {
            Ok(message) => messages.push(message)?,
            Err(why) => {
                drop(messages);
                return Err(why);
            }
        }
    }
    Ok(messages)
}

/// What is owed, by ascending numbers.
pub fn owed_messages<S: Alter>(tables: &mut StoreTables<S>) -> Result<Vec<OwedMessage>, Refusal>
    ensures told { HasCleanDisk (state S.Store tables.new) → (events : List Event) (outbox : Outbox) → IsStoreOf events (state S.Store tables.old) → HasOutbox events outbox (state S.Store tables.old) → TellsOrRefuses (λ messages. AreRowsOf outbox messages.items) result }
    ensures looks { OnlyAsks S.Store tables.old tables.new }
    ensures cause { IfErr result (TellsCause (state S.Store tables.old) (state S.Store tables.new)) }
{
    let rows = all_rows(tables)?;
    let given = count_given(rows.as_slice());
    let messages = messages_in(tables.alloc(), &rows.as_slice()[given..]);
    drop(rows);
    messages
}
