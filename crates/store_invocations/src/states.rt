//! The state of an object.

ghost use Rattle.std.specs.Prelude.{◌≡◌, List, map, IfErr};
ghost use Rattle.std.specs.List.{list_all};
ghost use Rattle.std.specs.Str.{is_utf8};
ghost use Rattle.sqlite.specs.Held.{state};
ghost use Rattle.sqlite.specs.State.{HasCleanDisk};
ghost use Rattle.journal_model.specs.Event.{Event};
ghost use Rattle.journal_model.specs.Journal.{object_state};
ghost use Rattle.store_model.specs.KeptRecords.{state_row};
ghost use Rattle.store_tables.specs.Looks.{OnlyAsks};
ghost use Rattle.store_tables.specs.declared.row.StateRow.{StateRow};
ghost use Rattle.store_refusals.specs.Preparations.{TellsOrRefuses};
ghost use Rattle.store_invocations.specs.Rows.{IsStoreOf};
ghost use Rattle.store_refusals.specs.Causes.{TellsCause};

use bytes::{ByteStr, Bytes};
use sqlite::Alter;
use std::str;
use store_refusals::Refusal;
use store_tables::{StateRow, StoreTables, states_of};

fn is_text(key: &Bytes) -> bool
    ensures { result ≡ is_utf8 key.now }
{
    match str::from_utf8(key.as_slice()) {
        Ok(_) => true,
        Err(_) => false,
    }
}

/// Whether the keys are text, as those are that a store writes.
fn are_keys_text(states: &[StateRow]) -> bool
    ensures { result ≡ list_all (λ (row : StateRow). is_utf8 row.key) states.now }
{
    for row in states {
        if !is_text(&row.key) {
            return false;
        }
    }
    true
}

/// The values of an object, by ascending keys. A key that is no text is that of a foreign row.
pub fn object_states<S: Alter>(
    tables: &mut StoreTables<S>,
    object: &ByteStr,
) -> Result<Vec<StateRow>, Refusal>
    ensures told { HasCleanDisk (state S.Store tables.new) → (events : List Event) → IsStoreOf events (state S.Store tables.old) → TellsOrRefuses (λ states. states.items ≡ map (state_row object.now) (object_state events object.now)) result }
    ensures looks { OnlyAsks S.Store tables.old tables.new }
    ensures cause { IfErr result (TellsCause (state S.Store tables.old) (state S.Store tables.new)) }
{
    let states = states_of(tables, object)?;
    if !are_keys_text(states.as_slice()) {
        drop(states);
        return Err(Refusal::ForeignRow);
    }
    Ok(states)
}
