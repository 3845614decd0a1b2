//! What SQL's own rules refuse of the writes of a store, and for what they never do. The functions do nothing: their contracts are
//! the laws.
#![tactic(auto)]

ghost use Rattle.store_sql_laws.specs.Events.{NoEventTakesAKey};
ghost use Rattle.store_sql_laws.specs.Keys.{NoKeyIsTaken};
ghost use Rattle.store_sql_laws.specs.Room.{EventsWantRoom, WritesWantRoom};
ghost use Rattle.store_sql_laws.specs.Rowids.{NoRowidIsTaken, UnbrokenAscend};
ghost use Rattle.store_sql_laws.specs.Size.{NoneIsTooBig};

use sqlite::Alter;

/// Over tables whose keys are apart, a write is not refused for a key that stands already, where each invocation that it adds is new.
/// Nor is what is written of an event, over tables that keep the accepted events.
pub fn no_key_is_taken()
    ensures writes { NoKeyIsTaken }
    ensures events { NoEventTakesAKey }
{}

/// Over tables whose rows ascend by their rowids, no write is refused for a rowid that is taken.
pub fn no_rowid_is_taken()
    ensures { NoRowidIsTaken }
{}

/// Rows ascend so in the store of a connection, where no failure has broken it.
pub fn unbroken_tables_ascend<S: Alter>()
    ensures { UnbrokenAscend S.Store }
{}

/// So, over such tables, a write is refused for a row that is too big or for the last rowid alone, and where a limit on steps is met.
pub fn room_is_wanted()
    ensures writes { WritesWantRoom }
    ensures events { EventsWantRoom }
{}

/// A write whose rows take a billion bytes at most each is not refused for one that is too big.
pub fn none_is_too_big()
    ensures { NoneIsTooBig }
{}
