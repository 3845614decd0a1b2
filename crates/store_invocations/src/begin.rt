//! What a begin makes ready.

ghost use Rattle.std.specs.Prelude.{◌≡◌, List, IfErr};
ghost use Rattle.sqlite.specs.Held.{state};
ghost use Rattle.sqlite.specs.State.{HasCleanDisk};
ghost use Rattle.journal_model.specs.Event.{Event};
ghost use Rattle.store_tables.specs.Looks.{OnlyAsks};
ghost use Rattle.store_refusals.specs.Preparations.{Prepares};
ghost use Rattle.store_invocations.specs.Rows.{IsStoreOf};
ghost use Rattle.store_invocations.specs.BegunAttempts.{IsBegun};
ghost use Rattle.store_refusals.specs.Causes.{TellsCause};

use crate::attempt::PreparedAttempt;
use crate::prepare::prepare_next;
use crate::row::open_row;
use bytes::ByteStr;
use sqlite::Alter;
use std::alloc::Global;
use store_refusals::Refusal;
use store_tables::StoreTables;

/// What a begin of an attempt makes ready: what is to be written of the invocation, and the start frame. Of an invocation that is shown
/// its object's state that state is read. The journal is counted, and no entry of it is read.
pub fn prepare_begin<S: Alter>(
    tables: &mut StoreTables<S>,
    id: &ByteStr,
    now: u64,
) -> Result<PreparedAttempt, Refusal>
    ensures prepared { HasCleanDisk (state S.Store tables.new) → (events : List Event) → IsStoreOf events (state S.Store tables.old) → Prepares events (Event.Begin id.now now) (IsBegun events id.now now) result }
    ensures looks { OnlyAsks S.Store tables.old tables.new }
    ensures cause { IfErr result (TellsCause (state S.Store tables.old) (state S.Store tables.new)) }
{
    let row = open_row(tables, id)?;
    prepare_next(tables, row, now)
}
