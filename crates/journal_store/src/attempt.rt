// What is done to a live attempt. The database is asked for the next frame of its input, and to tell why an attempt is not live.
ghost use Rattle.std.specs.Prelude.{◌≡◌, ◌≤◌, ◌<◌, ◌^◌, true, length, List, [], Ok, None, IfErr, IfOk, OnErr};
ghost use Rattle.journal_model.specs.Event.{Event};
ghost use Rattle.store_tables.specs.Looks.{OnlyAsks};
ghost use Rattle.store_invocations.specs.Rows.{IsStoreOf};
ghost use Rattle.store_refusals.specs.declared.refusal.Refusal.TheVariants.{OutOfMemory};
ghost use Rattle.store_calls.specs.Calls.{ClosesStoredInput, Pushes, HandsOut, Stops};
ghost use Rattle.store_refusals.specs.Preparations.{TellsOrRefuses};
ghost use Rattle.store_live.specs.Attempts.{ChangesLive};
ghost use Rattle.store_live.specs.Input.{next_ordinal};
ghost use Rattle.journal_store.specs.Attempts.{FitsNext, GivesOneFrame, HasRoomFor, IsStale, IsWanted, ReadsNext, after_wanted, has_closed, has_none_left, has_rest};
ghost use Rattle.journal_store.specs.StoreStanding.{HasRow, IsQuiet, KeepsOutputs, Leads, WaitsAfter};
ghost use Rattle.journal_store.specs.StoreView.{stored};
ghost use Rattle.journal_store.specs.Words.{state, HasCleanDisk, AreTablesKept, attempt_of, has_number};
ghost use Rattle.store_refusals.specs.Causes.{TellsCause};
ghost use Rattle.journal_store.specs.Causes.{TellsWhy};

use crate::store::Store;
use bytes::{ByteStr, Bytes};
use sqlite::Alter;
use store_invocations::open_row;
use store_live::{FrameRead, LiveAttempt, LiveAttempts, NextRow};
use store_reads::next_frame;
use store_refusals::{Cause, Refusal};
use store_tables::StoreTables;

/// Whether the live attempt of an invocation has this number.
pub(crate) fn is_live(live: &LiveAttempts, id: &ByteStr, attempt: u32) -> bool
    ensures { result ≡ has_number attempt (attempt_of live.now.attempts id.now) }
{
    match live.get(id) {
        Some(one) => one.number == attempt,
        None => false,
    }
}

/// Whether the input of the live attempt was closed.
fn is_closed(live: &LiveAttempts, id: &ByteStr) -> bool
    ensures { result ≡ has_closed (attempt_of live.now.attempts id.now) }
{
    match live.get(id) {
        Some(one) => one.is_input_closed,
        None => false,
    }
}

/// Whether bytes that were read of the live attempt's input were not handed out.
fn is_rest_left(live: &LiveAttempts, id: &ByteStr) -> bool
    ensures { result ≡ has_rest (attempt_of live.now.attempts id.now) }
{
    match live.get(id) {
        Some(one) => !one.input.is_read_out(),
        None => false,
    }
}

/// Whether the row of the invocation says that the next frame of the input was not recorded yet.
fn has_none_left(one: &LiveAttempt) -> bool
    ensures { next_ordinal one.now.input < 2 ^ 32 → result ≡ has_none_left one.now }
{
    match one.input.next_row() {
        NextRow::Entry(_) => false,
        NextRow::Arrival(ordinal) => one.row.progress.arrivals < ordinal,
    }
}

/// The next frame of the live attempt's input, from its row, once all before it was handed out. No row is read where that of the invocation
/// says that there is none.
fn frame_wanted<S: Alter>(
    tables: &mut StoreTables<S>,
    live: &LiveAttempts,
    id: &ByteStr,
) -> Result<Option<FrameRead>, Refusal>
    ensures told { HasCleanDisk (state S.Store tables.new) → (events : List Event) → IsStoreOf events (state S.Store tables.old) → HasRow events id.now (attempt_of live.now.attempts id.now) → FitsNext (attempt_of live.now.attempts id.now)
        → TellsOrRefuses (IsWanted events id.now (attempt_of live.now.attempts id.now)) result }
    ensures looks { OnlyAsks S.Store tables.old tables.new }
    ensures cause { IfErr result (TellsCause (state S.Store tables.old) (state S.Store tables.new)) }
{
    let Some(one) = live.get(id) else {
        return Ok(None);
    };
    if !one.input.is_read_out() {
        return Ok(None);
    }
    if has_none_left(one) {
        return Ok(None);
    }
    next_frame(tables, id, &one.input)
}

/// Takes in the frame that was read.
fn put_wanted(live: &mut LiveAttempts, id: &ByteStr, found: Option<FrameRead>)
    ensures told { HasRoomFor found (attempt_of live.old.attempts id.now) → ChangesLive id.now (after_wanted found) live.old.attempts live.new.attempts }
    ensures waits { KeepsOutputs live.old.attempts live.new.attempts }
{
    if let Some(frame) = found {
        live.put_frame(id, frame);
    }
}

/// Reads the next frame of the live attempt's input, once all before it was handed out.
fn read_next<S: Alter>(
    tables: &mut StoreTables<S>,
    live: &mut LiveAttempts,
    id: &ByteStr,
) -> Result<(), Refusal>
    ensures reads { ReadsNext S.Store id.now result (stored tables.old live.old) (stored tables.new live.new) }
    ensures stays { OnErr result (live.new ≡ live.old) }
    ensures waits { KeepsOutputs live.old.attempts live.new.attempts }
    ensures looks { OnlyAsks S.Store tables.old tables.new }
    ensures cause { IfErr result (TellsCause (state S.Store tables.old) (state S.Store tables.new)) }
{
    let found = frame_wanted(tables, live, id)?;
    put_wanted(live, id, found);
    Ok(())
}

/// Why a call is refused on an attempt that is not live.
pub(crate) fn stale_refusal<S: Alter>(tables: &mut StoreTables<S>, id: &ByteStr) -> Refusal
    ensures told { HasCleanDisk (state S.Store tables.new) → (events : List Event) → IsStoreOf events (state S.Store tables.old) → IsStale events id.now result }
    ensures looks { OnlyAsks S.Store tables.old tables.new }
    ensures cause { TellsCause (state S.Store tables.old) (state S.Store tables.new) result }
{
    match open_row(tables, id) {
        Ok(row) => {
            drop(row);
            Refusal::Cause(Cause::AttemptNotLive)
        }
        Err(why) => why,
    }
}

impl<S: Alter + Drop> Store<S> {
    /// The next bytes that the attempt is handed, of one frame and at most so many: none only where `most` is 0 or none remain. One row
    /// at most is read.
    pub fn next_input(&mut self, id: &ByteStr, attempt: u32, most: usize) -> Result<Bytes, Refusal>
        ensures does { Leads S.Store (HandsOut id.now attempt most result) self.old self.new }
        ensures few { IfOk result (λ bytes. length bytes ≤ most) }
        ensures frame { GivesOneFrame S.Store id.now result self.old self.new }
        ensures waits { KeepsOutputs self.old.live.attempts self.new.live.attempts }
        ensures kept { AreTablesKept (state S.Store self.old.connection) (state S.Store self.new.connection) }
        ensures cause { IfErr result (TellsWhy S.Store self.old self.new) }
        ensures crash { IsQuiet S.Store self.old self.new }
    {
        if !is_live(&self.live, id, attempt) {
            return Err(stale_refusal(&mut self.tables, id));
        }
        if is_closed(&self.live, id) {
            return Err(Refusal::Cause(Cause::InputAlreadyClosed));
        }
        read_next(&mut self.tables, &mut self.live, id)?;
        let bytes = self.live.hand_out(id, most)?;
        Ok(bytes)
    }

    /// No more is handed to the attempt. All of its input was: one row at most is read to tell.
    pub fn close_input(&mut self, id: &ByteStr, attempt: u32) -> Result<(), Refusal>
        ensures does { Leads S.Store (ClosesStoredInput id.now attempt result) self.old self.new }
        ensures frame { GivesOneFrame S.Store id.now (Ok []) self.old self.new }
        ensures waits { KeepsOutputs self.old.live.attempts self.new.live.attempts }
        ensures kept { AreTablesKept (state S.Store self.old.connection) (state S.Store self.new.connection) }
        ensures cause { IfErr result (TellsWhy S.Store self.old self.new) }
        ensures crash { IsQuiet S.Store self.old self.new }
    {
        if !is_live(&self.live, id, attempt) {
            return Err(stale_refusal(&mut self.tables, id));
        }
        read_next(&mut self.tables, &mut self.live, id)?;
        if is_rest_left(&self.live, id) {
            return Err(Refusal::Cause(Cause::InputRemains));
        }
        if is_closed(&self.live, id) {
            return Err(Refusal::Cause(Cause::InputAlreadyClosed));
        }
        self.live.close_input(id);
        Ok(())
    }

    /// Takes in the next bytes that the attempt wrote. `step` then takes the frames among them. Of a live attempt they are refused
    /// for want of memory alone, and the database is not asked.
    pub fn push(&mut self, id: &ByteStr, attempt: u32, bytes: &[u8]) -> Result<(), Refusal>
        ensures does { Leads S.Store (Pushes id.now attempt bytes.now result) self.old self.new }
        ensures live { has_number attempt (attempt_of self.old.live.attempts id.now) ≡ true → IfErr result (λ why. why ≡ OutOfMemory) }
        ensures asks { has_number attempt (attempt_of self.old.live.attempts id.now) ≡ true → self.new.connection ≡ self.old.connection }
        ensures kept { AreTablesKept (state S.Store self.old.connection) (state S.Store self.new.connection) }
        ensures cause { IfErr result (TellsWhy S.Store self.old self.new) }
        ensures crash { IsQuiet S.Store self.old self.new }
    {
        if !is_live(&self.live, id, attempt) {
            return Err(stale_refusal(&mut self.tables, id));
        }
        self.live.push_output(id, bytes)?;
        Ok(())
    }

    /// Ends the attempt: what it writes from now on is refused. Of a live attempt it always succeeds.
    pub fn stop(&mut self, id: &ByteStr, attempt: u32) -> Result<(), Refusal>
        ensures does { Leads S.Store (Stops id.now attempt result) self.old self.new }
        ensures live { has_number attempt (attempt_of self.old.live.attempts id.now) ≡ true → IfErr result (λ _. ⊥) }
        ensures asks { has_number attempt (attempt_of self.old.live.attempts id.now) ≡ true → self.new.connection ≡ self.old.connection }
        ensures waits { WaitsAfter id.now None result self.old.live.attempts self.new.live.attempts }
        ensures cause { IfErr result (TellsWhy S.Store self.old self.new) }
        ensures crash { IsQuiet S.Store self.old self.new }
    {
        if !is_live(&self.live, id, attempt) {
            return Err(stale_refusal(&mut self.tables, id));
        }
        self.live.remove(id);
        Ok(())
    }
}
