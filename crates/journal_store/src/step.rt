// Frames of an attempt are taken one by one: what a frame asks for is recorded, and then it is passed.
ghost use Rattle.std.specs.Prelude.{◌≡◌, ◌≤◌, true, length, option_map, Some, IfOk, OnErr, OnOk, IfErr};
ghost use Rattle.std.specs.Option.{ForSome};
ghost use Rattle.store_steps.specs.PreparedFrames.{does_end, lies_in_frame};
ghost use Rattle.store_live.specs.Attempts.{ChangesLive, IsNow};
ghost use Rattle.store_calls.specs.Frames.{StepsAttempt, TakesOne};
ghost use Rattle.journal_store.specs.StoreStanding.{Endures, Leads};
ghost use Rattle.journal_store.specs.FrameAcceptance.{HasMessage, HasMessageOf, HasRoomToNote, IsEndedBy, IsFirstOf, IsFirstSeen, IsSeenOf, SettlesStep, after_noted, after_room, passed};
ghost use Rattle.journal_store.specs.Attempts.{IsNowNoted};
ghost use Rattle.journal_store.specs.Words.{state, AreTablesKept, AreAsBefore, attempt_of, has_number};
ghost use Rattle.journal_store.specs.StoreTransaction.{WritesRows};
ghost use Rattle.journal_store.specs.Causes.{TellsWhyUnwritten, TriesFrame};

use crate::attempt::{is_live, stale_refusal};
use crate::events::commit;
use crate::store::Store;
use bytes::ByteStr;
use sqlite::Alter;
use std::alloc::{AllocError, Global};
use store_frames::{AttemptFrame, read_frame_at};
use store_live::{FirstItem, HEADER_LEN, LiveAttempt, LiveAttempts, copied_row};
use store_refusals::{Cause, Refusal};
use store_steps::{FrameReply, LiveFacts, PreparedFrame, prepare_frame, refusal_ends_attempt};
use store_tables::{InvocationRow, Write};

/// A whole frame that stands first.
#[derive(Debug, Drop)]
pub(crate) struct SeenFrame {
    pub(crate) frame: AttemptFrame,
    /// How many bytes it is.
    pub(crate) len: usize,
    /// What is known of its attempt.
    pub(crate) facts: LiveFacts,
    /// The row of its invocation.
    pub(crate) row: InvocationRow,
}

/// What stands first of the bytes that an attempt wrote.
#[derive(Debug, Drop)]
enum FirstSeen {
    /// No whole frame.
    Partial,
    /// A header of unknown type.
    Unknown,
    Frame(SeenFrame),
}

/// Looks at what stands first of the bytes that an attempt wrote.
fn first_seen(alloc: Global, attempt: &LiveAttempt) -> Result<FirstSeen, AllocError>
    ensures seen { IfOk result (IsFirstSeen attempt.now) }
    ensures whole { OnErr result (HasMessage attempt.now) }
{
    match attempt.output.first() {
        FirstItem::Partial => Ok(FirstSeen::Partial),
        FirstItem::Unknown => Ok(FirstSeen::Unknown),
        FirstItem::Frame { header, payload } => {
            let row = copied_row(&attempt.row)?;
            match read_frame_at(alloc, attempt.version, header, payload) {
                Ok(frame) => Ok(FirstSeen::Frame(SeenFrame {
                    frame,
                    len: HEADER_LEN + payload.len(),
                    facts: LiveFacts {
                        handed: attempt.input.handed(),
                        heard: attempt.input.heard(),
                        is_input_closed: attempt.is_input_closed,
                    },
                    row,
                })),
                Err(refused) => {
                    drop(row);
                    Err(refused)
                }
            }
        }
    }
}

/// What stands first of the bytes that the live attempt of an invocation wrote.
fn first_of(alloc: Global, live: &LiveAttempts, id: &ByteStr) -> Result<FirstSeen, AllocError>
    ensures seen { IfOk result (IsFirstOf (attempt_of live.now.attempts id.now)) }
    ensures whole { OnErr result (HasMessageOf (attempt_of live.now.attempts id.now)) }
{
    match live.get(id) {
        Some(attempt) => first_seen(alloc, attempt),
        None => Ok(FirstSeen::Partial),
    }
}

/// Passes so many bytes of an attempt, of which all frames were taken: it goes on behind them, or is over.
pub(crate) fn pass_bytes(live: &mut LiveAttempts, id: &ByteStr, len: usize, does_end: bool)
    requires { ForSome (attempt_of live.old.attempts id.now) (λ attempt. len ≤ length attempt.output) }
    ensures { IsNow id.now (passed does_end len (attempt_of live.old.attempts id.now)) live.old.attempts live.new.attempts }
{
    if does_end {
        live.remove(id);
    } else {
        live.advance_output(id, len);
    }
}

/// Passes a frame of so many bytes that was taken and answered so.
fn pass_frame(live: &mut LiveAttempts, id: &ByteStr, len: usize, reply: FrameReply)
    requires { ForSome (attempt_of live.old.attempts id.now) (λ attempt. len ≤ length attempt.output) }
    ensures { IsNow id.now (passed (does_end reply) len (attempt_of live.old.attempts id.now)) live.old.attempts live.new.attempts }
{
    pass_bytes(live, id, len, reply.ends_attempt());
}

/// Makes room for the outcome of a run that is to be acknowledged, if there is one.
fn room_for_outcome(
    live: &mut LiveAttempts,
    id: &ByteStr,
    acknowledged: Option<u32>,
) -> Result<(), AllocError>
    ensures ok { OnOk result (ChangesLive id.now (after_room acknowledged) live.old.attempts live.new.attempts) }
    ensures err { OnErr result (live.new ≡ live.old) }
{
    match acknowledged {
        Some(_) => live.reserve_outcome(id),
        None => Ok(()),
    }
}

/// The outcome of a run is to be acknowledged, if there is one. Room was made for it.
fn note_acknowledged(live: &mut LiveAttempts, id: &ByteStr, acknowledged: Option<u32>)
    requires { ForSome (attempt_of live.old.attempts id.now) (HasRoomToNote acknowledged) }
    ensures { ChangesLive id.now (after_noted acknowledged) live.old.attempts live.new.attempts }
{
    if let Some(completion) = acknowledged {
        live.note_outcome(id, completion);
    }
}

/// Passes a frame that was taken, whose outcome is to be acknowledged or is not. Room was made for that.
fn pass_noted(
    live: &mut LiveAttempts,
    id: &ByteStr,
    len: usize,
    reply: FrameReply,
    acknowledged: Option<u32>,
)
    requires len { ForSome (attempt_of live.old.attempts id.now) (λ attempt. len ≤ length attempt.output) }
    requires room { ForSome (attempt_of live.old.attempts id.now) (HasRoomToNote acknowledged) }
    ensures { IsNow id.now (option_map (after_noted acknowledged) (passed (does_end reply) len (attempt_of live.old.attempts id.now))) live.old.attempts live.new.attempts }
{
    pass_frame(live, id, len, reply);
    note_acknowledged(live, id, acknowledged);
}

/// Passes a frame that was taken, and takes in what was written of it.
fn pass_written(
    live: &mut LiveAttempts,
    id: &ByteStr,
    len: usize,
    reply: FrameReply,
    acknowledged: Option<u32>,
    writes: Vec<Write>,
)
    requires len { ForSome (attempt_of live.old.attempts id.now) (λ attempt. len ≤ length attempt.output) }
    requires room { ForSome (attempt_of live.old.attempts id.now) (HasRoomToNote acknowledged) }
    ensures { IsNowNoted writes.items id.now (option_map (after_noted acknowledged) (passed (does_end reply) len (attempt_of live.old.attempts id.now))) live.old.attempts live.new.attempts }
{
    pass_noted(live, id, len, reply, acknowledged);
    live.note_written(writes);
}

/// Ends the attempt whose frame was refused, where the cause lies in the frame.
fn end_refused(live: &mut LiveAttempts, id: &ByteStr, why: Refusal)
    ensures { IsEndedBy (lies_in_frame why) id.now live.old.attempts live.new.attempts }
{
    if refusal_ends_attempt(why) {
        live.remove(id);
    }
}

impl<S: Alter + Drop> Store<S> {
    /// Writes what was made ready of a frame of so many bytes, and passes the frame; the outcome of a run is acknowledged once it is
    /// recorded.
    fn take_prepared(
        &mut self,
        id: &ByteStr,
        len: usize,
        made: PreparedFrame,
    ) -> Result<Option<FrameReply>, Refusal>
        requires len { ForSome (attempt_of self.old.live.attempts id.now) (λ attempt. len ≤ length attempt.output) }
        ensures reply { IfOk result (λ reply. reply ≡ Some made.reply) }
        ensures made { WritesRows S.Store made.writes.items self.old.connection self.new.connection result }
        ensures left { OnOk result (IsNowNoted made.writes.items id.now (option_map (after_noted made.acknowledged) (passed (does_end made.reply) len (attempt_of self.old.live.attempts id.now))) self.old.live.attempts self.new.live.attempts) }
        ensures stays { OnErr result (AreAsBefore self.old.live.attempts self.new.live.attempts) }
    {
        let PreparedFrame {
            writes,
            reply,
            acknowledged,
        } = made;
        let Ok(()) = room_for_outcome(&mut self.live, id, acknowledged) else {
            drop(writes);
            return Err(Refusal::OutOfMemory);
        };
        let done = commit(&mut self.tables, writes.as_slice());
        match done {
            Ok(()) => {
                pass_written(&mut self.live, id, len, reply, acknowledged, writes);
                Ok(Some(reply))
            }
            Err(why) => {
                drop(writes);
                Err(why)
            }
        }
    }

    /// Takes the frame that stands first of a live attempt. One that is refused waits, unless the cause lies in it: then its attempt
    /// is over.
    fn take_seen(
        &mut self,
        id: &ByteStr,
        attempt: u32,
        seen: SeenFrame,
    ) -> Result<Option<FrameReply>, Refusal>
        requires live { has_number attempt (attempt_of self.old.live.attempts id.now) ≡ true }
        requires seen { IsSeenOf (attempt_of self.old.live.attempts id.now) seen }
        ensures does { Leads S.Store (StepsAttempt id.now attempt result) self.old self.new }
        ensures settled { SettlesStep S.Store id.now attempt result self.old self.new }
        ensures kept { OnErr result (AreTablesKept (state S.Store self.old.connection) (state S.Store self.new.connection)) }
        ensures cause { IfErr result (TellsWhyUnwritten S.Store self.old self.new (TriesFrame id.now attempt)) }
        ensures crash { Endures S.Store (TakesOne id.now attempt) self.old self.new }
    {
        let SeenFrame {
            frame,
            len,
            facts,
            row,
        } = seen;
        // It does nothing: its contract says that a frame of which nothing is written lasts too.
        let _settled = self.tables.is_settled();
        match prepare_frame(&mut self.tables, id, row, facts, frame) {
            Ok(made) => self.take_prepared(id, len, made),
            Err(why) => {
                end_refused(&mut self.live, id, why);
                Err(why)
            }
        }
    }

    /// Takes the next frame of the attempt, if a whole one waits: what it asks for is recorded, and its answer is told. A frame that
    /// is refused for a cause of its own ends the attempt; refused for want of memory or of numbers it waits, and is taken again.
    pub fn step(&mut self, id: &ByteStr, attempt: u32) -> Result<Option<FrameReply>, Refusal>
        ensures does { Leads S.Store (StepsAttempt id.now attempt result) self.old self.new }
        ensures settled { SettlesStep S.Store id.now attempt result self.old self.new }
        ensures kept { OnErr result (AreTablesKept (state S.Store self.old.connection) (state S.Store self.new.connection)) }
        ensures cause { IfErr result (TellsWhyUnwritten S.Store self.old self.new (TriesFrame id.now attempt)) }
        ensures crash { Endures S.Store (TakesOne id.now attempt) self.old self.new }
    {
        if !is_live(&self.live, id, attempt) {
            return Err(stale_refusal(&mut self.tables, id));
        }
        match first_of(self.tables.alloc(), &self.live, id) {
            Ok(FirstSeen::Partial) => Ok(None),
            Ok(FirstSeen::Unknown) => {
                self.live.remove(id);
                Err(Refusal::Cause(Cause::FrameNotAccepted))
            }
            Ok(FirstSeen::Frame(seen)) => self.take_seen(id, attempt, seen),
            Err(_) => Err(Refusal::OutOfMemory),
        }
    }
}
