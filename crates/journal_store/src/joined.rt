// Frames of an attempt that can be decided on in memory are taken together: made ready one behind another, and written in one transaction.
ghost use Rattle.std.specs.Prelude.{◌≡◌, ◌≢◌, ◌+◌, ◌≤◌, ◌<◌, ◌^◌, ◌++◌, [], ◌∷◌, true, false, length, IfOk, IfSome, OnErr, OnOk};
ghost use Rattle.std.specs.Option.{ForSome};
ghost use Rattle.store_tables.specs.Looks.{OnlyAsks};
ghost use Rattle.store_steps.specs.PreparedFrames.{does_end};
ghost use Rattle.store_calls.specs.Frames.{TakesEach, TakesFirstFrames};
ghost use Rattle.journal_store.specs.Attempts.{IsNowNoted};
ghost use Rattle.journal_store.specs.FrameAcceptance.{IsSeen, passed};
ghost use Rattle.journal_store.specs.JoinedFrames.{AreReady, AreReadyBy, AreReadyOf, IsJoined, JoinsNext, JoinsSeen, TakesJoined, TakesReady, ahead, joined_writes, other_writes, row_behind};
ghost use Rattle.journal_store.specs.StoreStanding.{Endures, Leads, Settles};
ghost use Rattle.journal_store.specs.StoreTransaction.{WritesRows};
ghost use Rattle.journal_store.specs.Words.{state, AreTablesKept, attempt_of};

use crate::events::commit;
use crate::step::{SeenFrame, pass_bytes};
use crate::store::Store;
use bytes::ByteStr;
use protocol_stream::first_item;
use sqlite::Alter;
use std::alloc::{AllocError, Global};
use std::mem::replace;
use store_frames::read_frame_at;
use store_live::{FirstItem, HEADER_LEN, LiveAttempt, LiveAttempts, copied_row};
use store_refusals::Refusal;
use store_steps::{FrameReply, LiveFacts, PreparedFrame, prepare_joined};
use store_tables::{InvocationRow, StoreTables, Write};

/// Frames that stand first of a live attempt, made ready one behind another.
#[derive(Debug, Drop)]
struct JoinedFrames {
    /// How many bytes they are.
    len: usize,
    /// What is written of them, but how far the invocation is.
    writes: Vec<Write>,
    /// The row of the invocation behind them.
    row: InvocationRow,
    replies: Vec<FrameReply>,
    /// Whether the last of them ends the attempt.
    does_end: bool,
}

/// Frames that were taken together, and their answers.
#[derive(Debug, Drop)]
pub(crate) struct TakenFrames {
    pub(crate) replies: Vec<FrameReply>,
    /// Whether the last of them has ended the attempt.
    pub(crate) does_end: bool,
}

/// The frame that stands behind these, where it is whole and there is memory to read it.
fn seen_behind(alloc: Global, attempt: &LiveAttempt, frames: &JoinedFrames) -> Option<SeenFrame>
    requires { frames.now.len ≤ length attempt.now.output }
    ensures seen { IfSome result (IsSeen (ahead frames.now attempt.now)) }
    ensures some { IfSome result (λ seen. 0 < seen.len) }
    ensures fits { IfSome result (λ seen. frames.now.len + seen.len < 2 ^ 64) }
{
    match first_item(&attempt.output.as_slice()[frames.len..]) {
        FirstItem::Frame { header, payload } => {
            let Ok(row) = copied_row(&frames.row) else {
                return None;
            };
            match read_frame_at(alloc, attempt.version, header, payload) {
                Ok(frame) => Some(SeenFrame {
                    frame,
                    len: HEADER_LEN + payload.len(),
                    facts: LiveFacts {
                        handed: attempt.input.handed(),
                        heard: attempt.input.heard(),
                        is_input_closed: attempt.is_input_closed,
                    },
                    row,
                }),
                Err(_) => {
                    drop(row);
                    None
                }
            }
        }
        FirstItem::Partial | FirstItem::Unknown => None,
    }
}

/// Puts a write behind the others; how far the invocation is goes into its row.
fn put_write(
    writes: &mut Vec<Write>,
    row: &mut InvocationRow,
    write: Write,
) -> Result<(), AllocError>
    ensures writes { OnOk result (writes.new.items ≡ writes.old.items ++ other_writes (write ∷ [])) }
    ensures row { OnOk result (row.new ≡ row_behind (write ∷ []) row.old) }
{
    match write {
        Write::SetProgress { id, progress } => {
            drop(id);
            drop(replace(&mut row.progress, progress));
            Ok(())
        }
        write => {
            writes.push(write)?;
            Ok(())
        }
    }
}

fn put_writes(
    writes: &mut Vec<Write>,
    row: &mut InvocationRow,
    made: Vec<Write>,
) -> Result<(), AllocError>
    ensures writes { OnOk result (writes.new.items ≡ writes.old.items ++ other_writes made.items) }
    ensures row { OnOk result (row.new ≡ row_behind made.items row.old) }
{
    for write in made {
        put_write(writes, row, write)?;
    }
    Ok(())
}

/// Puts a frame of so many bytes behind the others, as it was made ready. An `Err` may leave a part of it there.
fn put_made(frames: &mut JoinedFrames, len: usize, made: PreparedFrame) -> Result<(), AllocError>
    requires { frames.old.len + len < 2 ^ 64 }
    ensures { OnOk result (IsJoined len made frames.old frames.new) }
{
    let PreparedFrame {
        writes,
        reply,
        acknowledged: _,
    } = made;
    put_writes(&mut frames.writes, &mut frames.row, writes)?;
    frames.replies.push(reply)?;
    frames.len += len;
    frames.does_end = reply.ends_attempt();
    Ok(())
}

/// Makes the frame that was seen behind these ready too, if it can be. Whether it was.
fn join_seen<S: Alter>(
    tables: &mut StoreTables<S>,
    id: &ByteStr,
    frames: &mut JoinedFrames,
    seen: SeenFrame,
) -> Result<bool, AllocError>
    requires { frames.old.len + seen.len < 2 ^ 64 }
    ensures joins { IfOk result (λ joined. JoinsSeen S.Store id.now seen joined frames.old frames.new tables.old tables.new) }
    ensures looks { OnlyAsks S.Store tables.old tables.new }
{
    let SeenFrame {
        frame,
        len,
        facts,
        row,
    } = seen;
    match prepare_joined(tables, id, row, facts, frame) {
        Some(made) => {
            put_made(frames, len, made)?;
            Ok(true)
        }
        None => Ok(false),
    }
}

/// Makes the next frame behind these ready too, if it is whole and can be. Whether it was.
fn join_next<S: Alter>(
    tables: &mut StoreTables<S>,
    id: &ByteStr,
    attempt: &LiveAttempt,
    frames: &mut JoinedFrames,
) -> Result<bool, AllocError>
    requires { frames.old.len ≤ length attempt.now.output }
    ensures within { OnOk result (frames.new.len ≤ length attempt.now.output) }
    ensures further { IfOk result (λ joined. joined ≡ true → frames.old.len < frames.new.len) }
    ensures joins { IfOk result (λ joined. JoinsNext S.Store id.now attempt.now joined frames.old frames.new tables.old tables.new) }
    ensures looks { OnlyAsks S.Store tables.old tables.new }
{
    if frames.does_end {
        return Ok(false);
    }
    match seen_behind(tables.alloc(), attempt, frames) {
        Some(seen) => join_seen(tables, id, frames, seen),
        None => Ok(false),
    }
}

/// None so far, of an attempt whose invocation has this row.
fn none_joined(alloc: Global, row: InvocationRow) -> JoinedFrames
    ensures len { result.len ≡ 0 }
    ensures writes { result.writes.items ≡ [] }
    ensures row { result.row ≡ row }
    ensures replies { result.replies.items ≡ [] }
    ensures going { result.does_end ≡ false }
{
    JoinedFrames {
        len: 0,
        writes: Vec::new(alloc),
        row,
        replies: Vec::new(alloc),
        does_end: false,
    }
}

/// Makes the frames ready that stand first of a live attempt, up to one that cannot be or ends it.
fn join_frames<S: Alter>(
    tables: &mut StoreTables<S>,
    id: &ByteStr,
    attempt: &LiveAttempt,
) -> Result<JoinedFrames, AllocError>
    ensures within { IfOk result (λ frames. frames.len ≤ length attempt.now.output) }
    ensures ready { IfOk result (λ frames. AreReady S.Store id.now frames attempt.now tables.old tables.new) }
    ensures looks { OnlyAsks S.Store tables.old tables.new }
{
    let row = copied_row(&attempt.row)?;
    let mut frames = none_joined(tables.alloc(), row);
    loop {
        match join_next(tables, id, attempt, &mut frames) {
            Ok(true) => {}
            Ok(false) => return Ok(frames),
            Err(refused) => {
                drop(frames);
                return Err(refused);
            }
        }
    }
}

/// The frames, if there are any.
fn some_joined(frames: JoinedFrames) -> Option<JoinedFrames>
    ensures same { IfSome result (λ some. some ≡ frames) }
    ensures some { IfSome result (λ some. some.replies.items ≢ []) }
{
    if frames.replies.is_empty() {
        drop(frames);
        return None;
    }
    Some(frames)
}

/// The frames that stand first of an attempt, made ready, if it has this number and there are any.
fn join_attempt<S: Alter>(
    tables: &mut StoreTables<S>,
    id: &ByteStr,
    one: &LiveAttempt,
    attempt: u32,
) -> Option<JoinedFrames>
    ensures ready { IfSome result (λ frames. AreReadyBy S.Store id.now attempt frames one.now tables.old tables.new) }
    ensures looks { OnlyAsks S.Store tables.old tables.new }
{
    if one.number != attempt {
        return None;
    }
    match join_frames(tables, id, one) {
        Ok(frames) => some_joined(frames),
        Err(_) => None,
    }
}

/// The frames that stand first of the live attempt with this number, made ready, if there are any.
fn join_live<S: Alter>(
    tables: &mut StoreTables<S>,
    live: &LiveAttempts,
    id: &ByteStr,
    attempt: u32,
) -> Option<JoinedFrames>
    ensures ready { IfSome result (λ frames. AreReadyOf S.Store id.now attempt frames (attempt_of live.now.attempts id.now) tables.old tables.new) }
    ensures looks { OnlyAsks S.Store tables.old tables.new }
{
    match live.get(id) {
        Some(one) => join_attempt(tables, id, one, attempt),
        None => None,
    }
}

/// All that is written of frames: how far the invocation is behind the last of them stands last.
fn written_of(mut writes: Vec<Write>, row: InvocationRow) -> Result<Vec<Write>, AllocError>
    ensures { IfOk result (λ all. all.items ≡ joined_writes writes.items row) }
{
    let InvocationRow {
        id,
        object,
        version: _,
        seed: _,
        is_whole: _,
        progress,
    } = row;
    drop(object);
    writes.push(Write::SetProgress { id, progress })?;
    Ok(writes)
}

/// Passes so many bytes of an attempt, whose frames were taken, and takes in what was written of them.
fn pass_joined(
    live: &mut LiveAttempts,
    id: &ByteStr,
    len: usize,
    does_end: bool,
    writes: Vec<Write>,
)
    requires { ForSome (attempt_of live.old.attempts id.now) (λ attempt. len ≤ length attempt.output) }
    ensures { IsNowNoted writes.items id.now (passed does_end len (attempt_of live.old.attempts id.now)) live.old.attempts live.new.attempts }
{
    pass_bytes(live, id, len, does_end);
    live.note_written(writes);
}

/// None was taken.
fn none_taken(alloc: Global) -> TakenFrames
    ensures replies { result.replies.items ≡ [] }
    ensures going { result.does_end ≡ false }
{
    TakenFrames {
        replies: Vec::new(alloc),
        does_end: false,
    }
}

impl<S: Alter + Drop> Store<S> {
    /// Writes what was made ready of frames of so many bytes, and passes them.
    fn commit_joined(
        &mut self,
        id: &ByteStr,
        len: usize,
        does_end: bool,
        writes: Vec<Write>,
        row: InvocationRow,
    ) -> Result<(), Refusal>
        requires len { ForSome (attempt_of self.old.live.attempts id.now) (λ attempt. len ≤ length attempt.output) }
        ensures made { WritesRows S.Store (joined_writes writes.items row) self.old.connection self.new.connection result }
        ensures left { OnOk result (IsNowNoted (joined_writes writes.items row) id.now (passed does_end len (attempt_of self.old.live.attempts id.now)) self.old.live.attempts self.new.live.attempts) }
        ensures stays { OnErr result (self.new.live ≡ self.old.live) }
    {
        let Ok(all) = written_of(writes, row) else {
            return Err(Refusal::OutOfMemory);
        };
        match commit(&mut self.tables, all.as_slice()) {
            Ok(()) => {
                pass_joined(&mut self.live, id, len, does_end, all);
                Ok(())
            }
            Err(why) => {
                drop(all);
                Err(why)
            }
        }
    }

    /// Takes frames that were made ready, in one transaction; none where that is refused.
    fn take_ready(&mut self, id: &ByteStr, frames: JoinedFrames) -> TakenFrames
        requires len { ForSome (attempt_of self.old.live.attempts id.now) (λ attempt. frames.len ≤ length attempt.output) }
        ensures { TakesReady S.Store id.now frames result self.old self.new }
    {
        let JoinedFrames {
            len,
            writes,
            row,
            replies,
            does_end,
        } = frames;
        match self.commit_joined(id, len, does_end, writes, row) {
            Ok(()) => TakenFrames { replies, does_end },
            Err(_) => {
                drop(replies);
                none_taken(self.alloc())
            }
        }
    }

    /// Takes the frames that stand first of a live attempt in one transaction, as far as they can be made ready together. Where that is
    /// refused, or memory is, none is taken.
    pub(crate) fn take_joined(&mut self, id: &ByteStr, attempt: u32) -> TakenFrames
        ensures does { Leads S.Store (TakesJoined id.now attempt result.replies.items result.does_end) self.old self.new }
        ensures settled { result.replies.items ≢ [] → Settles S.Store (TakesEach id.now attempt result.replies.items) self.old self.new }
        ensures kept { result.replies.items ≡ [] → AreTablesKept (state S.Store self.old.connection) (state S.Store self.new.connection) }
        ensures crash { Endures S.Store (TakesFirstFrames id.now attempt) self.old self.new }
    {
        match join_live(&mut self.tables, &self.live, id, attempt) {
            Some(frames) => self.take_ready(id, frames),
            None => none_taken(self.alloc()),
        }
    }
}
