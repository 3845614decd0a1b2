// Taking a frame of a live attempt: what is asked of the database, and what is decided by it.
ghost use Rattle.std.specs.Prelude.{true, false, ◌≡◌, ◌+◌, ◌-◌, ◌<◌, ◌^◌, List, IfErr, IfOk, IfSome, IsTrue, OnOk};
ghost use Rattle.sqlite.specs.Held.{state};
ghost use Rattle.sqlite.specs.State.{HasCleanDisk};
ghost use Rattle.protocol_types.specs.Version.{version_number};
ghost use Rattle.store_tables.specs.Looks.{OnlyAsks};
ghost use Rattle.journal_model.specs.Event.{Event};
ghost use Rattle.journal_model.specs.Cause.{IsAccepted};
ghost use Rattle.journal_model.specs.Journal.{object_state};
ghost use Rattle.store_invocations.specs.Rows.{Decides, IsRowOf, IsStoreOf};
ghost use Rattle.store_steps.specs.Reads.{answer_told};
ghost use Rattle.store_steps.specs.FrameAnswers.{tests_of_told};
ghost use Rattle.store_steps.specs.JoinedFrames.{HasArrivalsOf};
ghost use Rattle.store_steps.specs.PreparedFrames.{IsFrameMade, IsOtherFrame, IsWhy, TakesAttemptFrame, WakesAtOnce, is_written};
ghost use Rattle.store_refusals.specs.Causes.{TellsCause};

use crate::frame::{LiveFacts, PreparedFrame};
use crate::outcome::outcome_by_row;
use crate::reads::{ReadAnswer, answer_to, read_with};
use crate::refuse::{command_refusal, frame_refusal};
use crate::write::{frame_writes, reply_to};
use bytes::ByteStr;
use protocol_stream::Version;
use sqlite::Alter;
use std::alloc::Global;
use store_arrivals::is_woken;
use store_frames::{AttemptFrame, RecordedCommand};
use store_refusals::{Cause, Refusal};
use store_tables::{InvocationRow, Progress, StoreTables, invocation_by_id};

/// What is made ready of a frame, by how far its invocation is, and of a suspension by whether it is awake at once.
fn decide(
    alloc: Global,
    id: &ByteStr,
    object: ByteStr,
    version: Version,
    progress: Progress,
    attempt: LiveFacts,
    is_awake: bool,
    frame: AttemptFrame,
) -> Result<PreparedFrame, Refusal>
    ensures ok { IfOk result (IsFrameMade id.now object (version_number version) progress attempt is_awake frame) }
    ensures err { IfErr result (IsWhy progress attempt frame) }
{
    match frame_refusal(&progress, attempt, &frame) {
        Some(refusal) => {
            drop(object);
            drop(progress);
            drop(frame);
            Err(refusal)
        }
        None => {
            let reply = reply_to(&progress, &frame);
            let writes = frame_writes(
                alloc, id, object, version, attempt, is_awake, progress, frame,
            )?;
            Ok(PreparedFrame {
                writes,
                reply,
                acknowledged: None,
            })
        }
    }
}

pub(crate) fn decide_by_row(
    alloc: Global,
    id: &ByteStr,
    row: InvocationRow,
    attempt: LiveFacts,
    is_awake: bool,
    frame: AttemptFrame,
) -> Result<PreparedFrame, Refusal>
    ensures ok { IfOk result (IsFrameMade id.now row.object (version_number row.version) row.progress attempt is_awake frame) }
    ensures err { IfErr result (IsWhy row.progress attempt frame) }
{
    decide(
        alloc,
        id,
        row.object,
        row.version,
        row.progress,
        attempt,
        is_awake,
        frame,
    )
}

/// What the store answers to a command at once, if nothing but its answer can refuse it.
fn answer_at_once<S: Alter>(
    tables: &mut StoreTables<S>,
    row: &InvocationRow,
    command: &RecordedCommand,
) -> Result<Option<ReadAnswer>, Refusal>
    ensures decided { HasCleanDisk (state S.Store tables.new) → (events : List Event) → IsStoreOf events (state S.Store tables.old)
        → Decides (tests_of_told row.now.progress true (AttemptFrame.Command command.now)) (λ answer. answer ≡ answer_told (object_state events row.now.object) command.now.state command.now.completion) result }
    ensures room { IfOk result (λ answer. IfSome answer (λ _. row.now.progress.entries + 1 < 2 ^ 32 - 1)) }
    ensures looks { OnlyAsks S.Store tables.old tables.new }
    ensures cause { IfErr result (TellsCause (state S.Store tables.old) (state S.Store tables.new)) }
{
    match command_refusal(&row.progress, command) {
        Some(refusal) => Err(refusal),
        None => answer_to(tables, &row.object, command),
    }
}

/// Decides on a command, by the row of its invocation. A read that the store answers is answered from the state of the object.
fn command_by_row<S: Alter>(
    tables: &mut StoreTables<S>,
    id: &ByteStr,
    row: InvocationRow,
    attempt: LiveFacts,
    command: RecordedCommand,
) -> Result<PreparedFrame, Refusal>
    ensures prepared { HasCleanDisk (state S.Store tables.new) → (events : List Event) → IsStoreOf events (state S.Store tables.old) → IsRowOf events id.now row → TakesAttemptFrame events id.now attempt (AttemptFrame.Command command) result }
    ensures looks { OnlyAsks S.Store tables.old tables.new }
    ensures cause { IfErr result (TellsCause (state S.Store tables.old) (state S.Store tables.new)) }
{
    match answer_at_once(tables, &row, &command) {
        Ok(Some(answer)) => read_with(tables.alloc(), row, command, answer),
        Ok(None) => {
            let frame = AttemptFrame::Command(command);
            decide_by_row(tables.alloc(), id, row, attempt, false, frame)
        }
        Err(why) => {
            drop(row);
            drop(command);
            Err(why)
        }
    }
}

/// Whether an attempt that suspends so is awake at once, under what has come and was not handed to it. Its row may be that behind frames
/// that are not written yet.
pub(crate) fn wakes_at_once<S: Alter>(
    tables: &mut StoreTables<S>,
    id: &ByteStr,
    row: &InvocationRow,
    attempt: LiveFacts,
    frame: &AttemptFrame,
) -> Result<bool, Refusal>
    ensures told { HasCleanDisk (state S.Store tables.new) → (events later : List Event) → IsStoreOf events (state S.Store tables.old) → IsAccepted later → HasArrivalsOf events later id.now → IsRowOf later id.now row.now
        → WakesAtOnce later id.now attempt frame.now result }
    ensures looks { OnlyAsks S.Store tables.old tables.new }
    ensures cause { IfErr result (TellsCause (state S.Store tables.old) (state S.Store tables.new)) }
{
    match frame {
        AttemptFrame::Suspension { payload } => {
            is_woken(
                tables,
                id,
                row.version,
                payload.as_slice(),
                attempt.heard,
                &[],
            )
        }
        _ => Ok(false),
    }
}

/// Decides on a frame that is no command and no outcome of a run, by the row of its invocation.
fn other_by_row<S: Alter>(
    tables: &mut StoreTables<S>,
    id: &ByteStr,
    row: InvocationRow,
    attempt: LiveFacts,
    frame: AttemptFrame,
) -> Result<PreparedFrame, Refusal>
    ensures prepared { HasCleanDisk (state S.Store tables.new) → (events : List Event) → IsStoreOf events (state S.Store tables.old) → IsRowOf events id.now row → IsOtherFrame frame → TakesAttemptFrame events id.now attempt frame result }
    ensures looks { OnlyAsks S.Store tables.old tables.new }
    ensures cause { IfErr result (TellsCause (state S.Store tables.old) (state S.Store tables.new)) }
{
    match wakes_at_once(tables, id, &row, attempt, &frame) {
        Ok(is_awake) => decide_by_row(tables.alloc(), id, row, attempt, is_awake, frame),
        Err(why) => {
            drop(row);
            drop(frame);
            Err(why)
        }
    }
}

/// Decides on a frame of which nothing is written, by the row of its invocation, which is read: so the database is asked that is to keep
/// what the frame says.
fn decide_unwritten<S: Alter>(
    tables: &mut StoreTables<S>,
    id: &ByteStr,
    attempt: LiveFacts,
    frame: AttemptFrame,
) -> Result<PreparedFrame, Refusal>
    ensures prepared { HasCleanDisk (state S.Store tables.new) → (events : List Event) → IsStoreOf events (state S.Store tables.old) → IsOtherFrame frame → TakesAttemptFrame events id.now attempt frame result }
    ensures asked { HasCleanDisk (state S.Store tables.new) → OnOk result (IsTrue (state S.Store tables.old).is_open) }
    ensures looks { OnlyAsks S.Store tables.old tables.new }
    ensures cause { IfErr result (TellsCause (state S.Store tables.old) (state S.Store tables.new)) }
{
    match invocation_by_id(tables, id) {
        Ok(Some(row)) => other_by_row(tables, id, row, attempt, frame),
        Ok(None) => {
            drop(frame);
            Err(Refusal::Cause(Cause::UnknownInvocation))
        }
        Err(error) => {
            drop(frame);
            Err(Refusal::from(error))
        }
    }
}

/// Whether something is written of a frame that is accepted.
fn is_written(frame: &AttemptFrame) -> bool
    ensures { result ≡ is_written frame.now }
{
    match frame {
        AttemptFrame::Command(_)
        | AttemptFrame::RunOutcome { .. }
        | AttemptFrame::Suspension { .. }
        | AttemptFrame::Error { .. }
        | AttemptFrame::End => true,
        AttemptFrame::AwaitingOn
        | AttemptFrame::Broken
        | AttemptFrame::TooDeep
        | AttemptFrame::NotAccepted => false,
    }
}

/// Decides on a frame that is no command and no outcome of a run, by the row of its invocation, or where nothing is written of it by
/// that which is read.
fn decide_other<S: Alter>(
    tables: &mut StoreTables<S>,
    id: &ByteStr,
    row: InvocationRow,
    attempt: LiveFacts,
    frame: AttemptFrame,
) -> Result<PreparedFrame, Refusal>
    ensures prepared { HasCleanDisk (state S.Store tables.new) → (events : List Event) → IsStoreOf events (state S.Store tables.old) → IsRowOf events id.now row → IsOtherFrame frame → TakesAttemptFrame events id.now attempt frame result }
    ensures asked { HasCleanDisk (state S.Store tables.new) → is_written frame ≡ false → OnOk result (IsTrue (state S.Store tables.old).is_open) }
    ensures looks { OnlyAsks S.Store tables.old tables.new }
    ensures cause { IfErr result (TellsCause (state S.Store tables.old) (state S.Store tables.new)) }
{
    if is_written(&frame) {
        other_by_row(tables, id, row, attempt, frame)
    } else {
        drop(row);
        decide_unwritten(tables, id, attempt, frame)
    }
}

/// Decides on a frame that the live attempt of the invocation has written, and makes ready what is written of it, by the row of the
/// invocation, which is the one that is recorded now. Of a read that the store answers what the object has is read, of a suspension what its
/// attempt was not handed, of the outcome of a run whether the run waits for it, and of a frame of which nothing is written the row. Whether
/// the attempt is live is the caller's to know.
pub fn prepare_frame<S: Alter>(
    tables: &mut StoreTables<S>,
    id: &ByteStr,
    row: InvocationRow,
    attempt: LiveFacts,
    frame: AttemptFrame,
) -> Result<PreparedFrame, Refusal>
    ensures prepared { HasCleanDisk (state S.Store tables.new) → (events : List Event) → IsStoreOf events (state S.Store tables.old) → IsRowOf events id.now row → TakesAttemptFrame events id.now attempt frame result }
    ensures asked { HasCleanDisk (state S.Store tables.new) → is_written frame ≡ false → OnOk result (IsTrue (state S.Store tables.old).is_open) }
    ensures looks { OnlyAsks S.Store tables.old tables.new }
    ensures cause { IfErr result (TellsCause (state S.Store tables.old) (state S.Store tables.new)) }
{
    match frame {
        AttemptFrame::Command(command) => command_by_row(tables, id, row, attempt, command),
        AttemptFrame::RunOutcome {
            completion,
            result,
            is_acknowledged,
        } => outcome_by_row(tables, id, row, completion, result, is_acknowledged),
        frame => decide_other(tables, id, row, attempt, frame),
    }
}
