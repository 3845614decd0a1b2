// What is written of a frame, and how it is answered.
ghost use Rattle.std.specs.Prelude.{false, ◌≡◌, ◌<◌, ◌-◌, ◌^◌, max, [], ◌∷◌, ◌++◌, map, option_to_list, IfOk, OnOk};
ghost use Rattle.journal_model.specs.Cause.{greatest};
ghost use Rattle.store_tables.specs.declared.row.Write.TheVariants.{AddEntry, OpenSleep, SetProgress};
ghost use Rattle.store_model.specs.Steps.{payload_or};
ghost use Rattle.protocol_types.specs.Version.{version_number};
ghost use Rattle.protocol_stream.specs.CommandFacts.{facts_of};
ghost use Rattle.store_steps.specs.FrameAnswers.{HasRoom, after_end, after_error, after_recorded, after_suspension, asked, closing_writes, command_row, does_fail, keeps_moment, number_of_behavior, puts_out, reply_to_told, sleep_told, state_told, value_put_out, writes_of_told};

use crate::frame::{FrameReply, LiveFacts};
use bytes::{ByteStr, Bytes};
use journal_model::NEVER;
use protocol_stream::{CommandFacts, Feature, Version};
use std::alloc::{AllocError, Global};
use std::mem;
use store_frames::{AttemptFrame, ErrorBehavior, RecordedCommand, StateUse};
use store_tables::{Closing, EntryRow, LastError, Progress, SleepRow, StateRow, Write};

/// How a frame is answered. One that is always refused, and the outcome of a run, is not asked for.
pub(crate) fn reply_to(progress: &Progress, frame: &AttemptFrame) -> FrameReply
    ensures { result ≡ reply_to_told progress.now frame.now }
{
    match frame {
        AttemptFrame::Command(_) => FrameReply::Recorded {
            place: progress.entries,
        },
        AttemptFrame::Suspension { .. } => FrameReply::Suspended,
        AttemptFrame::Error { .. } => FrameReply::Failed,
        AttemptFrame::End => FrameReply::Ended,
        AttemptFrame::RunOutcome { .. }
        | AttemptFrame::AwaitingOn
        | AttemptFrame::Broken
        | AttemptFrame::TooDeep
        | AttemptFrame::NotAccepted => FrameReply::Noted,
    }
}

/// The greatest of a number and the completions that a command asks for.
fn greatest_of(last: u32, first: Option<u32>, second: Option<u32>) -> u32
    ensures { result ≡ max last (greatest (asked first second)) }
{
    match (first, second) {
        (None, _) => last,
        (Some(first), None) => last.max(first),
        (Some(first), Some(second)) => last.max(first).max(second),
    }
}

/// Whether a command puts a value out.
fn puts_out(command: &RecordedCommand) -> bool
    ensures { result ≡ puts_out (facts_of command.now.kind) }
{
    match CommandFacts::of(command.kind) {
        Some(facts) => facts.kept.is_answer(),
        None => false,
    }
}

/// What is put out last is the invocation's answer.
fn note_answer(answer: &mut Option<Bytes>, command: &RecordedCommand) -> Result<(), AllocError>
    ensures { OnOk result (answer.new ≡ payload_or (value_put_out command.now) answer.old) }
{
    if puts_out(command) {
        let payload = command.payload.clone()?;
        drop(answer.replace(payload));
    }
    Ok(())
}

pub(crate) fn note_command(
    progress: &mut Progress,
    command: &RecordedCommand,
) -> Result<(), AllocError>
    requires { progress.old.entries < 2 ^ 32 - 1 }
    ensures { OnOk result (progress.new ≡ after_recorded command.now progress.old) }
{
    note_answer(&mut progress.answer, command)?;
    progress.last_completion = greatest_of(
        progress.last_completion,
        command.completion,
        command.second_completion,
    );
    progress.entries += 1;
    progress.attempts_since_entry = 0;
    progress.first_moment = 0;
    Ok(())
}

/// The entry of a command at a place.
pub(crate) fn entry_of(id: ByteStr, place: u32, command: RecordedCommand) -> EntryRow
    ensures { result ≡ command_row id place command }
{
    EntryRow {
        invocation: id,
        place,
        kind: command.kind,
        payload: command.payload,
        completion: command.completion,
        second_completion: command.second_completion,
        answered: None,
        moment: command.moment,
        arrival: None,
    }
}

/// Whether a command keeps a moment, at which it is due.
fn keeps_moment(command: &RecordedCommand) -> bool
    ensures { result ≡ keeps_moment (facts_of command.now.kind) }
{
    match CommandFacts::of(command.kind) {
        Some(facts) => facts.kept.is_moment(),
        None => false,
    }
}

/// The sleep that a command asks for, where it may be due some day.
fn sleep_of(id: &ByteStr, command: &RecordedCommand) -> Result<Option<SleepRow>, AllocError>
    ensures { IfOk result (λ sleep. option_to_list sleep ≡ sleep_told id.now command.now) }
{
    let moment = command.moment;
    if !keeps_moment(command) || moment >= NEVER {
        return Ok(None);
    }
    match command.completion {
        Some(completion) => Ok(Some(SleepRow {
            moment,
            invocation: id.clone()?,
            completion,
        })),
        None => Ok(None),
    }
}

/// The writes, and that of a sleep behind them.
fn with_sleep(mut writes: Vec<Write>, sleep: Option<SleepRow>) -> Result<Vec<Write>, AllocError>
    ensures { IfOk result (λ all. all.items ≡ writes.items ++ map OpenSleep (option_to_list sleep)) }
{
    if let Some(sleep) = sleep {
        writes.push(Write::OpenSleep(sleep))?;
    }
    Ok(writes)
}

/// What a command writes of the state of the object.
fn state_write(object: ByteStr, state: StateUse) -> Option<Write>
    ensures { option_to_list result ≡ state_told object state }
{
    match state {
        StateUse::Put { key, value } => Some(Write::PutState(StateRow { object, key, value })),
        StateUse::Remove { key } => Some(Write::DropState { object, key }),
        StateUse::RemoveAll => Some(Write::DropStates { object }),
        StateUse::Nothing | StateUse::ReadValue { .. } | StateUse::ReadKeys => {
            drop(object);
            None
        }
    }
}

/// The writes, and this one behind them.
fn with_write(mut writes: Vec<Write>, write: Option<Write>) -> Result<Vec<Write>, AllocError>
    ensures { IfOk result (λ all. all.items ≡ writes.items ++ option_to_list write) }
{
    if let Some(write) = write {
        writes.push(write)?;
    }
    Ok(writes)
}

/// Two of one id, once the progress is that after the command.
fn start_recording(
    id: &ByteStr,
    progress: &mut Progress,
    command: &RecordedCommand,
) -> Result<(ByteStr, ByteStr), AllocError>
    requires { progress.old.entries < 2 ^ 32 - 1 }
    ensures ids { IfOk result (λ ids. (ids.0 ≡ id.now) × (ids.1 ≡ id.now)) }
    ensures progress { OnOk result (progress.new ≡ after_recorded command.now progress.old) }
{
    note_command(progress, command)?;
    Ok((id.clone()?, id.clone()?))
}

fn entry_writes(
    alloc: Global,
    id: &ByteStr,
    mut progress: Progress,
    command: RecordedCommand,
) -> Result<Vec<Write>, AllocError>
    requires { progress.entries < 2 ^ 32 - 1 }
    ensures { IfOk result (λ writes. writes.items ≡ AddEntry (command_row id.now progress.entries command) ∷ SetProgress id.now (after_recorded command progress) ∷ []) }
{
    let place = progress.entries;
    match start_recording(id, &mut progress, &command) {
        Ok((invocation, id)) => {
            let entry = entry_of(invocation, place, command);
            Ok(vec![in alloc; Write::AddEntry(entry), Write::SetProgress { id, progress }]?)
        }
        Err(error) => {
            drop(progress);
            drop(command);
            Err(error)
        }
    }
}

/// What a command writes of its invocation.
fn recorded_writes(
    alloc: Global,
    id: &ByteStr,
    progress: Progress,
    command: RecordedCommand,
) -> Result<Vec<Write>, AllocError>
    requires { progress.entries < 2 ^ 32 - 1 }
    ensures { IfOk result (λ writes. writes.items ≡ AddEntry (command_row id.now progress.entries command) ∷ SetProgress id.now (after_recorded command progress) ∷ map OpenSleep (sleep_told id.now command)) }
{
    match sleep_of(id, &command) {
        Ok(sleep) => match entry_writes(alloc, id, progress, command) {
            Ok(writes) => with_sleep(writes, sleep),
            Err(error) => {
                drop(sleep);
                Err(error)
            }
        },
        Err(error) => {
            drop(progress);
            drop(command);
            Err(error)
        }
    }
}

fn command_writes(
    alloc: Global,
    id: &ByteStr,
    object: ByteStr,
    progress: Progress,
    mut command: RecordedCommand,
) -> Result<Vec<Write>, AllocError>
    requires { progress.entries < 2 ^ 32 - 1 }
    ensures { IfOk result (λ writes. writes.items ≡ AddEntry (command_row id.now progress.entries command) ∷ SetProgress id.now (after_recorded command progress) ∷ (map OpenSleep (sleep_told id.now command) ++ state_told object command.state)) }
{
    let state = mem::replace(&mut command.state, StateUse::Nothing);
    let write = state_write(object, state);
    match recorded_writes(alloc, id, progress, command) {
        Ok(writes) => with_write(writes, write),
        Err(error) => {
            drop(write);
            Err(error)
        }
    }
}

fn progress_write(alloc: Global, id: &ByteStr, progress: Progress) -> Result<Vec<Write>, AllocError>
    ensures { IfOk result (λ writes. writes.items ≡ SetProgress id.now progress ∷ []) }
{
    match id.clone() {
        Ok(id) => Ok(vec![in alloc; Write::SetProgress { id, progress }]?),
        Err(error) => {
            drop(progress);
            Err(error)
        }
    }
}

/// What is written of a frame that tells how its attempt ended, and may close its invocation: then no sleep of it is open.
fn ending_writes(
    alloc: Global,
    id: &ByteStr,
    progress: Progress,
    is_closed: bool,
) -> Result<Vec<Write>, AllocError>
    ensures { IfOk result (λ writes. writes.items ≡ SetProgress id.now progress ∷ closing_writes is_closed id.now) }
{
    let mut writes = progress_write(alloc, id, progress)?;
    if is_closed {
        writes.push(Write::CloseSleeps {
            invocation: id.clone()?,
        })?;
    }
    Ok(writes)
}

fn suspend(progress: &mut Progress, payload: Bytes, attempt: LiveFacts, is_awake: bool)
    ensures { progress.new ≡ after_suspension payload attempt is_awake progress.old }
{
    drop(progress.suspension.replace(payload));
    progress.handed = Some(attempt.handed);
    progress.heard = Some(attempt.heard);
    progress.is_awake = is_awake;
}

fn behavior_number(behavior: ErrorBehavior) -> u32
    ensures { result ≡ number_of_behavior behavior }
{
    match behavior {
        ErrorBehavior::Retry => 0,
        ErrorBehavior::Pause => 1,
        ErrorBehavior::Fail => 2,
    }
}

/// Whether an error closes its invocation.
fn closes(version: Version, behavior: ErrorBehavior) -> bool
    ensures { result ≡ does_fail (version_number version) behavior }
{
    match behavior {
        ErrorBehavior::Fail => Feature::ErrorBehavior.is_in(version.number()),
        ErrorBehavior::Retry | ErrorBehavior::Pause => false,
    }
}

fn close(progress: &mut Progress, closing: Closing)
    ensures { progress.new ≡ record progress.old { open_object = None; closing = Some closing; is_awake = false } }
{
    drop(progress.open_object.take());
    progress.is_awake = false;
    progress.closing = Some(closing);
}

fn fail(progress: &mut Progress, error: LastError, is_closed: bool)
    ensures { progress.new ≡ after_error error is_closed progress.old }
{
    drop(progress.last_error.replace(error));
    if is_closed {
        close(progress, Closing::Failed);
    }
}

fn end(progress: &mut Progress, attempt: LiveFacts)
    ensures { progress.new ≡ after_end attempt progress.old }
{
    close(progress, Closing::Ended);
    progress.handed = Some(attempt.handed);
    progress.heard = Some(attempt.heard);
}

/// What is written of a frame that is accepted, other than the outcome of a run. A suspension is awake at once or not.
pub(crate) fn frame_writes(
    alloc: Global,
    id: &ByteStr,
    object: ByteStr,
    version: Version,
    attempt: LiveFacts,
    is_awake: bool,
    mut progress: Progress,
    frame: AttemptFrame,
) -> Result<Vec<Write>, AllocError>
    requires { HasRoom progress frame }
    ensures { IfOk result (λ writes. writes.items ≡ writes_of_told id.now object (version_number version) attempt is_awake progress frame) }
{
    match frame {
        AttemptFrame::Command(command) => command_writes(alloc, id, object, progress, command),
        AttemptFrame::Suspension { payload } => {
            drop(object);
            suspend(&mut progress, payload, attempt, is_awake);
            progress_write(alloc, id, progress)
        }
        AttemptFrame::Error {
            code,
            message,
            behavior,
            delay,
        } => {
            drop(object);
            let error = LastError {
                code,
                behavior: behavior_number(behavior),
                delay,
                message,
            };
            let is_closed = closes(version, behavior);
            fail(&mut progress, error, is_closed);
            ending_writes(alloc, id, progress, is_closed)
        }
        AttemptFrame::End => {
            drop(object);
            end(&mut progress, attempt);
            ending_writes(alloc, id, progress, true)
        }
        frame => {
            drop(object);
            drop(progress);
            drop(frame);
            Ok(Vec::new(alloc))
        }
    }
}
