//! Reads of an object's state that the store answers: the answer stands in the journal behind the read, and both are recorded at once.

ghost use Rattle.std.specs.Prelude.{◌≡◌, ◌+◌, ◌<◌, ◌-◌, ◌^◌, ◌∷◌, List, map, IfOk, IfSome, IfErr};
ghost use Rattle.sqlite.specs.Held.{state};
ghost use Rattle.sqlite.specs.State.{HasCleanDisk};
ghost use Rattle.journal_model.specs.declared.notification.NotificationResult.{NotificationResult};
ghost use Rattle.journal_model.specs.Delivery.{value_or_void};
ghost use Rattle.journal_model.specs.Event.{Event};
ghost use Rattle.journal_model.specs.Journal.{completion as arrival_of, object_state};
ghost use Rattle.journal_model.specs.Spelling.{notification_payload};
ghost use Rattle.journal_model.specs.State.{state_keys, value_of_key};
ghost use Rattle.store_tables.specs.Looks.{OnlyAsks};
ghost use Rattle.store_tables.specs.declared.row.StateRow.{StateRow};
ghost use Rattle.store_tables.specs.declared.row.Write.{Write};
ghost use Rattle.store_refusals.specs.Preparations.{TellsOrRefuses};
ghost use Rattle.store_invocations.specs.Rows.{Decides, IsStoreOf, payload_tests};
ghost use Rattle.store_steps.specs.Reads.{IsReadMade, answer_told, with_read};
ghost use Rattle.store_steps.specs.FrameAnswers.{answers_told, command_row};
ghost use Rattle.store_refusals.specs.Causes.{IsUnasked, TellsCause};

use crate::frame::{FrameReply, PreparedFrame};
use crate::write::{entry_of, note_command};
use bytes::{ByteStr, Bytes};
use journal_model::{Notification, NotificationId, NotificationResult};
use protocol_stream::MessageType;
use sequence::Sequence;
use sqlite::Alter;
use std::alloc::{AllocError, Global};
use store_arrivals::{PreparedArrival, prepare_arrival};
use store_frames::{RecordedCommand, StateUse};
use store_invocations::object_states;
use store_refusals::Refusal;
use store_tables::{EntryRow, InvocationRow, StateRow, StoreTables, Write, state_at};

/// What the store answers to a read.
#[derive(Debug, Drop)]
pub(crate) struct ReadAnswer {
    /// The type of its frame.
    pub(crate) ty: MessageType,
    pub(crate) arrival: Notification,
}

/// What a read of one key is answered.
fn value_of<S: Alter>(
    tables: &mut StoreTables<S>,
    object: &ByteStr,
    key: &Bytes,
) -> Result<NotificationResult, Refusal>
    ensures told { HasCleanDisk (state S.Store tables.new) → (events : List Event) → IsStoreOf events (state S.Store tables.old) → TellsOrRefuses (λ value. value ≡ value_or_void (value_of_key (object_state events object.now) key.now)) result }
    ensures looks { OnlyAsks S.Store tables.old tables.new }
    ensures cause { IfErr result (TellsCause (state S.Store tables.old) (state S.Store tables.new)) }
{
    let found = state_at(tables, object, key)?;
    match found {
        Some(StateRow { object, key, value }) => {
            drop(object);
            drop(key);
            Ok(NotificationResult::Value(value))
        }
        None => Ok(NotificationResult::Void),
    }
}

/// The keys among rows of a state, in their order.
fn keys_in(alloc: Global, states: Vec<StateRow>) -> Result<Vec<Bytes>, AllocError>
    ensures { IfOk result (λ keys. keys.items ≡ map (λ (row : StateRow). row.key) states.items) }
{
    states
        .into_iter()
        .map(|StateRow { object, key, value }| {
            drop(object);
            drop(value);
            key
        })
        .collect(alloc)
}

/// What a read of all keys is answered.
fn keys_of<S: Alter>(
    tables: &mut StoreTables<S>,
    object: &ByteStr,
) -> Result<NotificationResult, Refusal>
    ensures told { HasCleanDisk (state S.Store tables.new) → (events : List Event) → IsStoreOf events (state S.Store tables.old) → TellsOrRefuses (λ keys. keys ≡ NotificationResult.StateKeys (state_keys (object_state events object.now))) result }
    ensures looks { OnlyAsks S.Store tables.old tables.new }
    ensures cause { IfErr result (TellsCause (state S.Store tables.old) (state S.Store tables.new)) }
{
    let states = object_states(tables, object)?;
    let keys = keys_in(tables.alloc(), states)?;
    Ok(NotificationResult::StateKeys(Sequence::from_vec(keys)))
}

fn answer_with(ty: MessageType, completion: u32, brought: NotificationResult) -> ReadAnswer
    ensures { result ≡ record { ty = ty; arrival = arrival_of completion brought } }
{
    ReadAnswer {
        ty,
        arrival: Notification {
            id: NotificationId::CompletionId(completion),
            result: brought,
        },
    }
}

/// What is answered to a read by the state of its object, which is that before it. A command that is no read is answered nothing.
pub(crate) fn answer_to<S: Alter>(
    tables: &mut StoreTables<S>,
    object: &ByteStr,
    command: &RecordedCommand,
) -> Result<Option<ReadAnswer>, Refusal>
    ensures told { HasCleanDisk (state S.Store tables.new) → (events : List Event) → IsStoreOf events (state S.Store tables.old)
        → TellsOrRefuses (λ answer. answer ≡ answer_told (object_state events object.now) command.now.state command.now.completion) result }
    ensures counted { IfOk result (λ answer. IfSome answer (λ _. answers_told command.now.state ≡ 1)) }
    ensures looks { OnlyAsks S.Store tables.old tables.new }
    ensures cause { IfErr result (TellsCause (state S.Store tables.old) (state S.Store tables.new)) }
{
    match (&command.state, command.completion) {
        (StateUse::ReadValue { key }, Some(completion)) => {
            let value = value_of(tables, object, key)?;
            let ty = MessageType::GetLazyStateCompletionNotification;
            Ok(Some(answer_with(ty, completion, value)))
        }
        (StateUse::ReadKeys, Some(completion)) => {
            let keys = keys_of(tables, object)?;
            let ty = MessageType::GetLazyStateKeysCompletionNotification;
            Ok(Some(answer_with(ty, completion, keys)))
        }
        _ => Ok(None),
    }
}

/// The entry of a read, and the row of its invocation once the read is recorded.
fn record_read(
    mut row: InvocationRow,
    command: RecordedCommand,
) -> Result<(EntryRow, InvocationRow), AllocError>
    requires { row.progress.entries < 2 ^ 32 - 1 }
    ensures { IfOk result (λ made. made ≡ (command_row row.id row.progress.entries command, with_read command row)) }
{
    let place = row.progress.entries;
    let noted = note_command(&mut row.progress, &command);
    match noted.and_then(|()| row.id.clone()) {
        Ok(id) => Ok((entry_of(id, place, command), row)),
        Err(refused) => {
            drop(row);
            drop(command);
            Err(refused)
        }
    }
}

/// The write of an entry, and these behind it.
fn with_entry(entry: EntryRow, mut behind: Vec<Write>) -> Result<Vec<Write>, AllocError>
    ensures { IfOk result (λ writes. writes.items ≡ Write.AddEntry entry ∷ behind.items) }
{
    behind.insert(0, Write::AddEntry(entry))?;
    Ok(behind)
}

/// What is made ready of a read that has this answer.
pub(crate) fn read_with(
    alloc: Global,
    row: InvocationRow,
    command: RecordedCommand,
    answer: ReadAnswer,
) -> Result<PreparedFrame, Refusal>
    requires { row.progress.entries + 1 < 2 ^ 32 - 1 }
    ensures decided { Decides (payload_tests (notification_payload answer.arrival)) (IsReadMade row command answer) result }
    ensures unasked { IfErr result IsUnasked }
{
    let place = row.progress.entries;
    let ReadAnswer { ty, arrival } = answer;
    match record_read(row, command) {
        Ok((entry, row)) => match prepare_arrival(alloc, row, ty, arrival) {
            Ok(PreparedArrival { writes, place: _ }) => Ok(PreparedFrame {
                writes: with_entry(entry, writes)?,
                reply: FrameReply::Recorded { place },
                acknowledged: None,
            }),
            Err(why) => {
                drop(entry);
                Err(why)
            }
        },
        Err(refused) => {
            drop(arrival);
            Err(Refusal::from(refused))
        }
    }
}
