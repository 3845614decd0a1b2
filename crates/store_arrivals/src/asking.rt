//! Which request waits for a completion, and what it may be given from outside.

ghost use Rattle.std.specs.Prelude.{◌≡◌, not, List, option_and_then, option_map, IfErr};
ghost use Rattle.sqlite.specs.Held.{state};
ghost use Rattle.sqlite.specs.State.{HasCleanDisk};
ghost use Rattle.journal_model.specs.Event.{Event};
ghost use Rattle.journal_model.specs.Journal.{entries_of, is_awaited, open_request, request_asking};
ghost use Rattle.protocol_types.specs.MessageType.{named_type};
ghost use Rattle.store_tables.specs.Looks.{OnlyAsks};
ghost use Rattle.store_refusals.specs.Preparations.{TellsOrRefuses};
ghost use Rattle.store_invocations.specs.Rows.{IsStoreOf};
ghost use Rattle.store_arrivals.specs.AskedCompletions.{as_second, completion_asked_by, completion_for, first_type, is_run_command, second_type, type_for};
ghost use Rattle.store_refusals.specs.Causes.{TellsCause};

use bytes::ByteStr;
use journal_model::NotificationResult;
use protocol_stream::{CommandFacts, Completion, MessageType};
use sqlite::Alter;
use std::alloc::Global;
use store_refusals::{Cause, Refusal};
use store_tables::{
    EntryRow, StoreTables, entry_by_answered, entry_by_completion, entry_by_second_completion,
};

/// A request, as one that asks for a completion.
#[derive(Clone, Copy, Debug, PartialEq, Eq)]
pub(crate) struct AskedCompletion {
    /// The type of the request's command.
    pub(crate) ty: MessageType,
    /// Whether it is the second completion that the request asks for.
    pub(crate) is_second: bool,
}

/// The type of the frame of a row that was found.
fn type_of(found: &Option<EntryRow>) -> Option<MessageType>
    ensures { result ≡ option_map (λ row. row.kind) found.now }
{
    found.as_ref().map(|row| row.kind)
}

fn asked_second(ty: Option<MessageType>) -> Option<AskedCompletion>
    ensures { result ≡ option_map as_second ty }
{
    match ty {
        Some(ty) => Some(AskedCompletion {
            ty,
            is_second: true,
        }),
        None => None,
    }
}

/// Whether a completion has come.
fn has_come<S: Alter>(
    tables: &mut StoreTables<S>,
    id: &ByteStr,
    completion: u32,
) -> Result<bool, Refusal>
    ensures told { HasCleanDisk (state S.Store tables.new) → (events : List Event) → IsStoreOf events (state S.Store tables.old) → TellsOrRefuses (λ come. come ≡ not (is_awaited (entries_of events id.now) completion)) result }
    ensures looks { OnlyAsks S.Store tables.old tables.new }
    ensures cause { IfErr result (TellsCause (state S.Store tables.old) (state S.Store tables.new)) }
{
    let row = entry_by_answered(tables, id, completion)?;
    let come = row.is_some();
    drop(row);
    Ok(come)
}

/// The type of the request's command, where the completion is its first.
fn first_type<S: Alter>(
    tables: &mut StoreTables<S>,
    id: &ByteStr,
    completion: u32,
) -> Result<Option<MessageType>, Refusal>
    ensures told { HasCleanDisk (state S.Store tables.new) → (events : List Event) → IsStoreOf events (state S.Store tables.old) → TellsOrRefuses (λ ty. ty ≡ option_and_then (first_type completion) (request_asking (entries_of events id.now) completion)) result }
    ensures looks { OnlyAsks S.Store tables.old tables.new }
    ensures cause { IfErr result (TellsCause (state S.Store tables.old) (state S.Store tables.new)) }
{
    let row = entry_by_completion(tables, id, completion)?;
    let ty = type_of(&row);
    drop(row);
    Ok(ty)
}

/// The type of the request's command, where the completion is its second.
fn second_type<S: Alter>(
    tables: &mut StoreTables<S>,
    id: &ByteStr,
    completion: u32,
) -> Result<Option<MessageType>, Refusal>
    ensures told { HasCleanDisk (state S.Store tables.new) → (events : List Event) → IsStoreOf events (state S.Store tables.old) → TellsOrRefuses (λ ty. ty ≡ option_and_then (second_type completion) (request_asking (entries_of events id.now) completion)) result }
    ensures looks { OnlyAsks S.Store tables.old tables.new }
    ensures cause { IfErr result (TellsCause (state S.Store tables.old) (state S.Store tables.new)) }
{
    let row = entry_by_second_completion(tables, id, completion)?;
    let ty = type_of(&row);
    drop(row);
    Ok(ty)
}

/// The request that asks for a completion.
fn request_of<S: Alter>(
    tables: &mut StoreTables<S>,
    id: &ByteStr,
    completion: u32,
) -> Result<Option<AskedCompletion>, Refusal>
    ensures told { HasCleanDisk (state S.Store tables.new) → (events : List Event) → IsStoreOf events (state S.Store tables.old) → TellsOrRefuses (λ asked. asked ≡ option_map (completion_asked_by completion) (request_asking (entries_of events id.now) completion)) result }
    ensures looks { OnlyAsks S.Store tables.old tables.new }
    ensures cause { IfErr result (TellsCause (state S.Store tables.old) (state S.Store tables.new)) }
{
    let first = first_type(tables, id, completion)?;
    match first {
        Some(ty) => Ok(Some(AskedCompletion {
            ty,
            is_second: false,
        })),
        None => {
            let second = second_type(tables, id, completion)?;
            Ok(asked_second(second))
        }
    }
}

/// The request whose completion is open.
pub(crate) fn open_request_of<S: Alter>(
    tables: &mut StoreTables<S>,
    id: &ByteStr,
    completion: u32,
) -> Result<Option<AskedCompletion>, Refusal>
    ensures told { HasCleanDisk (state S.Store tables.new) → (events : List Event) → IsStoreOf events (state S.Store tables.old) → TellsOrRefuses (λ asked. asked ≡ option_map (completion_asked_by completion) (open_request (entries_of events id.now) completion)) result }
    ensures looks { OnlyAsks S.Store tables.old tables.new }
    ensures cause { IfErr result (TellsCause (state S.Store tables.old) (state S.Store tables.new)) }
{
    let come = has_come(tables, id, completion)?;
    if come {
        return Ok(None);
    }
    request_of(tables, id, completion)
}

impl AskedCompletion {
    /// The completion, by the line of the request's command.
    fn completion(self) -> Option<Completion>
        ensures { result ≡ completion_for self }
    {
        match CommandFacts::of(self.ty) {
            Some(facts) => facts.completions.completion(self.is_second),
            None => None,
        }
    }

    /// Whether the request is a run, whose outcome attempts propose.
    pub(crate) fn is_run(self) -> bool
        ensures { result ≡ is_run_command self.ty }
    {
        match self.ty {
            MessageType::RunCommand => true,
            _ => false,
        }
    }

    /// The type of the notification by which it is given this from outside, where it may be.
    pub(crate) fn type_given(self, brought: &NotificationResult) -> Result<MessageType, Refusal>
        ensures { result ≡ type_for (completion_for self) brought.now }
    {
        match self.completion() {
            Some(completion) => {
                if completion.completed_by.accepts(brought) {
                    Ok(completion.notification)
                } else {
                    Err(Refusal::Cause(Cause::WrongKind))
                }
            }
            None => Err(Refusal::Cause(Cause::WrongKind)),
        }
    }
}
