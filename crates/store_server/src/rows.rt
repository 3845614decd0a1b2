//! Invocations, and what one has asked of others, as lines show them.
ghost use Rattle.std.specs.Prelude.{◌≡◌, is_some, Some};
ghost use Rattle.store_invocations.specs.InvocationAnswers.{answer_told};
ghost use Rattle.server_lines.specs.Reply.{invocation_line, invocation_text, open_request_line, open_request_text};
ghost use Rattle.protocol_types.specs.MessageType.{type_number};
ghost use Rattle.store_server.specs.StoreChanges.{CommitsNothing, ReachesStore, TellsKnown, items_told};
ghost use Rattle.store_server.specs.RequestAnswers.{Shown};
ghost use Rattle.store_server.specs.Rows.{ListsRow, ListsRows, TellsKind, all_listed_text, answer_kind, open_requests_text, row_status};

use bytes::ByteStr;
use journal_store::{Closing, InvocationRow, NonEmptyValue, OpenRequest, Refusal, Store};
use server_lines::reply::{AnswerKind, InvocationReply, InvocationStatus, OpenRequestReply};
use sqlite::Alter;
use std::alloc::Global;
use std::fmt;

/// An invocation, how it stands, and what it answers.
#[derive(Drop)]
pub struct ListedInvocation {
    pub row: InvocationRow,
    pub status: InvocationStatus,
    pub answer: AnswerKind,
}

/// Invocations, a line each.
#[derive(Drop)]
pub struct ShownInvocations {
    pub invocations: Vec<ListedInvocation>,
}

fn invocation_reply(listed: &ListedInvocation) -> InvocationReply<'_>
    ensures { invocation_text result ≡ invocation_line listed.now.row.id listed.now.row.object listed.now.status listed.now.row.progress.attempts listed.now.row.progress.entries listed.now.answer }
{
    let row = &listed.row;
    InvocationReply {
        id: row.id.as_bytes(),
        object: row.object.as_bytes(),
        status: listed.status,
        attempts: row.progress.attempts,
        entries: row.progress.entries,
        answer: listed.answer,
    }
}

impl fmt::Display for ShownInvocations {
    ghost output = { λ shown. Some (all_listed_text shown.invocations.items) };

    fn fmt<W: fmt::Write>(&self, f: &mut fmt::Formatter<W>) -> fmt::Result {
        for listed in &self.invocations {
            let reply = invocation_reply(listed);
            write!(f, "{reply}\n")?;
        }
        Ok(())
    }
}

/// What an invocation has asked of others, a line each.
#[derive(Drop)]
pub struct ShownRequests {
    pub id: ByteStr,
    pub requests: Vec<OpenRequest>,
}

fn request_reply<'a>(id: &'a ByteStr, request: &'a OpenRequest) -> OpenRequestReply<'a>
    ensures { open_request_text result ≡ open_request_line id.now request.now.place request.now.completion request.now.second_completion (type_number request.now.ty) request.now.payload }
{
    OpenRequestReply {
        id: id.as_bytes(),
        place: request.place,
        completion: request.completion,
        second_completion: request.second_completion,
        ty: u16::from(request.ty),
        payload: request.payload.as_slice(),
    }
}

impl fmt::Display for ShownRequests {
    ghost output = { λ shown. Some (open_requests_text shown.id shown.requests.items) };

    fn fmt<W: fmt::Write>(&self, f: &mut fmt::Formatter<W>) -> fmt::Result {
        for request in &self.requests {
            let reply = request_reply(&self.id, request);
            write!(f, "{reply}\n")?;
        }
        Ok(())
    }
}

/// How an invocation stands, of which an attempt is live or not.
fn status_of(row: &InvocationRow, is_live: bool) -> InvocationStatus
    ensures { result ≡ row_status row.now is_live }
{
    match &row.progress.closing {
        Some(Closing::Ended) => InvocationStatus::Ended,
        Some(Closing::Failed) => InvocationStatus::Failed,
        None => {
            if is_live {
                InvocationStatus::Live
            } else if row.progress.is_awake {
                InvocationStatus::Due
            } else {
                InvocationStatus::Suspended
            }
        }
    }
}

fn kind_of(answer: &Option<NonEmptyValue>) -> AnswerKind
    ensures { result ≡ answer_kind answer.now }
{
    match answer {
        None => AnswerKind::Missing,
        Some(NonEmptyValue::Success(_)) => AnswerKind::Value,
        Some(NonEmptyValue::Failure(_)) => AnswerKind::Failure,
    }
}

/// The kind of what an invocation answers.
fn ended_kind<S: Alter + Drop>(store: &mut Store<S>, id: &ByteStr) -> Result<AnswerKind, Refusal>
    ensures told { ReachesStore S.Store CommitsNothing (TellsKnown id.now (λ events kind. kind ≡ answer_kind (answer_told events id.now)) result) store.old store.new }
    ensures live { store.new.live ≡ store.old.live }
{
    match store.answer(id) {
        Ok(answer) => {
            let kind = kind_of(&answer);
            drop(answer);
            Ok(kind)
        }
        Err(refusal) => Err(refusal),
    }
}

/// The same, by the row where that tells it: it is read only of one that its handler has ended.
fn row_kind<S: Alter + Drop>(
    store: &mut Store<S>,
    row: &InvocationRow,
) -> Result<AnswerKind, Refusal>
    ensures told { ReachesStore S.Store CommitsNothing (Shown (TellsKind row.now result)) store.old store.new }
    ensures live { store.new.live ≡ store.old.live }
{
    match &row.progress.closing {
        Some(Closing::Ended) => ended_kind(store, &row.id),
        Some(Closing::Failed) => Ok(AnswerKind::Failure),
        None => Ok(AnswerKind::Missing),
    }
}

fn listed_row<S: Alter + Drop>(
    store: &mut Store<S>,
    row: InvocationRow,
) -> Result<ListedInvocation, Refusal>
    ensures told { ReachesStore S.Store CommitsNothing (Shown (ListsRow store.old.live.attempts row result)) store.old store.new }
    ensures live { store.new.live ≡ store.old.live }
{
    let status = status_of(&row, store.is_attempt_live(&row.id));
    match row_kind(store, &row) {
        Ok(answer) => Ok(ListedInvocation {
            row,
            status,
            answer,
        }),
        Err(refusal) => {
            drop(row);
            Err(refusal)
        }
    }
}

/// Invocations, each with how it stands and what it answers. Nothing is read but what those answer that have ended.
pub(crate) fn listed<S: Alter + Drop>(
    alloc: Global,
    store: &mut Store<S>,
    rows: Vec<InvocationRow>,
) -> Result<Vec<ListedInvocation>, Refusal>
    ensures { ReachesStore S.Store CommitsNothing (Shown (ListsRows store.old.live.attempts rows.items (items_told (λ listed. listed.items) result))) store.old store.new }
{
    let mut invocations = Vec::with_capacity(alloc, rows.len())?;
    for row in rows {
        let one = listed_row(store, row)?;
        invocations.push(one)?;
    }
    Ok(invocations)
}
