//! Requests that only ask. All is asked for before a text is made of it.
ghost use Rattle.std.specs.Prelude.{◌≡◌, ◌++◌, map, [], IfErr, IfOk, Ok, Some, string_bytes};
ghost use Rattle.journal_model.specs.Attempt.{due, is_due};
ghost use Rattle.journal_model.specs.Journal.{is_open};
ghost use Rattle.due_laws.specs.NextMoment.{IsNextMoment};
ghost use Rattle.server_lines.specs.Reply.{error_text};
ghost use Rattle.shown_records.specs.ShownTexts.{HasEntries, HasRecords, RefusesShow, Shows, TellsState};
ghost use Rattle.store_model.specs.Progress.{last_error_of};
ghost use Rattle.store_invocations.specs.InvocationAnswers.{answer_told};
ghost use Rattle.store_reads.specs.DuePage.{due_after};
ghost use Rattle.store_reads.specs.Page.{invocations_after};
ghost use Rattle.store_reads.specs.OpenRequests.{open_requests};
ghost use Rattle.store_server.specs.StoreChanges.{CommitsNothing, ReachesStore, Tells, TellsKnown, items_told};
ghost use Rattle.store_server.specs.RequestAnswers.{Answers, HasAnswer, IsUnknown, MakesAnswer, Shown, answered_text, id_if, ids_line, last_error_line, last_error_text, line_of, moment_line};
ghost use Rattle.store_server.specs.Rows.{all_listed_text, end_line, listed_of, open_requests_text};

use crate::answer::refused;
use crate::rows::{ListedInvocation, ShownInvocations, ShownRequests, listed};
use bytes::ByteStr;
use journal_store::{LastError, Refusal, Store};
use server_lines::reply::{DueReply, ErrorReply, NextReply};
use shown_records::{ShownEntry, ShownInvocation, ShownStates, read_entries};
use sqlite::Alter;
use std::alloc::{AllocError, Global};
use std::slice::from_ref;

fn due_line(alloc: Global, ids: &[ByteStr]) -> Result<String, AllocError>
    ensures { IfOk result (λ text. string_bytes text ≡ ids_line ids.now) }
{
    let reply = DueReply(ids);
    format!(in alloc; "{reply}\n")
}

pub(crate) fn due<S: Alter + Drop>(
    alloc: Global,
    store: &mut Store<S>,
) -> Result<String, AllocError>
    ensures { MakesAnswer string_bytes result (λ text. ReachesStore S.Store CommitsNothing (Answers ids_line (Tells (λ events ids. ids ≡ due events)) text) store.old store.new) }
{
    match store.due() {
        Ok(ids) => {
            let text = due_line(alloc, ids.as_slice());
            drop(ids);
            text
        }
        Err(refusal) => refused(alloc, refusal),
    }
}

/// Whether an id is among those that are due.
fn is_listed<S: Alter + Drop>(store: &mut Store<S>, id: &ByteStr) -> Result<bool, Refusal>
    ensures { ReachesStore S.Store CommitsNothing (Tells (λ events told. told ≡ is_due events id.now) result) store.old store.new }
{
    match store.due() {
        Ok(ids) => {
            let is_among = ids.as_slice().contains(id);
            drop(ids);
            Ok(is_among)
        }
        Err(refusal) => Err(refusal),
    }
}

/// Whether an invocation is due.
fn is_due<S: Alter + Drop>(store: &mut Store<S>, id: &ByteStr) -> Result<bool, Refusal>
    ensures { ReachesStore S.Store CommitsNothing (TellsKnown id.now (λ events told. told ≡ is_due events id.now) result) store.old store.new }
{
    let is_open = store.is_open(id)?;
    if is_open {
        is_listed(store, id)
    } else {
        Ok(false)
    }
}

/// One that is due is told as all that are due would be.
fn due_one_line(alloc: Global, id: &ByteStr, is_due: bool) -> Result<String, AllocError>
    ensures { IfOk result (λ text. string_bytes text ≡ ids_line (id_if is_due id.now)) }
{
    if is_due {
        due_line(alloc, from_ref(id))
    } else {
        due_line(alloc, &[])
    }
}

pub(crate) fn due_one<S: Alter + Drop>(
    alloc: Global,
    store: &mut Store<S>,
    id: &ByteStr,
) -> Result<String, AllocError>
    ensures { MakesAnswer string_bytes result (λ text. ReachesStore S.Store CommitsNothing (Answers (λ told. ids_line (id_if told id.now)) (TellsKnown id.now (λ events told. told ≡ is_due events id.now)) text) store.old store.new) }
{
    match is_due(store, id) {
        Ok(told) => due_one_line(alloc, id, told),
        Err(refusal) => refused(alloc, refusal),
    }
}

/// The first so many that are due of those whose ids are above one.
pub(crate) fn due_page<S: Alter + Drop>(
    alloc: Global,
    store: &mut Store<S>,
    after: &ByteStr,
    most: u32,
) -> Result<String, AllocError>
    ensures { MakesAnswer string_bytes result (λ text. ReachesStore S.Store CommitsNothing (Answers ids_line (Tells (λ events ids. ids ≡ due_after events after.now most)) text) store.old store.new) }
{
    match store.due_after(after, most as usize) {
        Ok(ids) => {
            let text = due_line(alloc, ids.as_slice());
            drop(ids);
            text
        }
        Err(refusal) => refused(alloc, refusal),
    }
}

pub(crate) fn next<S: Alter + Drop>(
    alloc: Global,
    store: &mut Store<S>,
) -> Result<String, AllocError>
    ensures { MakesAnswer string_bytes result (λ text. ReachesStore S.Store CommitsNothing (Answers moment_line (Tells IsNextMoment) text) store.old store.new) }
{
    match store.next_moment() {
        Ok(moment) => {
            let reply = NextReply(moment);
            format!(in alloc; "{reply}\n")
        }
        Err(refusal) => refused(alloc, refusal),
    }
}

/// The requests and arrivals that are recorded.
fn shown_entries<S: Alter + Drop>(
    alloc: Global,
    store: &mut Store<S>,
    id: &ByteStr,
) -> Result<Vec<ShownEntry>, Refusal>
    ensures ok { IfOk result (λ shown. ReachesStore S.Store CommitsNothing (Shown (HasEntries id.now shown.items)) store.old store.new) }
    ensures err { IfErr result (λ refusal. ReachesStore S.Store CommitsNothing (Shown (RefusesShow id.now refusal)) store.old store.new) }
{
    match store.entries(id) {
        Ok(entries) => read_entries(alloc, entries),
        Err(refusal) => Err(refusal),
    }
}

/// What the store holds of an invocation.
fn shown<S: Alter + Drop>(
    alloc: Global,
    store: &mut Store<S>,
    id: &ByteStr,
) -> Result<ShownInvocation, Refusal>
    ensures ok { IfOk result (λ shown. ReachesStore S.Store CommitsNothing (Shown (HasRecords id.now shown.entries.items shown.answer shown.is_open)) store.old store.new) }
    ensures err { IfErr result (λ refusal. ReachesStore S.Store CommitsNothing (Shown (RefusesShow id.now refusal)) store.old store.new) }
{
    let is_open = store.is_open(id)?;
    let answer = store.answer(id)?;
    match shown_entries(alloc, store, id) {
        Ok(entries) => Ok(ShownInvocation {
            entries,
            answer,
            is_open,
        }),
        Err(refusal) => {
            drop(answer);
            Err(refusal)
        }
    }
}

pub(crate) fn show<S: Alter + Drop>(
    alloc: Global,
    store: &mut Store<S>,
    id: &ByteStr,
) -> Result<String, AllocError>
    ensures { MakesAnswer string_bytes result (λ text. ReachesStore S.Store CommitsNothing (Shown (Shows id.now text)) store.old store.new) }
{
    match shown(alloc, store, id) {
        Ok(shown) => {
            let text = format!(in alloc; "{shown}");
            drop(shown);
            text
        }
        Err(refusal) => refused(alloc, refusal),
    }
}

/// What an invocation answers, and whether it is open.
fn found_answer<S: Alter + Drop>(
    alloc: Global,
    store: &mut Store<S>,
    id: &ByteStr,
) -> Result<ShownInvocation, Refusal>
    ensures ok { IfOk result (λ shown. (shown.entries.items ≡ []) × ReachesStore S.Store CommitsNothing (Shown (HasAnswer id.now shown.answer shown.is_open)) store.old store.new) }
    ensures err { IfErr result (λ refusal. ReachesStore S.Store CommitsNothing (Shown (IsUnknown id.now refusal)) store.old store.new) }
{
    let is_open = store.is_open(id)?;
    match store.answer(id) {
        Ok(answer) => Ok(ShownInvocation {
            entries: Vec::new(alloc),
            answer,
            is_open,
        }),
        Err(refusal) => Err(refusal),
    }
}

/// As `show` ends, without the journal.
pub(crate) fn answered<S: Alter + Drop>(
    alloc: Global,
    store: &mut Store<S>,
    id: &ByteStr,
) -> Result<String, AllocError>
    ensures { MakesAnswer string_bytes result (λ text. ReachesStore S.Store CommitsNothing (Answers answered_text (TellsKnown id.now (λ events told. told ≡ (answer_told events id.now, is_open events id.now))) text) store.old store.new) }
{
    match found_answer(alloc, store, id) {
        Ok(shown) => {
            let text = format!(in alloc; "{shown}");
            drop(shown);
            text
        }
        Err(refusal) => refused(alloc, refusal),
    }
}

pub(crate) fn state<S: Alter + Drop>(
    alloc: Global,
    store: &mut Store<S>,
    object: &ByteStr,
) -> Result<String, AllocError>
    ensures { MakesAnswer string_bytes result (λ text. ReachesStore S.Store CommitsNothing (Shown (TellsState object.now text)) store.old store.new) }
{
    match store.state(object) {
        Ok(rows) => {
            let shown = ShownStates { rows };
            let text = format!(in alloc; "{shown}");
            drop(shown);
            text
        }
        Err(refusal) => refused(alloc, refusal),
    }
}

fn error_reply(error: &Option<LastError>) -> ErrorReply<'_>
    ensures { error_text result ≡ last_error_text error.now }
{
    match error {
        None => ErrorReply::Missing,
        Some(error) => ErrorReply::Told {
            code: error.code,
            behavior: error.behavior,
            delay: error.delay,
            message: error.message.as_bytes(),
        },
    }
}

pub(crate) fn error<S: Alter + Drop>(
    alloc: Global,
    store: &mut Store<S>,
    id: &ByteStr,
) -> Result<String, AllocError>
    ensures { MakesAnswer string_bytes result (λ text. ReachesStore S.Store CommitsNothing (Answers last_error_line (TellsKnown id.now (λ events error. error ≡ last_error_of events id.now)) text) store.old store.new) }
{
    match store.failure(id) {
        Ok(error) => {
            let reply = error_reply(&error);
            let text = format!(in alloc; "{reply}\n");
            drop(error);
            text
        }
        Err(refusal) => refused(alloc, refusal),
    }
}

/// The first so many of the invocations whose ids are above one.
pub(crate) fn page<S: Alter + Drop>(
    alloc: Global,
    store: &mut Store<S>,
    after: &ByteStr,
    most: usize,
) -> Result<Vec<ListedInvocation>, Refusal>
    ensures { ReachesStore S.Store CommitsNothing (Tells (λ events page. page ≡ map (listed_of events) (invocations_after events (Some after.now) most)) (items_told (λ page. page.items) result)) store.old store.new }
{
    match store.invocations(Some(after), most) {
        Ok(rows) => listed(alloc, store, rows),
        Err(refusal) => Err(refusal),
    }
}

pub(crate) fn list<S: Alter + Drop>(
    alloc: Global,
    store: &mut Store<S>,
    after: &ByteStr,
    most: u32,
) -> Result<String, AllocError>
    ensures { MakesAnswer string_bytes result (λ text. ReachesStore S.Store CommitsNothing (Answers (λ listed. all_listed_text listed ++ end_line) (Tells (λ events listed. listed ≡ map (listed_of events) (invocations_after events (Some after.now) most))) text) store.old store.new) }
{
    match page(alloc, store, after, most as usize) {
        Ok(invocations) => {
            let shown = ShownInvocations { invocations };
            let text = format!(in alloc; "{shown}end\n");
            drop(shown);
            text
        }
        Err(refusal) => refused(alloc, refusal),
    }
}

pub(crate) fn requests<S: Alter + Drop>(
    alloc: Global,
    store: &mut Store<S>,
    id: ByteStr,
) -> Result<String, AllocError>
    ensures { MakesAnswer string_bytes result (λ text. ReachesStore S.Store CommitsNothing (Answers (λ asked. open_requests_text id asked ++ end_line) (TellsKnown id (λ events asked. asked ≡ open_requests events id)) text) store.old store.new) }
{
    match store.open_requests(&id) {
        Ok(requests) => {
            let shown = ShownRequests { id, requests };
            let text = format!(in alloc; "{shown}end\n");
            drop(shown);
            text
        }
        Err(refusal) => {
            drop(id);
            refused(alloc, refusal)
        }
    }
}
