//! The dialogue: a line is read, done and answered before the next is read.
ghost use Rattle.std.specs.Prelude.{◌≡◌, ◌≤◌, ℕ, length, take, IfErr, IfOk, OnOk, string_bytes};
ghost use Rattle.std.specs.Io.KnownBytes.{Appends};
ghost use Rattle.store_server.specs.RequestAnswers.{MakesAnswer};
ghost use Rattle.store_server.specs.Lasting.{AnswersLine, AnswersRequest};
ghost use Rattle.store_server.specs.Dialogue.{DoesGiven, GoesOn, Serves, StopsAtLine};

use crate::answer::not_understood;
use crate::asks::{answered, due, due_one, due_page, error, list, next, requests, show, state};
use crate::calls::{
    begin, cancel, close, complete, forget, input, invoke, output, signal, stop, tick,
};
use crate::fault::ServerFault;
use crate::reading::read_line;
use journal_store::Store;
use script_lines::output::write_text;
use server_lines::request::{Request, parse_request};
use sqlite::Alter;
use std::alloc::{AllocError, Global};
use std::io::{BufRead, Write};

/// Does a request that brings something or hands something out.
fn answer_request<S: Alter + Drop>(
    alloc: Global,
    store: &mut Store<S>,
    request: Request,
) -> Result<String, AllocError>
    ensures { MakesAnswer string_bytes result (λ text. AnswersRequest S.Store request text store.old store.new) }
{
    match request {
        Request::Invoke(new) => invoke(alloc, store, new),
        Request::Result {
            id,
            completion,
            value,
        } => complete(alloc, store, &id, completion, value),
        Request::Signal { id, key, value } => signal(alloc, store, &id, key, value),
        Request::Cancel { id } => cancel(alloc, store, &id),
        Request::Tick { now } => tick(alloc, store, now),
        Request::Begin { id, now } => begin(alloc, store, &id, now),
        Request::Input { id, attempt, most } => input(alloc, store, &id, attempt, most),
        Request::Output { id, attempt, bytes } => output(alloc, store, &id, attempt, &bytes),
        Request::Close { id, attempt } => close(alloc, store, &id, attempt),
        Request::Stop { id, attempt } => stop(alloc, store, &id, attempt),
        Request::Forget { ids } => forget(alloc, store, ids.as_slice()),
        Request::Due => due(alloc, store),
        Request::DueOne { id } => due_one(alloc, store, &id),
        Request::DueAfter { after, most } => due_page(alloc, store, &after, most),
        Request::Next => next(alloc, store),
        Request::Show { id } => show(alloc, store, &id),
        Request::Answer { id } => answered(alloc, store, &id),
        Request::State { object } => state(alloc, store, &object),
        Request::Error { id } => error(alloc, store, &id),
        Request::List { after, most } => list(alloc, store, &after, most),
        Request::Requests { id } => requests(alloc, store, id),
    }
}

/// Does a line, and makes its answer.
fn answer_line<S: Alter + Drop>(
    alloc: Global,
    store: &mut Store<S>,
    line: &[u8],
) -> Result<String, ServerFault>
    ensures ok { IfOk result (λ text. AnswersLine S.Store line.now (string_bytes text) store.old store.new) }
    ensures err { IfErr result (λ fault. StopsAtLine S.Store line.now fault store.old store.new) }
{
    match parse_request(alloc, line)? {
        Some(request) => {
            answer_request(alloc, store, request).or(Err(ServerFault::AnswerOutOfMemory))
        }
        None => not_understood(alloc).or(Err(ServerFault::AnswerOutOfMemory)),
    }
}

/// Writes an answer, and lets the writer hand it on.
pub(crate) fn send<W: Write>(writer: &mut W, text: &[u8]) -> Result<(), ServerFault>
    ensures ok { OnOk result (Appends (W.contents writer.old) (W.contents writer.new) text.now) }
    ensures err { IfErr result (λ fault. (fault ≡ ServerFault.OutputUnwritable) × (taken : ℕ) × (taken ≤ length text.now)
        × Appends (W.contents writer.old) (W.contents writer.new) (take taken text.now)) }
{
    if write_text(writer, text).is_err() {
        return Err(ServerFault::OutputUnwritable);
    }
    if writer.flush().is_err() {
        return Err(ServerFault::OutputUnwritable);
    }
    Ok(())
}

/// Does a line, and answers it.
fn do_line<W: Write, S: Alter + Drop>(
    alloc: Global,
    writer: &mut W,
    store: &mut Store<S>,
    line: Vec<u8>,
) -> Result<bool, ServerFault>
    ensures { DoesGiven S.Store line.items (W.contents writer.old) (W.contents writer.new) store.old store.new result }
{
    let answer = answer_line(alloc, store, line.as_slice());
    drop(line);
    match answer {
        Ok(text) => {
            let sent = send(writer, text.as_bytes());
            drop(text);
            match sent {
                Ok(()) => Ok(true),
                Err(fault) => Err(fault),
            }
        }
        Err(fault) => Err(fault),
    }
}

/// Reads a line, does it and answers it. Whether there was one.
fn do_next<R: BufRead, W: Write, S: Alter + Drop>(
    alloc: Global,
    reader: &mut R,
    writer: &mut W,
    store: &mut Store<S>,
) -> Result<bool, ServerFault>
    ensures { GoesOn S.Store (R.remaining reader.old) (R.remaining reader.new) (W.contents writer.old) (W.contents writer.new) store.old store.new result }
{
    match read_line(alloc, reader) {
        Ok(Some(line)) => do_line(alloc, writer, store, line),
        Ok(None) => Ok(false),
        Err(fault) => Err(fault),
    }
}

/// Serves a store: each line of a reader is a request, which is done and answered on the writer before the next is read. It ends with the
/// input. A line that spells no request is answered so, and changes nothing.
pub fn serve<R: BufRead, W: Write, S: Alter + Drop>(
    alloc: Global,
    reader: &mut R,
    writer: &mut W,
    store: &mut Store<S>,
) -> Result<(), ServerFault>
    // What was read, done and answered, and why no more. Each line was done as the store's own contract says. What a crash leaves is what
    // the lines before it left, or what the one at which it came commits; and what was answered lasts.
    ensures { Serves S.Store (R.remaining reader.old) (R.remaining reader.new) (W.contents writer.old) (W.contents writer.new) store.old store.new result }
{
    for _ in 0..u64::MAX {
        match do_next(alloc, reader, writer, store) {
            Ok(true) => {}
            Ok(false) => return Ok(()),
            Err(fault) => return Err(fault),
        }
    }
    Err(ServerFault::InputUnreadable)
}
