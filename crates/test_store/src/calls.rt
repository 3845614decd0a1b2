//! A file of calls of a store, each line a call, ` -> ` and what it answers. The answer is not read: each call is printed with what
//! it answered, so that a file is printed as it stands where all is as it says.
use crate::answers::{
    print_accepted, print_answer, print_begun, print_bytes, print_done, print_entries,
    print_failure, print_ids, print_moment, print_number, print_openness, print_refusal,
    print_states, print_step,
};
use crate::database::{Database, empty};
use crate::fault::Fault;
use crate::words::{parse_bytes, parse_key, parse_new, parse_result, parse_text};
use bytes::ByteStr;
use journal_store::Store;
use sqlite::MemStore;
use std::alloc::Global;
use std::fs;
use std::rt::Files;

type Memory = Store<MemStore>;

fn invoke<R: Print>(
    rt: &R,
    alloc: Global,
    store: &mut Memory,
    words: &[&str],
) -> Result<(), Fault> {
    let new = parse_new(alloc, words)?;
    print_done(rt, store.invoke(new))
}

fn result<R: Print>(
    rt: &R,
    alloc: Global,
    store: &mut Memory,
    id: &ByteStr,
    completion: &str,
    value: &str,
) -> Result<(), Fault> {
    let completion = completion.parse()?;
    let value = parse_result(alloc, value)?;
    print_number(rt, "place", store.result(id, completion, value))
}

fn signal<R: Print>(
    rt: &R,
    alloc: Global,
    store: &mut Memory,
    id: &ByteStr,
    key: &str,
    value: &str,
) -> Result<(), Fault> {
    let key = parse_key(alloc, key)?;
    let value = parse_result(alloc, value)?;
    print_number(rt, "place", store.signal(id, key, value))
}

fn begin<R: Print>(rt: &R, store: &mut Memory, id: &ByteStr, now: &str) -> Result<(), Fault> {
    let now = now.parse()?;
    match store.begin(id, now) {
        Ok(begun) => {
            let done = print_begun(rt, &begun);
            drop(begun);
            done
        }
        Err(why) => print_refusal(rt, why),
    }
}

fn tick<R: Print>(rt: &R, store: &mut Memory, words: &[&str]) -> Result<(), Fault> {
    let [now] = words else {
        return Err(Fault::NotUnderstood);
    };
    let now = now.parse()?;
    print_number(rt, "ended", store.tick(now))
}

fn due_after<R: Print>(
    rt: &R,
    alloc: Global,
    store: &mut Memory,
    words: &[&str],
) -> Result<(), Fault> {
    let [after, most] = words else {
        return Err(Fault::NotUnderstood);
    };
    let after = parse_text(alloc, after)?;
    let most = most.parse()?;
    print_ids(rt, store.due_after(&after, most))
}

fn next_input<R: Print>(
    rt: &R,
    store: &mut Memory,
    id: &ByteStr,
    attempt: u32,
    most: &str,
) -> Result<(), Fault> {
    let most = most.parse()?;
    match store.next_input(id, attempt, most) {
        Ok(bytes) => {
            let done = print_bytes(rt, bytes.as_slice());
            drop(bytes);
            done
        }
        Err(why) => print_refusal(rt, why),
    }
}

fn push<R: Print>(
    rt: &R,
    alloc: Global,
    store: &mut Memory,
    id: &ByteStr,
    attempt: u32,
    bytes: &str,
) -> Result<(), Fault> {
    let bytes = parse_bytes(alloc, bytes)?;
    print_done(rt, store.push(id, attempt, bytes.as_slice()))
}

fn accept<R: Print>(
    rt: &R,
    alloc: Global,
    store: &mut Memory,
    id: &ByteStr,
    attempt: u32,
    bytes: &str,
) -> Result<(), Fault> {
    let bytes = parse_bytes(alloc, bytes)?;
    let accepted = store.accept(id, attempt, bytes.as_slice());
    drop(bytes);
    match accepted {
        Ok(accepted) => {
            let done = print_accepted(rt, &accepted);
            drop(accepted);
            done
        }
        Err(why) => print_refusal(rt, why),
    }
}

fn forget<R: Print>(
    rt: &R,
    alloc: Global,
    store: &mut Memory,
    words: &[&str],
) -> Result<(), Fault> {
    let mut ids = Vec::new(alloc);
    for word in words {
        let id = parse_text(alloc, *word)?;
        ids.push(id).or(Err(Fault::Memory))?;
    }
    print_done(rt, store.forget(ids.as_slice()))
}

/// A call about one attempt.
fn ask_attempt<R: Print>(
    rt: &R,
    alloc: Global,
    store: &mut Memory,
    call: &str,
    id: &ByteStr,
    words: &[&str],
) -> Result<(), Fault> {
    let [attempt, words @ ..] = words else {
        return Err(Fault::NotUnderstood);
    };
    let attempt = attempt.parse()?;
    match words {
        [] => match call {
            "close_input" => print_done(rt, store.close_input(id, attempt)),
            "step" => print_step(rt, store.step(id, attempt)),
            "stop" => print_done(rt, store.stop(id, attempt)),
            _ => Err(Fault::NotUnderstood),
        },
        [operand] => match call {
            "next_input" => next_input(rt, store, id, attempt, *operand),
            "push" => push(rt, alloc, store, id, attempt, *operand),
            "accept" => accept(rt, alloc, store, id, attempt, *operand),
            _ => Err(Fault::NotUnderstood),
        },
        _ => Err(Fault::NotUnderstood),
    }
}

/// A call about one invocation, or about one object.
fn ask_invocation<R: Print>(
    rt: &R,
    alloc: Global,
    store: &mut Memory,
    call: &str,
    id: &ByteStr,
    words: &[&str],
) -> Result<(), Fault> {
    match words {
        [] => match call {
            "entries" => print_entries(rt, store.entries(id)),
            "answer" => print_answer(rt, store.answer(id)),
            "failure" => print_failure(rt, store.failure(id)),
            "is_open" => print_openness(rt, store.is_open(id)),
            "state" => print_states(rt, store.state(id)),
            "cancel" => print_number(rt, "place", store.cancel(id)),
            _ => Err(Fault::NotUnderstood),
        },
        [now] if call == "begin" => begin(rt, store, id, *now),
        [completion, value] if call == "result" => {
            result(rt, alloc, store, id, *completion, *value)
        }
        [key, value] if call == "signal" => signal(rt, alloc, store, id, *key, *value),
        _ => ask_attempt(rt, alloc, store, call, id, words),
    }
}

/// A call of the store.
fn ask<R: Print>(
    rt: &R,
    alloc: Global,
    store: &mut Memory,
    call: &str,
    words: &[&str],
) -> Result<(), Fault> {
    if call == "invoke" {
        return invoke(rt, alloc, store, words);
    }
    if call == "tick" {
        return tick(rt, store, words);
    }
    if call == "forget" {
        return forget(rt, alloc, store, words);
    }
    if call == "due" {
        return print_ids(rt, store.due());
    }
    if call == "due_after" {
        return due_after(rt, alloc, store, words);
    }
    if call == "next_moment" {
        return print_moment(rt, store.next_moment());
    }
    let [id, words @ ..] = words else {
        return Err(Fault::NotUnderstood);
    };
    let id = parse_text(alloc, id)?;
    ask_invocation(rt, alloc, store, call, &id, words)
}

fn ask_line<R: Print>(rt: &R, alloc: Global, store: &mut Memory, line: &str) -> Result<(), Fault> {
    let words: Vec<&str> = line.split(' ').collect(alloc)?;
    match words.as_slice() {
        [call, words @ ..] => ask(rt, alloc, store, *call, words),
        [] => Err(Fault::NotUnderstood),
    }
}

/// A line of the database, or a call of the store over it.
fn answer<R: Print>(
    rt: &R,
    alloc: Global,
    database: &mut Database,
    line: &str,
) -> Result<(), Fault> {
    if let Some(statement) = line.strip_prefix("sql ") {
        return database.execute(rt, statement);
    }
    if let Some(steps) = line.strip_prefix("limit ") {
        return database.limit(rt, Some(steps.parse()?));
    }
    match line {
        "new" => database.renew(rt),
        "open" => database.open(rt),
        "close" => database.close(rt),
        "unlimit" => database.limit(rt, None),
        _ => ask_line(rt, alloc, database.store()?, line),
    }
}

/// Prints a line with what it answers, and a line that is no call as it is.
fn run_line<R: Print>(
    rt: &R,
    alloc: Global,
    database: &mut Database,
    line: &str,
) -> Result<(), Fault> {
    if line.is_empty() || line.starts_with('#') {
        println!(rt; "{line}")?;
        return Ok(());
    }
    let call = match line.split_once(" -> ") {
        Some((call, _answer)) => call,
        None => line,
    };
    print!(rt; "{call} -> ")?;
    answer(rt, alloc, database, call)
}

fn run_lines<R: Print>(
    rt: &R,
    alloc: Global,
    database: &mut Database,
    calls: &str,
) -> Result<(), Fault> {
    for line in calls.lines() {
        run_line(rt, alloc, database, line)?;
    }
    Ok(())
}

/// Makes the calls of a file over an empty database.
pub fn run_calls<R: Files + Print + AllocGlobal>(rt: &R, name: &str) -> Result<(), Fault> {
    let alloc = rt.alloc();
    let calls = fs::read_to_string(rt, name)?;
    let mut database = empty(alloc)?;
    let done = run_lines(rt, alloc, &mut database, calls.as_str());
    database.leave();
    done
}
