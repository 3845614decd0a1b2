//! What calls answer, each printed as the end of a line.
use crate::fault::Fault;
use bytes::ByteStr;
use journal_store::{
    Accepted, BegunAttempt, EntryKind, FrameReply, LastError, NonEmptyValue, RecordedEntry,
    Refusal, StateRow,
};
use std::fmt;
use test_rows::Hex;

/// A refusal by its name, and why a statement was refused.
pub fn print_refusal<R: Print>(rt: &R, why: Refusal) -> Result<(), Fault> {
    let name = why.name();
    match why {
        Refusal::StatementRefused(cause) => println!(rt; "refused {name} {cause:?}")?,
        _ => println!(rt; "refused {name}")?,
    }
    Ok(())
}

pub fn print_done<R: Print>(rt: &R, done: Result<(), Refusal>) -> Result<(), Fault> {
    match done {
        Ok(()) => Ok(println!(rt; "ok")?),
        Err(why) => print_refusal(rt, why),
    }
}

/// A place or a count, behind the word for it.
pub fn print_number<R: Print, T: fmt::Display + Copy>(
    rt: &R,
    word: &str,
    number: Result<T, Refusal>,
) -> Result<(), Fault> {
    match number {
        Ok(number) => Ok(println!(rt; "{word} {number}")?),
        Err(why) => print_refusal(rt, why),
    }
}

pub fn print_openness<R: Print>(rt: &R, is_open: Result<bool, Refusal>) -> Result<(), Fault> {
    match is_open {
        Ok(true) => Ok(println!(rt; "open")?),
        Ok(false) => Ok(println!(rt; "closed")?),
        Err(why) => print_refusal(rt, why),
    }
}

pub fn print_bytes<R: Print>(rt: &R, bytes: &[u8]) -> Result<(), Fault> {
    Ok(println!(rt; "{}", Hex(bytes))?)
}

/// The number, the version and the start frame of an attempt.
pub fn print_begun<R: Print>(rt: &R, begun: &BegunAttempt) -> Result<(), Fault> {
    let start = Hex(begun.start.as_slice());
    Ok(println!(rt;
        "attempt {} version {} {start}",
        begun.number,
        begun.version.number()
    )?)
}

fn print_reply<R: Print>(rt: &R, reply: FrameReply) -> Result<(), Fault> {
    match reply {
        FrameReply::Recorded { place } => print!(rt; "recorded {place}")?,
        FrameReply::Noted => print!(rt; "noted")?,
        FrameReply::Suspended => print!(rt; "suspended")?,
        FrameReply::Failed => print!(rt; "failed")?,
        FrameReply::Ended => print!(rt; "ended")?,
    }
    Ok(())
}

/// The answer to one frame, if one waited.
pub fn print_step<R: Print>(
    rt: &R,
    step: Result<Option<FrameReply>, Refusal>,
) -> Result<(), Fault> {
    match step {
        Ok(Some(reply)) => {
            print_reply(rt, reply)?;
            Ok(println!(rt)?)
        }
        Ok(None) => Ok(println!(rt; "nothing")?),
        Err(why) => print_refusal(rt, why),
    }
}

/// The answers to all frames that were taken, and why no further one was.
pub fn print_accepted<R: Print>(rt: &R, accepted: &Accepted) -> Result<(), Fault> {
    for reply in &accepted.replies {
        print_reply(rt, *reply)?;
        print!(rt; ", ")?;
    }
    match accepted.refusal {
        Some(why) => print_refusal(rt, why),
        None => Ok(println!(rt; "no more")?),
    }
}

fn kind_word(kind: EntryKind) -> &'static str {
    match kind {
        EntryKind::Request => "request",
        EntryKind::Arrival => "arrival",
    }
}

fn print_entry<R: Print>(rt: &R, entry: &RecordedEntry) -> Result<(), Fault> {
    let kind = kind_word(entry.kind);
    let payload = Hex(entry.payload.as_slice());
    Ok(print!(rt;
        "{} {kind} {:04x} {payload}, ",
        entry.place,
        u16::from(entry.ty)
    )?)
}

fn print_each<R: Print>(rt: &R, entries: &[RecordedEntry]) -> Result<(), Fault> {
    for entry in entries {
        print_entry(rt, entry)?;
    }
    Ok(println!(rt; "no more")?)
}

/// Each entry by its place, its kind, and the type and the payload of its frame.
pub fn print_entries<R: Print>(
    rt: &R,
    entries: Result<Vec<RecordedEntry>, Refusal>,
) -> Result<(), Fault> {
    match entries {
        Ok(entries) => {
            let done = print_each(rt, entries.as_slice());
            drop(entries);
            done
        }
        Err(why) => print_refusal(rt, why),
    }
}

fn print_all_states<R: Print>(rt: &R, states: &[StateRow]) -> Result<(), Fault> {
    for state in states {
        print!(rt; "{}=", Hex(state.key.as_slice()))?;
        print!(rt; "{}, ", Hex(state.value.as_slice()))?;
    }
    Ok(println!(rt; "no more")?)
}

/// The values of an object, each behind its key.
pub fn print_states<R: Print>(rt: &R, states: Result<Vec<StateRow>, Refusal>) -> Result<(), Fault> {
    match states {
        Ok(states) => {
            let done = print_all_states(rt, states.as_slice());
            drop(states);
            done
        }
        Err(why) => print_refusal(rt, why),
    }
}

fn print_all_ids<R: Print>(rt: &R, ids: &[ByteStr]) -> Result<(), Fault> {
    for id in ids {
        print!(rt; "{}, ", id.as_str())?;
    }
    Ok(println!(rt; "no more")?)
}

/// Ids of invocations.
pub fn print_ids<R: Print>(rt: &R, ids: Result<Vec<ByteStr>, Refusal>) -> Result<(), Fault> {
    match ids {
        Ok(ids) => {
            let done = print_all_ids(rt, ids.as_slice());
            drop(ids);
            done
        }
        Err(why) => print_refusal(rt, why),
    }
}

/// A moment, if there is one.
pub fn print_moment<R: Print>(rt: &R, moment: Result<Option<u64>, Refusal>) -> Result<(), Fault> {
    match moment {
        Ok(Some(moment)) => Ok(println!(rt; "{moment}")?),
        Ok(None) => Ok(println!(rt; "none")?),
        Err(why) => print_refusal(rt, why),
    }
}

fn print_value<R: Print>(rt: &R, value: &NonEmptyValue) -> Result<(), Fault> {
    match value {
        NonEmptyValue::Success(bytes) => println!(rt; "value {}", Hex(bytes.as_slice()))?,
        NonEmptyValue::Failure(failure) => {
            let pairs = failure.metadata.len();
            println!(rt;
                "failure {} {} pairs {pairs}",
                failure.code,
                failure.message.as_str()
            )?
        }
    }
    Ok(())
}

/// What an invocation answers.
pub fn print_answer<R: Print>(
    rt: &R,
    answer: Result<Option<NonEmptyValue>, Refusal>,
) -> Result<(), Fault> {
    match answer {
        Ok(Some(value)) => {
            let done = print_value(rt, &value);
            drop(value);
            done
        }
        Ok(None) => Ok(println!(rt; "none")?),
        Err(why) => print_refusal(rt, why),
    }
}

fn print_error<R: Print>(rt: &R, error: &LastError) -> Result<(), Fault> {
    let delay = error.delay;
    let message = error.message.as_str();
    Ok(println!(rt;
        "code {} behavior {} delay {delay:?} {message}",
        error.code, error.behavior
    )?)
}

/// The last error of an invocation.
pub fn print_failure<R: Print>(
    rt: &R,
    failure: Result<Option<LastError>, Refusal>,
) -> Result<(), Fault> {
    match failure {
        Ok(Some(error)) => {
            let done = print_error(rt, &error);
            drop(error);
            done
        }
        Ok(None) => Ok(println!(rt; "none")?),
        Err(why) => print_refusal(rt, why),
    }
}
