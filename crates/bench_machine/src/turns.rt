//! What a turn of a straight-line handler takes, whose code is executed from its top.
use crate::fault::Fault;
use crate::loops::{Effects, Sleeps};
use crate::timing::{Stopwatch, nanoseconds_each};
use bytes::{ByteStr, Bytes};
use journal_model::{Answer, Call, Handler, Input, NotificationHandle, Value};
use sequence::Sequence;
use std::alloc::{AllocError, Global};
use std::rt::HostRuntime;
use straight_line::Straight;

/// How often a turn is made.
const TURNS: u32 = 100;

fn input(alloc: Global) -> Input {
    Input {
        invocation_id: ByteStr::from_static("i"),
        key: ByteStr::from_static("o"),
        random_seed: 1,
        headers: Sequence::new(alloc),
        input: Bytes::new(),
        scope: None,
        limit_key: None,
        idempotency_key: None,
    }
}

fn handle(number: u32) -> Answer {
    Answer::Handle(NotificationHandle::new(number))
}

/// The answers of so many sleeps: each has a handle, and is awaited.
fn answers_of_sleeps(alloc: Global, count: u32) -> Result<Vec<Answer>, AllocError> {
    let mut answers = Vec::new(alloc);
    for sleep in 0..count {
        answers.push(handle(sleep))?;
        answers.push(Answer::Woken)?;
    }
    Ok(answers)
}

/// Those of so many effects: each has a handle, is awaited, and its outcome is taken.
fn answers_of_effects(alloc: Global, count: u32) -> Result<Vec<Answer>, AllocError> {
    let mut answers = Vec::new(alloc);
    for effect in 0..count {
        let outcome = Value::Success(Bytes::from_static(b"receipt"));
        answers.push(handle(effect))?;
        answers.push(Answer::Woken)?;
        answers.push(Answer::Taken(Some(outcome)))?;
    }
    Ok(answers)
}

/// How many of so many turns came to a further call.
fn make_turns<H: Handler>(
    alloc: Global,
    handler: &H,
    answers: &[Answer],
    turns: u32,
) -> Result<u32, AllocError> {
    let input = input(alloc);
    let mut made = 0;
    for _ in 0..turns {
        let call = handler.next(&input, answers)?;
        if matches!(&call, Call::Sleep { .. } | Call::Run { .. }) && made < turns {
            made += 1;
        }
        drop(call);
    }
    drop(input);
    Ok(made)
}

/// What a turn takes, in nanoseconds.
fn time_turns<H: Handler>(
    rt: &HostRuntime,
    handler: &H,
    answers: &[Answer],
) -> Result<u128, Fault> {
    let mut watch = Stopwatch::start(rt)?;
    make_turns(rt.alloc(), handler, answers, TURNS)?;
    Ok(nanoseconds_each(watch.lap(rt)?, TURNS as usize))
}

/// Gives a handler so many answers, and prints what a turn takes behind them; or, where none are asked for, ten, and prints what comes next.
pub fn run_turns(rt: &HostRuntime, count: Option<u32>) -> Result<(), Fault> {
    let alloc = rt.alloc();
    let answers = count.unwrap_or(10);
    let sleeps = Straight {
        alloc,
        handler: Sleeps,
    };
    let effects = Straight {
        alloc,
        handler: Effects,
    };
    let slept = answers_of_sleeps(alloc, answers / 2)?;
    let executed = answers_of_effects(alloc, answers / 3)?;
    if count.is_none() {
        let made = make_turns(alloc, &sleeps, slept.as_slice(), 1)?;
        println!(rt; "behind {} answers {made} sleep", slept.len())?;
        let made = make_turns(alloc, &effects, executed.as_slice(), 1)?;
        println!(rt; "behind {} answers {made} effect", executed.len())?;
        return Ok(());
    }
    let of_sleeps = time_turns(rt, &sleeps, slept.as_slice())?;
    let of_effects = time_turns(rt, &effects, executed.as_slice())?;
    println!(rt; "answers {answers} sleeps {of_sleeps} effects {of_effects}")?;
    Ok(())
}
