//! `effect VERSION HEX END HEX POLICY ..`: an attempt of this version, to which the first bytes come, of the handler `effect`, whose run
//! ends as `endings` spells it. It makes turns while they are answered, or run a body; then the second bytes come, `-` where none do, and
//! it goes on. Of each turn is told what it came to, or its error by the code, and the frames that it wrote, byte by byte.
use crate::driven::told_of;
use crate::endings::{exit, policy};
use crate::operands::bytes;
use built_in_handlers::handlers::Effect;
use invocation_vm::{Attempt, RunOutcome, Turn, VMOptions, Version};
use std::alloc::Global;
use std::fmt::Write;
use test_rows::{Hex, number};

fn drive(
    alloc: Global,
    attempt: &mut Attempt<Effect>,
    outcome: &RunOutcome,
    told: &mut String,
) -> Option<()> {
    for _ in 0..100 {
        let turn = attempt.turn(outcome.clone().ok()?);
        let goes_on = matches!(&turn, Turn::Answered | Turn::RanBody);
        let turn = told_of(alloc, turn)?;
        let frames = attempt.take_output(usize::MAX).ok()?;
        write!(told, "{turn} {}", Hex(frames.as_slice())).ok()?;
        if !goes_on {
            break;
        }
        write!(told, ", ").ok()?;
    }
    Some(())
}

fn drive_all(
    alloc: Global,
    attempt: &mut Attempt<Effect>,
    outcome: &RunOutcome,
    more: &str,
) -> Option<String> {
    let mut told = String::new(alloc);
    drive(alloc, attempt, outcome, &mut told)?;
    if more != "-" {
        attempt.feed(bytes(alloc, more)?);
        write!(told, "; ").ok()?;
        drive(alloc, attempt, outcome, &mut told)?;
    }
    Some(told)
}

fn outcome(alloc: Global, end: &str, words: &[&str]) -> Option<RunOutcome> {
    let policy = policy(words)?;
    let result = exit(alloc, end)?;
    Some(RunOutcome { result, policy })
}

fn begun(alloc: Global, version: &str, input: &str) -> Option<Attempt<Effect>> {
    let version = Version::spoken(number(version)?)?;
    let input = bytes(alloc, input)?;
    let handler = Effect { alloc };
    let mut attempt = Attempt::new(alloc, version, VMOptions::default(), handler).ok()?;
    attempt.feed(input);
    Some(attempt)
}

pub fn answer(alloc: Global, operands: &[&str]) -> Option<String> {
    let [version, input, end, more, words @ ..] = operands else {
        return None;
    };
    let outcome = outcome(alloc, *end, words)?;
    let mut attempt = begun(alloc, *version, *input)?;
    let told = drive_all(alloc, &mut attempt, &outcome, *more);
    drop(outcome);
    drop(attempt);
    told
}
