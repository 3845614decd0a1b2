//! `steps HEX STEP ..`: an attempt of version 7, to which these bytes come, of a handler that makes these calls. It makes turns while they
//! are answered; of each is told what it came to, or its error by the code, and the types of the frames that it wrote, with the payloads
//! of outputs and suspensions. `closed` before the bytes closes its input, and `overwrite` before them has signals overwrite one another.
use crate::answers::{debug, failed};
use crate::feeding::options;
use crate::operands::bytes;
use bytes::Bytes;
use invocation_vm::{Attempt, RunOutcome, Sequence, Turn, Version};
use protocol_stream::{Decoder, RawMessage};
use protocol_types::MessageType;
use std::alloc::Global;
use std::fmt::Write;
use test_steps::{Steps, step_named};

// Whether a frame's payload is told.
fn is_whole(frame: &RawMessage) -> bool {
    matches!(
        frame.ty(),
        MessageType::Suspension | MessageType::OutputCommand
    )
}

fn payload(alloc: Global, frame: &RawMessage) -> Option<String> {
    let mut told = String::new(alloc);
    for byte in frame.payload().as_slice() {
        write!(told, "{byte:02x}").ok()?;
    }
    Some(told)
}

fn types(alloc: Global, frames: &[u8]) -> Option<String> {
    let mut told = String::new(alloc);
    let mut decoder = Decoder::new(alloc);
    decoder.push(frames).ok()?;
    for _ in 0..u64::MAX {
        let Some(frame) = decoder.consume_next().ok()? else {
            break;
        };
        let number = u16::from(frame.ty());
        write!(told, " {number:04x}").ok()?;
        if is_whole(&frame) {
            let payload = payload(alloc, &frame)?;
            write!(told, " {payload}").ok()?;
        }
    }
    Some(told)
}

/// What a turn came to, or its error by the code.
pub fn told_of(alloc: Global, turn: Turn) -> Option<String> {
    match turn {
        Turn::Failed(error) => failed(alloc, error),
        turn => debug(alloc, turn),
    }
}

fn drive(alloc: Global, attempt: &mut Attempt<Steps>) -> Option<String> {
    let mut told = String::new(alloc);
    for _ in 0..100 {
        let turn = attempt.turn(RunOutcome::done(Bytes::new()));
        let goes_on = matches!(&turn, Turn::Answered | Turn::RanBody);
        let turn = told_of(alloc, turn)?;
        let frames = attempt.take_output(usize::MAX).ok()?;
        let written = types(alloc, frames.as_slice())?;
        write!(told, "{turn}{written}").ok()?;
        if !goes_on {
            break;
        }
        write!(told, ", ").ok()?;
    }
    Some(told)
}

fn handler(alloc: Global, names: &[&str]) -> Option<Steps> {
    let mut steps = Vec::new(alloc);
    for name in names {
        steps.push(step_named(*name)?).ok()?;
    }
    Some(Steps {
        alloc,
        steps: Sequence::from_vec(steps),
    })
}

fn answered(
    alloc: Global,
    words: &[&str],
    is_closed: bool,
    input: &str,
    names: &[&str],
) -> Option<String> {
    let input = bytes(alloc, input)?;
    let handler = handler(alloc, names)?;
    let mut attempt = Attempt::new(alloc, Version::V7, options(words), handler).ok()?;
    attempt.feed(input);
    if is_closed {
        attempt.close_input();
    }
    let told = drive(alloc, &mut attempt);
    drop(attempt);
    told
}

pub fn answer(alloc: Global, operands: &[&str]) -> Option<String> {
    match operands {
        ["overwrite", "closed", input, names @ ..] => {
            answered(alloc, &["overwrite"], true, *input, names)
        }
        ["closed", input, names @ ..] => answered(alloc, &[], true, *input, names),
        [input, names @ ..] => answered(alloc, &[], false, *input, names),
        [] => None,
    }
}
