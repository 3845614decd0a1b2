//! A live attempt from its begin to its end.

use bytes::{ByteStr, Bytes};
use protocol_types::Version;
use std::alloc::{AllocError, Global};
use std::test::Fail;
use store_live::{AttemptInput, FrameBuffer, FrameRead, LiveAttempt, LiveAttempts, NextRow};
use store_tables::{InvocationRow, Progress};

/// The frame of an input that is empty.
const INPUT: [u8; 8] = [0x04, 0, 0, 0, 0, 0, 0, 0];

/// The cancellation's frame.
const CANCEL: [u8; 12] = [0xfb, 0xff, 0, 0, 0, 0, 0, 4, 0x10, 1, 0x22, 0];

/// The row of an invocation that has its input alone.
fn first_row() -> InvocationRow {
    InvocationRow {
        id: ByteStr::from_static("i1"),
        object: ByteStr::from_static("o1"),
        version: Version::V7,
        seed: 1,
        is_whole: true,
        progress: first_progress(),
    }
}

fn first_progress() -> Progress {
    Progress {
        open_object: Some(ByteStr::from_static("o1")),
        suspension: None,
        handed: None,
        closing: None,
        answer: None,
        last_error: None,
        attempts: 1,
        attempts_since_entry: 1,
        first_moment: 0,
        last_completion: 0,
        entries: 1,
        heard: None,
        arrivals: 0,
        is_awake: true,
    }
}

/// The first attempt of an invocation that has its input alone.
fn begun(alloc: Global) -> LiveAttempt {
    LiveAttempt {
        number: 1,
        version: Version::V7,
        input: AttemptInput::new(alloc, 1, 0),
        is_input_closed: false,
        output: FrameBuffer::new(alloc),
        row: first_row(),
    }
}

fn begin(alloc: Global, live: &mut LiveAttempts) -> Result<(), AllocError> {
    live.reserve_one()?;
    live.put_begun(ByteStr::from_static("i1"), begun(alloc));
    Ok(())
}

/// It is the only live one.
fn live_alone(alloc: Global) -> Result<LiveAttempts, AllocError> {
    let mut live = LiveAttempts::new(alloc);
    match begin(alloc, &mut live) {
        Ok(()) => Ok(live),
        Err(refused) => {
            drop(live);
            Err(refused)
        }
    }
}

/// Whether these are the next bytes, of which at most so many are asked for.
fn hands_out(live: &mut LiveAttempts, id: &ByteStr, most: usize, wanted: &[u8]) -> bool {
    match live.hand_out(id, most) {
        Ok(bytes) => bytes.as_slice() == wanted,
        Err(_) => false,
    }
}

/// The place behind what was handed out whole.
fn handed(live: &LiveAttempts, id: &ByteStr) -> Option<u32> {
    match live.get(id) {
        Some(attempt) => Some(attempt.input.handed()),
        None => None,
    }
}

/// Takes in the frame of the row that is asked for, where it is this one.
fn reads(live: &mut LiveAttempts, id: &ByteStr, wanted: NextRow, frame: FrameRead) -> bool {
    let is_next = match live.get(id) {
        Some(attempt) => attempt.input.is_read_out() && attempt.input.next_row() == wanted,
        None => false,
    };
    live.put_frame(id, frame);
    is_next
}

/// The frame of the input.
fn input() -> FrameRead {
    FrameRead {
        place: 0,
        is_arrival: false,
        is_acknowledgement: false,
        bytes: Bytes::from_static(&INPUT),
    }
}

/// That of a cancellation, at place 1.
fn cancellation() -> FrameRead {
    FrameRead {
        place: 1,
        is_arrival: true,
        is_acknowledgement: false,
        bytes: Bytes::from_static(&CANCEL),
    }
}

/// How many arrivals were handed out whole.
fn heard(live: &LiveAttempts, id: &ByteStr) -> Option<u32> {
    match live.get(id) {
        Some(attempt) => Some(attempt.input.heard()),
        None => None,
    }
}

/// Whether the input of the invocation's live attempt is closed.
fn is_closed(live: &LiveAttempts, id: &ByteStr) -> bool {
    match live.get(id) {
        Some(attempt) => attempt.is_input_closed,
        None => false,
    }
}

/// How many bytes of the invocation's live attempt wait to be taken.
fn waiting(live: &LiveAttempts, id: &ByteStr) -> usize {
    match live.get(id) {
        Some(attempt) => attempt.output.len(),
        None => 0,
    }
}

/// Whether the input is handed out in parts.
fn comes_in_parts(live: &mut LiveAttempts, id: &ByteStr) -> bool {
    reads(live, id, NextRow::Entry(0), input())
        && hands_out(live, id, 5, &INPUT[..5])
        && handed(live, id) == Some(0)
        && hands_out(live, id, 5, &INPUT[5..])
        && handed(live, id) == Some(1)
}

/// Whether an arrival comes behind the input, by its ordinal.
fn brings_an_arrival(live: &mut LiveAttempts, id: &ByteStr) -> bool {
    reads(live, id, NextRow::Arrival(1), cancellation())
        && hands_out(live, id, 4, &CANCEL[..4])
        && heard(live, id) == Some(0)
        && hands_out(live, id, 100, &CANCEL[4..])
        && handed(live, id) == Some(2)
        && heard(live, id) == Some(1)
}

/// Whether an outcome is acknowledged where it is the first of those that are to be.
fn acknowledges(live: &mut LiveAttempts, id: &ByteStr) -> bool {
    if live.reserve_outcome(id).is_err() {
        return false;
    }
    live.note_outcome(id, 3);
    match live.get(id) {
        Some(attempt) => {
            attempt.input.is_to_acknowledge(3) && !attempt.input.is_to_acknowledge(2)
        }
        None => false,
    }
}

/// Whether output waits.
fn keeps_output(live: &mut LiveAttempts, id: &ByteStr) -> bool {
    live.push_output(id, &INPUT).is_ok() && waiting(live, id) == 8
}

/// Whether it is closed, and then over, when it is told, and not when another is.
fn is_over_when_told(live: &mut LiveAttempts, id: &ByteStr) -> bool {
    let other = ByteStr::from_static("i2");
    live.close_input(&other);
    let stays_open = !is_closed(live, id);
    live.close_input(id);
    let is_closed = is_closed(live, id);
    live.remove(&other);
    let stays = live.get(id).is_some();
    live.remove(id);
    stays_open && is_closed && stays && live.get(id).is_none()
}

#[test]
fn a_live_attempt(rt: HostRuntime) -> Result<(), Fail> {
    let id = ByteStr::from_static("i1");
    let mut live = live_alone(rt.alloc())?;
    assert!(rt; comes_in_parts(&mut live, &id));
    assert!(rt; brings_an_arrival(&mut live, &id));
    assert!(rt; keeps_output(&mut live, &id));
    assert!(rt; is_over_when_told(&mut live, &id));
    drop(live);
    let mut live = live_alone(rt.alloc())?;
    assert!(rt; acknowledges(&mut live, &id));
    drop(live);
    Ok(())
}
