//! Rows of frames of attempts: `frame VERSION NUMBER PAYLOAD` tells which frame a message of the type of this number is, from an
//! attempt of this version, and what is kept of it. Of a command: its type's number, its payload, the completions that it asks
//! for, and its moment.
use crate::operands::{Hex, bytes, message_type, version};
use bytes::Bytes;
use journal_protocol::{MessageHeader, MessageType, RawMessage};
use std::alloc::Global;
use store_frames::{AttemptFrame, RecordedCommand, read_frame};

fn message(alloc: Global, ty: MessageType, payload: &[u8]) -> Option<RawMessage> {
    let length = u32::try_from(payload.len()).ok()?;
    Some(RawMessage {
        header: MessageHeader::new(ty, length),
        payload: Bytes::copy_from_slice(alloc, payload).ok()?,
    })
}

fn command_told(alloc: Global, command: &RecordedCommand) -> Option<String> {
    let (kind, moment) = (u16::from(command.kind), command.moment);
    let payload = Hex(command.payload.as_slice());
    let (first, second) = (command.completion, command.second_completion);
    format!(in alloc; "command {kind:04x} {payload} {first:?} {second:?} {moment}").ok()
}

/// A word for a frame of which nothing is kept.
fn word(frame: &AttemptFrame) -> &'static str {
    match frame {
        AttemptFrame::AwaitingOn => "awaiting on",
        AttemptFrame::End => "end",
        AttemptFrame::Broken => "broken",
        AttemptFrame::TooDeep => "too deep",
        AttemptFrame::NotAccepted => "not accepted",
        _ => "another",
    }
}

fn frame_told(alloc: Global, frame: &AttemptFrame) -> Option<String> {
    match frame {
        AttemptFrame::Command(command) => command_told(alloc, command),
        AttemptFrame::Suspension { payload } => {
            let payload = Hex(payload.as_slice());
            format!(in alloc; "suspension {payload}").ok()
        }
        AttemptFrame::Error {
            code,
            message,
            behavior,
            delay,
        } => format!(in alloc; "error {code} {message:?} {behavior:?} {delay:?}").ok(),
        other => format!(in alloc; "{}", word(other)).ok(),
    }
}

fn frame(alloc: Global, of: &str, ty: &str, payload: &str) -> Option<String> {
    let (version, ty) = (version(of)?, message_type(ty)?);
    let payload = bytes(alloc, payload)?;
    let message = message(alloc, ty, payload.as_slice())?;
    let frame = read_frame(alloc, version, &message).ok()?;
    let told = frame_told(alloc, &frame);
    drop(frame);
    told
}

pub fn answer(alloc: Global, operation: &str, operands: &[&str]) -> Option<String> {
    match (operation, operands) {
        ("frame", [version, ty, payload]) => frame(alloc, version, ty, payload),
        _ => None,
    }
}
