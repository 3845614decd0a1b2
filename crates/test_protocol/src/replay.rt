//! Rows of recorded commands.
//!
//! - `sleep PLACE FRAME PAYLOAD`: a sleep that is made at this place, where this frame is recorded: the canonical payload of the
//!   recorded one, or the code and the text of the error.
use crate::messages::first_message;
use crate::operands::{Hex, record};
use crate::typed_errors::error;
use journal_protocol::messages::SleepCommandMessage;
use journal_protocol::{RawMessage, RestateMessage};
use std::alloc::Global;
use std::collections::VecDeque;
use vm_commands::pop_journal_entry;

/// The commands that are left: this frame, if there is one.
fn recorded(alloc: Global, frame: &str) -> Option<VecDeque<RawMessage>> {
    let mut commands = VecDeque::new(alloc);
    if let Some(message) = first_message(alloc, frame) {
        commands.push_back(message).ok()?;
    }
    Some(commands)
}

fn payload_told(alloc: Global, sleep: &SleepCommandMessage) -> Option<String> {
    let payload = sleep.encode_to_vec(alloc).ok()?;
    let payload = Hex(payload.as_slice());
    format!(in alloc; "{payload}").ok()
}

fn sleep(alloc: Global, place: &str, frame: &str, payload: &str) -> Option<String> {
    let place: i64 = place.parse().ok()?;
    let mut commands = recorded(alloc, frame)?;
    let made = record(alloc, payload)?;
    let taken = pop_journal_entry(alloc, &mut commands, place, made, false);
    drop(commands);
    match taken {
        Ok(sleep) => {
            let told = payload_told(alloc, &sleep);
            drop(sleep);
            told
        }
        Err(refused) => error(alloc, refused),
    }
}

pub fn answer(alloc: Global, operation: &str, operands: &[&str]) -> Option<String> {
    match (operation, operands) {
        ("sleep", [place, frame, payload]) => sleep(alloc, place, frame, payload),
        _ => None,
    }
}
