// What a whole journal takes, in its order.
use crate::fault::Fault;
use crate::protocol::commands::pass_command;
use crate::protocol::journal::{PIECE, put_messages};
use crate::timing::Stopwatch;
use journal_protocol::{Decoder, RawMessage};
use std::rt::HostRuntime;
use std::time::Duration;

/// About how many messages a piece has.
const MESSAGES: usize = 1024;

/// How many messages a journal has, and the processor time that they took.
#[derive(Clone, Copy)]
pub struct Whole {
    pub count: usize,
    /// Of taking messages out of the bytes, and of letting them go.
    pub framing: Duration,
    /// Of making their records, and of letting those go.
    pub reading: Duration,
    /// Of the same and of writing each record behind those before it.
    pub rewriting: Duration,
}

// How long it takes to read messages, and to write them where that is asked for.
fn time_pass(
    rt: &HostRuntime,
    watch: &mut Stopwatch,
    messages: &[RawMessage],
    is_written: bool,
    out: &mut Vec<u8>,
) -> Result<Duration, Fault> {
    for message in messages {
        pass_command(rt.alloc(), message, is_written, out)?;
    }
    watch.lap(rt)
}

// Adds what is done with the messages of a piece, which were taken out of it by now.
fn time_messages(
    rt: &HostRuntime,
    watch: &mut Stopwatch,
    messages: &[RawMessage],
    whole: &mut Whole,
    written: &mut Vec<u8>,
) -> Result<(), Fault> {
    whole.framing = whole.framing.saturating_add(watch.lap(rt)?);
    let reading = time_pass(rt, watch, messages, false, written)?;
    whole.reading = whole.reading.saturating_add(reading);
    let rewriting = time_pass(rt, watch, messages, true, written)?;
    whole.rewriting = whole.rewriting.saturating_add(rewriting);
    whole.count = whole.count.wrapping_add(messages.len());
    Ok(())
}

// Adds a piece.
fn time_piece(
    rt: &HostRuntime,
    decoder: &mut Decoder,
    piece: &[u8],
    whole: &mut Whole,
    written: &mut Vec<u8>,
) -> Result<(), Fault> {
    let mut watch = Stopwatch::start(rt)?;
    let mut messages = Vec::with_capacity(rt.alloc(), MESSAGES)?;
    let put = put_messages(decoder, piece, None, &mut messages);
    let timed = time_messages(rt, &mut watch, messages.as_slice(), whole, written);
    drop(messages);
    whole.framing = whole.framing.saturating_add(watch.lap(rt)?);
    put?;
    timed
}

/// Takes each piece of a journal apart, reads its messages, and then reads and writes them.
pub fn time_whole(rt: &HostRuntime, journal: &[u8], written: &mut Vec<u8>) -> Result<Whole, Fault> {
    let mut whole = Whole {
        count: 0,
        framing: Duration::ZERO,
        reading: Duration::ZERO,
        rewriting: Duration::ZERO,
    };
    let mut decoder = Decoder::new(rt.alloc());
    for piece in journal.chunks(PIECE) {
        time_piece(rt, &mut decoder, piece, &mut whole, written)?;
    }
    Ok(whole)
}
