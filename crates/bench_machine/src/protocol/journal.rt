// A journal as one stream of bytes: made, and taken apart.
use crate::fault::Fault;
use crate::protocol::samples::{place_of, sample_frame};
use bytes::Bytes;
use journal_protocol::{Decoder, RawMessage};
use std::alloc::Global;

/// How many bytes of a journal come at a time.
pub const PIECE: usize = 64 * 1024;

/// Puts frames behind those that are there, and lets them go.
pub fn append(out: &mut Vec<u8>, frames: Bytes) -> Result<(), Fault> {
    let put = out.extend_from_slice(frames.as_slice());
    drop(frames);
    Ok(put?)
}

/// Puts a journal of so many frames, with the twenty commands in turn.
pub fn put_journal(alloc: Global, journal: &mut Vec<u8>, count: u32) -> Result<(), Fault> {
    for at in 0..count {
        append(journal, sample_frame(alloc, at)?)?;
    }
    Ok(())
}

// Whether a message is the command at this place, or one of all, where none is named.
fn is_wanted(message: &RawMessage, place: Option<u32>) -> bool {
    match place {
        Some(place) => place_of(message) == place,
        None => true,
    }
}

/// Puts the messages that are whole when this piece came: those that are the command at this place, or all, where none is named.
pub fn put_messages(
    decoder: &mut Decoder,
    piece: &[u8],
    place: Option<u32>,
    messages: &mut Vec<RawMessage>,
) -> Result<(), Fault> {
    decoder.push(piece)?;
    for _ in 0..u64::MAX {
        let Some(message) = decoder.consume_next()? else {
            break;
        };
        if is_wanted(&message, place) {
            messages.push(message)?;
        } else {
            drop(message);
        }
    }
    Ok(())
}

/// Puts the messages of a journal that are the command at this place.
pub fn put_command(
    alloc: Global,
    journal: &[u8],
    place: u32,
    messages: &mut Vec<RawMessage>,
) -> Result<(), Fault> {
    let mut decoder = Decoder::new(alloc);
    for piece in journal.chunks(PIECE) {
        put_messages(&mut decoder, piece, Some(place), messages)?;
    }
    Ok(())
}
