//! Rows of the stream: headers, types of messages, frames.
//!
//! - `word WORD`: the type, the length and the flag of a header, or why there is none.
//! - `header TYPE LENGTH FLAG`: the word of a header, whose flag says whether an acknowledgement is requested.
//! - `type NUMBER`: the type of this number, whether it is a command, a notification, and one that allows the flag.
//! - `write TYPE PAYLOAD`: the frame of a message.
//! - `too_long`: why a payload is not written whose length the header does not hold.
//! - `pieces BYTES ..`: what stands at the front of the stream when each piece came, and how many bytes are left.
use crate::operands::{Hex, bytes, flag, message_type, number, shown};
use bytes::BytesMut;
use journal_protocol::{
    Decoder, DecodingError, EncodingError, MessageHeader, MessageType, RawMessage, write_message,
};
use std::alloc::Global;
use std::fmt::Write;

/// How many items of one piece are looked at, at most.
const MOST: u32 = 64;

fn word(alloc: Global, operands: &[&str]) -> Option<String> {
    let [word] = operands else {
        return None;
    };
    let word = u64::from_str_radix(*word, 16).ok()?;
    match MessageHeader::try_from(word) {
        Ok(header) => {
            let (ty, length) = (header.message_type(), header.message_length());
            let flag = flag(header.requested_ack());
            format!(in alloc; "{ty} {length} {flag}").ok()
        }
        Err(unknown) => shown(alloc, unknown),
    }
}

/// The flag is told, or is left to the type.
fn header(alloc: Global, operands: &[&str]) -> Option<String> {
    let [ty, length, flag] = operands else {
        return None;
    };
    let (ty, length) = (message_type(*ty)?, number(*length)?);
    let header = match *flag {
        "-" => MessageHeader::new(ty, length),
        _ => MessageHeader::new_with_requested_ack(ty, flag.parse().ok()?, length),
    };
    let word = u64::from(header);
    format!(in alloc; "{word:016x}").ok()
}

fn type_numbered(alloc: Global, operands: &[&str]) -> Option<String> {
    let [number] = operands else {
        return None;
    };
    let number = u16::from_str_radix(*number, 16).ok()?;
    match MessageType::try_from(number) {
        Ok(ty) => {
            let (back, is_command) = (u16::from(ty), ty.is_command());
            let (is_notification, allows_ack) = (ty.is_notification(), ty.allows_ack());
            format!(in alloc; "{ty} {back:04x} {is_command} {is_notification} {allows_ack}").ok()
        }
        Err(unknown) => shown(alloc, unknown),
    }
}

fn written(alloc: Global, operands: &[&str]) -> Option<String> {
    let [ty, payload] = operands else {
        return None;
    };
    let ty = message_type(*ty)?;
    let payload = bytes(alloc, *payload)?;
    let mut out = BytesMut::new(alloc);
    write_message(&mut out, ty, payload.as_slice()).ok()?;
    let frame = Hex(out.as_slice());
    format!(in alloc; "{frame}").ok()
}

fn put_message(message: &RawMessage, told: &mut String) -> Option<()> {
    let (ty, length) = (message.ty(), message.header().message_length());
    let payload = Hex(message.payload().as_slice());
    write!(told, "{ty} {length} {payload}, ").ok()
}

fn put_item(item: Result<Option<RawMessage>, DecodingError>, told: &mut String) -> Option<bool> {
    match item {
        Ok(None) => Some(false),
        Ok(Some(message)) => {
            let put = put_message(&message, told);
            drop(message);
            put?;
            Some(true)
        }
        Err(error) => {
            write!(told, "{error}, ").ok()?;
            Some(true)
        }
    }
}

/// Takes a piece in, and tells what stands at the front until nothing whole does.
fn take_piece(alloc: Global, decoder: &mut Decoder, piece: &str, told: &mut String) -> Option<()> {
    let piece = bytes(alloc, piece)?;
    decoder.push(piece.as_slice()).ok()?;
    for _ in 0..MOST {
        if !put_item(decoder.consume_next(), told)? {
            break;
        }
    }
    let left = decoder.remaining();
    write!(told, "{left} left").ok()
}

fn pieces(alloc: Global, pieces: &[&str]) -> Option<String> {
    let mut decoder = Decoder::new(alloc);
    let mut told = String::new(alloc);
    for piece in pieces {
        if !told.is_empty() {
            told.push_str("; ").ok()?;
        }
        take_piece(alloc, &mut decoder, *piece, &mut told)?;
    }
    Some(told)
}

pub fn answer(alloc: Global, operation: &str, operands: &[&str]) -> Option<String> {
    match operation {
        "word" => word(alloc, operands),
        "header" => header(alloc, operands),
        "type" => type_numbered(alloc, operands),
        "write" => written(alloc, operands),
        "too_long" => shown(alloc, EncodingError::PayloadTooLong),
        "pieces" => pieces(alloc, operands),
        _ => None,
    }
}
