// Frames: a payload behind the header that has its type and its length.
ghost use Rattle.std.specs.Prelude.{◌≡◌, ◌≤◌, ◌^◌, ◌++◌, ◌↔◌, Err, drop, length, IfOk, OnOk, OnErr};
ghost use Rattle.std.specs.Int.{w64, to_be_bytes};
ghost use Rattle.journal_model.specs.Spelling.{frame_bytes, header_bytes};
ghost use Rattle.protocol_stream.specs.Header.{word_of};
ghost use Rattle.protocol_stream.specs.declared.frame.TheConstants.{HEADER_LEN as the_header_len};

use crate::{EncodingError, MessageHeader, MessageType};
use bytes::{Bytes, BytesMut};
use std::alloc::{AllocError, Global};

/// How many bytes a header has.
pub const HEADER_LEN: usize = 8;

// A header that requests no acknowledgement, as one number. It has the lowest thirty-two bits of the payload's length.
#[tactic(auto, using(crate::proofs::Spellings::header_is))]
fn header_word(number: u16, len: usize) -> u64
    ensures { to_be_bytes w64 result ≡ header_bytes number len }
{
    let ty = u64::from(number) << 48;
    ty + len as u64 % 0x1_0000_0000
}

/// Puts the frame of a payload as a message of this type, which requests no acknowledgement, at the end, and tells how long it
/// is. Of a longer payload the header has the lowest thirty-two bits of the length.
pub fn put_frame(out: &mut BytesMut, ty: MessageType, payload: &[u8]) -> Result<usize, AllocError>
    ensures ok { OnOk result (out.new.items ≡ out.old.items ++ frame_bytes ty payload.now) }
    ensures len { IfOk result (λ len. len ≡ length (frame_bytes ty payload.now)) }
    ensures err { OnErr result (out.new.items ≡ out.old.items) }
{
    let header = header_word(u16::from(ty), payload.len());
    let len = HEADER_LEN + payload.len();
    out.reserve(len)?;
    out.extend_reserved(&header.to_be_bytes());
    out.extend_reserved(payload);
    Ok(len)
}

/// The frame of a payload as a message of this type, which requests no acknowledgement.
pub fn frame_of(alloc: Global, ty: MessageType, payload: &[u8]) -> Result<Bytes, EncodingError>
    ensures ok { IfOk result (λ frame. frame ≡ frame_bytes ty payload.now) }
    ensures too_long { (result ≡ Err EncodingError.PayloadTooLong) ↔ (2 ^ 32 ≤ length payload.now) }
{
    if payload.len() > u32::MAX as usize {
        return Err(EncodingError::PayloadTooLong);
    }
    let mut out = BytesMut::new(alloc);
    put_frame(&mut out, ty, payload)?;
    match out.freeze() {
        Ok(frame) => Ok(frame),
        Err(_) => Err(EncodingError::OutOfMemory),
    }
}

/// A frame's header, with room for the payload that is put behind it.
pub fn begin_frame(alloc: Global, header: &MessageHeader) -> Result<Vec<u8>, AllocError>
    ensures { IfOk result (λ frame. frame.items ≡ to_be_bytes w64 (word_of header.now)) }
{
    let length = header.message_length() as usize;
    let mut frame = Vec::with_capacity(alloc, HEADER_LEN + length)?;
    frame.extend_from_slice(&header.to_bytes())?;
    Ok(frame)
}

/// The payload of a frame, which shares the frame's memory.
pub fn payload_of_frame(frame: &Bytes) -> Result<Bytes, AllocError>
    requires { the_header_len ≤ length frame.now }
    ensures { IfOk result (λ payload. payload ≡ drop the_header_len frame.now) }
{
    frame.slice(HEADER_LEN..)
}
