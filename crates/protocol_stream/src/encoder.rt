// Messages as bytes.
ghost use Rattle.std.specs.Prelude.{◌≡◌, ◌≤◌, ◌^◌, ◌++◌, ◌↔◌, Err, length, OnOk, OnErr};
ghost use Rattle.protocol_stream.specs.Frame.{spelled, message_of};

use crate::frame::HEADER_LEN;
use crate::{MessageHeader, MessageType};
use bytes::BytesMut;
use std::alloc::AllocError;

/// Why a message was not written.
#[derive(Clone, Copy, Debug, PartialEq, Eq)]
pub enum EncodingError {
    /// P6: the length of the payload does not fit the 32 bits that the header has for it.
    PayloadTooLong,
    /// P7: memory was refused.
    OutOfMemory,
}

impl From<AllocError> for EncodingError {
    ghost use Rattle.protocol_stream.specs.declared.encoder.EncodingError.TheVariants.{OutOfMemory};

    ghost from_gives = { λ _ error. error ≡ OutOfMemory };

    fn from(_error: AllocError) -> EncodingError {
        EncodingError::OutOfMemory
    }
}

/// Writes a header of this type and the payload, which request no acknowledgement, at the end: all of it or nothing.
#[tactic(auto, unfolding(crate::specs::Frame::spelled))]
pub fn write_message(
    out: &mut BytesMut,
    ty: MessageType,
    payload: &[u8],
) -> Result<(), EncodingError>
    ensures ok { OnOk result (out.new.items ≡ out.old.items ++ spelled (message_of ty payload.now)) }
    ensures err { OnErr result (out.new.items ≡ out.old.items) }
    ensures too_long { (result ≡ Err EncodingError.PayloadTooLong) ↔ (2 ^ 32 ≤ length payload.now) }
{
    let Ok(length) = u32::try_from(payload.len()) else {
        return Err(EncodingError::PayloadTooLong);
    };
    let header = MessageHeader::new(ty, length);
    out.reserve(HEADER_LEN + payload.len())?;
    out.extend_reserved(&header.to_bytes());
    out.extend_reserved(payload);
    Ok(())
}
