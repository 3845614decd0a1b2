// Records as the frames of messages.
ghost use Rattle.std.specs.Prelude.{◌≡◌};
ghost use Rattle.protocol_stream.specs.declared.decoder.RawMessage.{RawMessage};
ghost use Rattle.protocol_types.specs.declared.version.Version.{Version as Versions};
ghost use Rattle.protocol_messages.specs.Encodings.{record_message, plain_message, EncodesTo};

use crate::message::PlainMessage;
use bytes::Bytes;
use protocol_stream::{EncodingError, Feature, MessageHeader, MessageType, Version, begin_frame};
use protocol_wire::{Record, encoded_len};
use std::alloc::Global;

/// What an encoder writes as a message.
pub trait RestateEncodableMessage {
    ghost message_at: { Versions → Self → RawMessage };

    /// The frame in this version: the header, and the one canonical spelling of the payload.
    fn encode(&self, alloc: Global, version: Version) -> Result<Bytes, EncodingError>
        ensures { EncodesTo (message_at version self.now) result };
}

impl<M: PlainMessage> RestateEncodableMessage for M {
    ghost message_at = { λ version one. plain_message M.record_type version (M.parts one) };

    fn encode(&self, alloc: Global, version: Version) -> Result<Bytes, EncodingError> {
        encode_record(alloc, M::ty(), self, version)
    }
}

/// The frame of a record as a message of this type, which a type that can asks to acknowledge from version 7 on.
///
/// For the types that share a record. A record of one type is written by `RestateEncodableMessage`.
#[tactic(auto, unfolding(protocol_stream::specs::Frame::spelled))]
pub fn encode_record<R: Record>(
    alloc: Global,
    ty: MessageType,
    one: &R,
    version: Version,
) -> Result<Bytes, EncodingError>
    ensures { EncodesTo (record_message ty version (R.parts one.now)) result }
{
    let Some(length) = encoded_len(one) else {
        return Err(EncodingError::PayloadTooLong);
    };
    let wants_ack = Feature::Acknowledgement.is_in(version.number());
    let header = MessageHeader::new_with_requested_ack(ty, wants_ack, length);
    let mut out = begin_frame(alloc, &header)?;
    one.spell(alloc, &mut out)?;
    match Bytes::from_vec(out) {
        Ok(frame) => Ok(frame),
        Err(_) => Err(EncodingError::OutOfMemory),
    }
}

/// Writes messages in one version.
#[derive(Clone, Copy, Debug)]
pub struct Encoder {
    version: Version,
}

impl Encoder {
    /// An encoder of this version.
    pub fn new(version: Version) -> Encoder
        ensures { result ≡ record { version = version } }
    {
        Encoder { version }
    }

    /// The frame of a message.
    pub fn encode<M: RestateEncodableMessage>(
        &self,
        alloc: Global,
        message: &M,
    ) -> Result<Bytes, EncodingError>
        ensures { EncodesTo (M.message_at self.now.version message.now) result }
    {
        message.encode(alloc, self.version)
    }
}
