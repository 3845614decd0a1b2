// Records that are the whole payload of a message.
ghost use Rattle.std.specs.Prelude.{◌≡◌, ◌++◌, Some, IfOk, length};
ghost use Rattle.protocol_wire.specs.DecodingAnswers.{Decodes};
ghost use Rattle.protocol_wire.specs.Lengths.{fitting};
ghost use Rattle.protocol_wire.specs.Parts.{payload_of};
ghost use Rattle.protocol_messages.specs.RecordMessage.{type_of_record};

use protocol_stream::MessageType;
use protocol_wire::{DecodeError, Record, decode, encode, encoded_len, merge};
use std::alloc::{AllocError, Global};

/// A record that is the whole payload of messages of one type.
///
/// A part of other records, as a value, is none, and neither is the record of the notifications, whose types share it.
pub trait RestateMessage: Record {
    /// The type of these messages.
    fn ty() -> MessageType
        ensures { type_of_record Self.record_type ≡ Some result };

    /// The message that a payload is.
    fn decode(alloc: Global, payload: &[u8]) -> Result<Self, DecodeError>
        // Accepted are the payloads with which nothing is wrong, to their meaning.
        ensures { Decodes Self.record_type Self.of payload.now result }
    {
        decode(alloc, payload)
    }

    /// The message that a payload is behind this one's canonical payload. `protocol_wire::merge` keeps the message where the
    /// payload is refused.
    fn merge(self, alloc: Global, payload: &[u8]) -> Result<Self, DecodeError>
        ensures { Decodes Self.record_type Self.of (payload_of (Self.parts self) ++ payload.now) result }
    {
        let mut merged = self;
        merge(alloc, &mut merged, payload)?;
        Ok(merged)
    }

    /// The length of the canonical payload, where it fits 32 bits. It takes no memory.
    fn encoded_len(&self) -> Option<u32>
        ensures { result ≡ fitting (length (payload_of (Self.parts self.now))) }
    {
        encoded_len(self)
    }

    /// The canonical payload: each field in ascending order of numbers, defaults of plain fields left out, numbers packed.
    fn encode_to_vec(&self, alloc: Global) -> Result<Vec<u8>, AllocError>
        ensures { IfOk result (λ v. v.items ≡ payload_of (Self.parts self.now)) }
    {
        encode(alloc, self)
    }
}

/// A message that every version of the protocol writes by its own record.
pub trait PlainMessage: RestateMessage {}
