// The eight bytes before each payload.
ghost use Rattle.std.specs.Prelude.{◌≡◌, ◌<◌, ◌^◌, false};
ghost use Rattle.std.specs.Int.{to_be_bytes, w64};
ghost use Rattle.protocol_stream.specs.Header.{message_type, message_length, requested_ack, header_of, header_in, word_of};

use crate::{MessageType, UnknownMessageType};

// Where the type, the flag and the length stand in the number that a header is.
const TYPE_SHIFT: u32 = 48;

const REQUESTED_ACK_SHIFT: u32 = 47;

const LENGTH_MASK: u64 = 0xFFFF_FFFF;

/// What stands before a payload: its type, its length in bytes, and for a `ProposeRunCompletion` whether an
/// acknowledgement is requested.
///
/// As a `u64` it is the big-endian number of the header's eight bytes: the type in bits 48 to 63, flags in bits 32
/// to 47, of which the highest requests an acknowledgement, and the length in bits 0 to 31. Other flags are written
/// zero and ignored when read.
#[derive(Clone, Copy, Debug, PartialEq, Eq)]
pub struct MessageHeader {
    ty: MessageType,
    length: u32,
    requested_ack: Option<bool>,
}

impl MessageHeader {
    /// A header that requests no acknowledgement.
    pub fn new(ty: MessageType, length: u32) -> MessageHeader
        ensures { result ≡ header_of ty false length }
    {
        MessageHeader::new_with_requested_ack(ty, false, length)
    }

    /// A header that requests an acknowledgement, or does not, where its type has a flag for that.
    pub fn new_with_requested_ack(
        ty: MessageType,
        requested_ack: bool,
        length: u32,
    ) -> MessageHeader
        ensures { result ≡ header_of ty requested_ack length }
    {
        MessageHeader {
            ty,
            length,
            requested_ack: if ty.allows_ack() {
                Some(requested_ack)
            } else {
                None
            },
        }
    }

    /// The type of the message.
    pub fn message_type(&self) -> MessageType
        ensures { result ≡ message_type self.now }
    {
        self.ty
    }

    /// The length of the payload, in bytes.
    pub fn message_length(&self) -> u32
        ensures { result ≡ message_length self.now }
    {
        self.length
    }

    /// Whether an acknowledgement is requested, or `None` for a type that has no flag for that.
    pub fn requested_ack(&self) -> Option<bool>
        ensures { result ≡ requested_ack self.now }
    {
        self.requested_ack
    }

    /// The eight bytes that stand before the payload.
    pub fn to_bytes(&self) -> [u8; 8]
        ensures { result ≡ to_be_bytes w64 (word_of self.now) }
    {
        u64::from(*self).to_be_bytes()
    }
}

impl From<MessageHeader> for u64 {
    ghost from_gives = { λ header word. word ≡ word_of header };

    fn from(header: MessageHeader) -> u64 {
        let ty = u64::from(u16::from(header.ty)) << TYPE_SHIFT;
        let flags = match header.requested_ack {
            Some(true) => 1 << REQUESTED_ACK_SHIFT,
            _ => 0,
        };
        ty + flags + u64::from(header.length)
    }
}

impl TryFrom<u64> for MessageHeader {
    type Error = UnknownMessageType;

    ghost try_from_gives = { λ word read. read ≡ header_in word };

    fn try_from(word: u64) -> Result<MessageHeader, UnknownMessageType> {
        let ty = MessageType::try_from((word >> TYPE_SHIFT) as u16)?;
        let requested_ack = word >> REQUESTED_ACK_SHIFT & 1 == 1;
        let length = (word & LENGTH_MASK) as u32;
        Ok(MessageHeader::new_with_requested_ack(ty, requested_ack, length))
    }
}
