// Messages from a stream that comes in any pieces.
ghost use Rattle.std.specs.Prelude.{◌≡◌, ◌++◌, [], length, OnOk, OnErr, Some};
ghost use Rattle.protocol_stream.specs.Header.{message_type};
ghost use Rattle.protocol_stream.specs.Decoder.{ConsumesNext};

use crate::buffer::FrameBuffer;
use crate::frame::HEADER_LEN;
use crate::{MessageHeader, MessageType, UnknownMessageType};
use bytes::Bytes;
use protocol_wire::Fault;
use std::alloc::{AllocError, Global};
use std::fmt;
use std::marker::Model;

/// A header with its payload, which is not read yet.
#[derive(Debug, Drop)]
pub struct RawMessage {
    pub header: MessageHeader,
    pub payload: Bytes,
}

impl RawMessage {
    /// The type of the message, of which its payload is to be read.
    pub fn ty(&self) -> MessageType
        ensures { result ≡ message_type self.now.header }
    {
        self.header.message_type()
    }

    /// What stood before the payload.
    pub fn header(&self) -> MessageHeader
        ensures { result ≡ self.now.header }
    {
        self.header
    }

    /// The bytes behind the header.
    pub fn payload(&self) -> &Bytes
        ensures { result.now ≡ self.now.payload }
    {
        &self.payload
    }
}

/// What each notification has, and a payload of one may lack.
#[derive(Clone, Copy, Debug, PartialEq, Eq)]
pub enum NotificationField {
    Id,
    Result,
}

impl fmt::Display for NotificationField {
    ghost use Rattle.protocol_stream.specs.FieldText.{field_text};

    ghost output = { λ field. Some (field_text field) };

    fn fmt<W: fmt::Write>(&self, f: &mut fmt::Formatter<W>) -> fmt::Result {
        match self {
            NotificationField::Id => write!(f, "id"),
            NotificationField::Result => write!(f, "result"),
        }
    }
}

/// Why bytes are no message, or not the one that was asked for.
#[derive(Debug, Drop)]
pub enum DecodingError {
    /// P1: the header has a type that is not known. The decoder stands behind the header's eight bytes.
    UnknownMessageType(UnknownMessageType),
    /// P2, or P5 where the fault is the depth alone: the payload of a message of this type is none of its record.
    DecodeMessage {
        ty: MessageType,
        fault: Fault,
    },
    /// P3: a message of another type stands where one was asked for, at the command with this index.
    UnexpectedMessageType {
        expected: MessageType,
        actual: MessageType,
        command_index: i64,
    },
    /// P4: the payload of a notification can be read, and lacks what each notification has.
    MissingField(NotificationField),
    /// P7: memory was refused. Nothing changed.
    OutOfMemory,
}

/// Takes the bytes of a stream in any pieces, and gives its messages.
///
/// Contracts see it as the bytes that came and were not consumed. A payload shares the memory of the bytes that came:
/// it is cut out of them, not copied.
#[derive(Drop)]
pub struct Decoder {
    buffer: FrameBuffer,
}

impl Model for Decoder {
    ghost use Rattle.std.specs.Prelude.{List, ℕ};

    ghost Value = { List ℕ };

    ghost view = { λ decoder. decoder.buffer };
}

impl Decoder {
    /// A decoder to which nothing came yet.
    pub fn new(alloc: Global) -> Decoder
        ensures { result ≡ [] }
    {
        Decoder {
            buffer: FrameBuffer::new(alloc),
        }
    }

    /// How many bytes came and were not consumed.
    pub fn remaining(&self) -> usize
        ensures { result ≡ length self.now }
    {
        self.buffer.len()
    }

    /// Takes the next bytes of the stream.
    pub fn push(&mut self, bytes: &[u8]) -> Result<(), AllocError>
        ensures ok { OnOk result (self.new ≡ self.old ++ bytes.now) }
        ensures err { OnErr result (self.new ≡ self.old) }
    {
        self.buffer.push(bytes)
    }

    /// The next message, or `None` where no whole item remains.
    ///
    /// Where its type is unknown, the eight bytes of its header are consumed and no more: the next item begins right
    /// behind them.
    #[tactic(auto, using(crate::proofs::Fronts::whole_at), unfolding(crate::specs::Item::item_at))]
    pub fn consume_next(&mut self) -> Result<Option<RawMessage>, DecodingError>
        ensures { ConsumesNext self.old result self.new }
    {
        let Some((word, rest)) = self.buffer.as_slice().split_first_chunk::<HEADER_LEN>() else {
            return Ok(None);
        };
        let header = match MessageHeader::try_from(u64::from_be_bytes(*word)) {
            Ok(header) => header,
            Err(unknown) => {
                self.buffer.advance(HEADER_LEN);
                return Err(DecodingError::UnknownMessageType(unknown));
            }
        };
        let length = header.message_length() as usize;
        if rest.len() < length {
            return Ok(None);
        }
        let mut payload = match self.buffer.freeze_to(HEADER_LEN + length) {
            Ok(frame) => frame,
            Err(_) => return Err(DecodingError::OutOfMemory),
        };
        payload.advance(HEADER_LEN);
        Ok(Some(RawMessage { header, payload }))
    }
}
