// What errors of bytes print.
ghost use Rattle.std.specs.Prelude.{◌≡◌, ◌/◌, ◌%◌, Some};
ghost use Rattle.std.specs.Fmt.{WritesOnOk};
ghost use Rattle.protocol_stream.specs.ErrorText.{unknown_type_text, payload_fault_text, unread_payload_text, asked_text, there_text, missing_field_text, decoding_text, encoding_text};

use crate::{DecodingError, EncodingError, MessageType, NotificationField, UnknownMessageType};
use protocol_types::HexByte;
use protocol_wire::Fault;
use std::fmt;

// The first byte of a number, and the second.
fn bytes_of(number: u16) -> (HexByte, HexByte)
    ensures first { result.0.0 ≡ number / 256 }
    ensures second { result.1.0 ≡ number % 256 }
{
    (HexByte((number / 256) as u8), HexByte((number % 256) as u8))
}

// Writes the number of a header that means no type, as its own `Display` writes it, of which no contract tells the text.
#[tactic(auto, unfolding(crate::specs::ErrorText::unknown_type_text))]
fn write_unknown_type<W: fmt::Write>(number: u16, f: &mut fmt::Formatter<W>) -> fmt::Result
    ensures { WritesOnOk W.write_str_gives f.old result (unknown_type_text number) f.new }
{
    let (first, second) = bytes_of(number);
    write!(f, "unknown message type 0x{first}{second}")
}

// What is wrong with a payload.
fn fault_text(fault: Fault) -> &'static str
    ensures { result.now ≡ payload_fault_text fault }
{
    match fault {
        Fault::BadPayload => "its bytes are no fields of that message",
        Fault::TooDeep => "it is nested more than a hundred levels deep",
    }
}

// Writes that a payload cannot be read.
#[tactic(auto, unfolding(crate::specs::ErrorText::unread_payload_text))]
fn write_unread_payload<W: fmt::Write>(
    ty: MessageType,
    fault: &str,
    f: &mut fmt::Formatter<W>,
) -> fmt::Result
    ensures { WritesOnOk W.write_str_gives f.old result (unread_payload_text ty fault.now) f.new }
{
    write!(f, "the payload of {ty} cannot be read: {fault}")
}

// Writes which message was asked for.
#[tactic(auto, unfolding(crate::specs::ErrorText::asked_text))]
fn write_asked<W: fmt::Write>(
    expected: MessageType,
    command_index: i64,
    f: &mut fmt::Formatter<W>,
) -> fmt::Result
    ensures { WritesOnOk W.write_str_gives f.old result (asked_text expected command_index) f.new }
{
    write!(f, "{expected} was asked for at command {command_index}")
}

// Writes which one is there.
#[tactic(auto, unfolding(crate::specs::ErrorText::there_text))]
fn write_there<W: fmt::Write>(actual: MessageType, f: &mut fmt::Formatter<W>) -> fmt::Result
    ensures { WritesOnOk W.write_str_gives f.old result (there_text actual) f.new }
{
    write!(f, ", and {actual} is there")
}

// Writes what a notification lacks.
#[tactic(auto, unfolding(crate::specs::ErrorText::missing_field_text))]
fn write_missing_field<W: fmt::Write>(
    field: NotificationField,
    f: &mut fmt::Formatter<W>,
) -> fmt::Result
    ensures { WritesOnOk W.write_str_gives f.old result (missing_field_text field) f.new }
{
    write!(f, "a notification without {field}")
}

/// Prints why bytes are no message, or not the one that was asked for.
impl fmt::Display for DecodingError {
    ghost output = { λ error. Some (decoding_text error) };

    fn fmt<W: fmt::Write>(&self, f: &mut fmt::Formatter<W>) -> fmt::Result {
        match self {
            DecodingError::UnknownMessageType(unknown) => write_unknown_type(unknown.0, f),
            DecodingError::DecodeMessage { ty, fault } => {
                write_unread_payload(*ty, fault_text(*fault), f)
            }
            DecodingError::UnexpectedMessageType {
                expected,
                actual,
                command_index,
            } => {
                write_asked(*expected, *command_index, f)?;
                write_there(*actual, f)
            }
            DecodingError::MissingField(field) => write_missing_field(*field, f),
            DecodingError::OutOfMemory => f.write_str("out of memory"),
        }
    }
}

impl std::error::Error for DecodingError {}

impl From<UnknownMessageType> for DecodingError {
    ghost use Rattle.protocol_stream.specs.declared.decoder.DecodingError.TheVariants as decoding;

    ghost from_gives = { λ unknown error. error ≡ decoding.UnknownMessageType unknown };

    fn from(unknown: UnknownMessageType) -> DecodingError {
        DecodingError::UnknownMessageType(unknown)
    }
}

impl EncodingError {
    // The text of the error.
    fn message(self) -> &'static str
        ensures { result.now ≡ encoding_text self }
    {
        match self {
            EncodingError::PayloadTooLong => "a payload of more than 4294967295 bytes",
            EncodingError::OutOfMemory => "out of memory",
        }
    }
}

/// Prints why a message was not written.
impl fmt::Display for EncodingError {
    ghost output = { λ error. Some (encoding_text error) };

    fn fmt<W: fmt::Write>(&self, f: &mut fmt::Formatter<W>) -> fmt::Result {
        f.write_str(self.message())
    }
}

impl std::error::Error for EncodingError {}
