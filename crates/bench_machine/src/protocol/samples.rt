// A frame of each command.
use crate::fault::Fault;
use bytes::Bytes;
use journal_protocol::{MessageType, RawMessage, frame_of};
use std::alloc::Global;

/// How many commands there are.
pub const COMMANDS: u32 = 20;

/// The first command's type. The numbers of the others follow its without a gap.
const FIRST_COMMAND: MessageType = MessageType::InputCommand;

/// Which of the twenty commands a message is. A message that is none has a place past them.
pub fn place_of(message: &RawMessage) -> u32 {
    u16::from(message.ty()).wrapping_sub(u16::from(FIRST_COMMAND)) as u32
}

// The payload of the command at this place.
fn payload_of(place: u32) -> &'static [u8] {
    match place {
        0 =>
            b"\x0a \x0a\x0ccontent-type\x12\x10application/json\x0a \x0a\x0ccontent-type\x12\x10application/jsonr!\x0a\x1f{\"name\": \"somebody\", \"age\": 77}",
        1 => b"b\x0bthe commandr!\x0a\x1f{\"name\": \"somebody\", \"age\": 77}",
        2 => b"\x0a\x05countX\x08b\x0bthe command",
        3 => b"\x0a\x05count\x1a!\x0a\x1f{\"name\": \"somebody\", \"age\": 77}b\x0bthe command",
        4 => b"\x0a\x05countb\x0bthe command",
        5 => b"b\x0bthe command",
        6 => b"X\x09b\x0bthe command",
        7 => b"\x0a\x05countb\x0bthe commandr!\x0a\x1f{\"name\": \"somebody\", \"age\": 77}",
        8 => b"b\x0bthe commandr\x12\x0a\x05count\x0a\x04name\x0a\x03age",
        9 => b"\x0a\x04doneX\x0ab\x0bthe command",
        10 => b"\x0a\x04doneX\x0bb\x0bthe command",
        11 =>
            b"\x0a\x04done\x1a#\x08\x99\x03\x12\x09cancelled\x1a\x13\x0a\x06reason\x12\x09asked forX\x0cb\x0bthe command",
        12 => b"\x08\x80\xd0\x95\xff\xbc1X\x07b\x0bthe command",
        13 =>
            b"\x0a\x07greeter\x12\x05greet\x1a\x1f{\"name\": \"somebody\", \"age\": 77}\" \x0a\x0ccontent-type\x12\x10application/json\" \x0a\x0ccontent-type\x12\x10application/json\" \x0a\x0ccontent-type\x12\x10application/json*\x08somebody2\x100123456789abcdefP\x11X\x12b\x0bthe command",
        14 =>
            b"\x0a\x07greeter\x12\x05greet\x1a\x1f{\"name\": \"somebody\", \"age\": 77}\" \x0a\x0ccontent-type\x12\x10application/json\" \x0a\x0ccontent-type\x12\x10application/json\" \x0a\x0ccontent-type\x12\x10application/json*\x08somebody2\x100123456789abcdefH\x80\xd0\x95\xff\xbc1P\x11b\x0bthe command",
        15 => b"\x0a\x15inv_1abcdefghijklmnop\x10\x01\"\x00b\x0bthe command",
        16 => b"X\x0db\x0bthe command",
        17 => b"\x12\x16\x0a\x08workflow\x12\x03key\x1a\x05scopeX\x0eb\x0bthe command",
        18 =>
            b"\x1a,\x0a\x07greeter\x12\x08somebody\x1a\x05greet\"\x100123456789abcdefX\x0fb\x0bthe command",
        19 =>
            b"\x0a\x11sign_1aW52MQAAABE\x12!\x0a\x1f{\"name\": \"somebody\", \"age\": 77}b\x0bthe command",
        _ => b"",
    }
}

/// The frame of a command, the twenty in turn.
pub fn sample_frame(alloc: Global, at: u32) -> Result<Bytes, Fault> {
    let place = at % COMMANDS;
    match MessageType::try_from(u16::from(FIRST_COMMAND) + place as u16) {
        Ok(ty) => Ok(frame_of(alloc, ty, payload_of(place))?),
        Err(_unknown) => Err(Fault::Message),
    }
}
