// Which record each command is. Its place is that among the twenty, in the order of their types.
use crate::fault::Fault;
use crate::protocol::journal::append;
use crate::protocol::records::{Took, time_records};
use crate::protocol::samples::place_of;
use bytes::Bytes;
use journal_protocol::{
    Encoder, PlainMessage, RawMessage, RawMessageExt, RestateMessage, Version, messages,
};
use std::alloc::Global;
use std::rt::HostRuntime;

// Calls a function at the record of the command at a place.
macro_rules! at_place {
    ($place:expr, $then:ident ($($argument:expr),*)) => {
        match $place {
            0 => $then::<messages::InputCommandMessage>($($argument),*),
            1 => $then::<messages::OutputCommandMessage>($($argument),*),
            2 => $then::<messages::GetLazyStateCommandMessage>($($argument),*),
            3 => $then::<messages::SetStateCommandMessage>($($argument),*),
            4 => $then::<messages::ClearStateCommandMessage>($($argument),*),
            5 => $then::<messages::ClearAllStateCommandMessage>($($argument),*),
            6 => $then::<messages::GetLazyStateKeysCommandMessage>($($argument),*),
            7 => $then::<messages::GetEagerStateCommandMessage>($($argument),*),
            8 => $then::<messages::GetEagerStateKeysCommandMessage>($($argument),*),
            9 => $then::<messages::GetPromiseCommandMessage>($($argument),*),
            10 => $then::<messages::PeekPromiseCommandMessage>($($argument),*),
            11 => $then::<messages::CompletePromiseCommandMessage>($($argument),*),
            12 => $then::<messages::SleepCommandMessage>($($argument),*),
            13 => $then::<messages::CallCommandMessage>($($argument),*),
            14 => $then::<messages::OneWayCallCommandMessage>($($argument),*),
            15 => $then::<messages::SendSignalCommandMessage>($($argument),*),
            16 => $then::<messages::RunCommandMessage>($($argument),*),
            17 => $then::<messages::AttachInvocationCommandMessage>($($argument),*),
            18 => $then::<messages::GetInvocationOutputCommandMessage>($($argument),*),
            19 => $then::<messages::CompleteAwakeableCommandMessage>($($argument),*),
            // A message that is no command.
            _ => Err(Fault::Message),
        }
    };
}

/// The record of this type that a message is.
pub fn read<M: RestateMessage>(alloc: Global, message: &RawMessage) -> Result<M, Fault> {
    Ok(message.decode_to(alloc, 0)?)
}

/// The frame that a record is written as.
pub fn write<M: PlainMessage>(alloc: Global, record: &M) -> Result<Bytes, Fault> {
    Ok(Encoder::new(Version::V8).encode(alloc, record)?)
}

/// Reads a message as this record, and lets it go.
pub fn read_as<M: RestateMessage>(alloc: Global, message: &RawMessage) -> Result<(), Fault> {
    drop(read::<M>(alloc, message)?);
    Ok(())
}

fn put_record<M: PlainMessage>(alloc: Global, record: &M, out: &mut Vec<u8>) -> Result<(), Fault> {
    append(out, write(alloc, record)?)
}

/// Reads a message as this record, and lets it go; before that, where it is to be written, puts its frame.
fn pass_as<M: PlainMessage>(
    alloc: Global,
    message: &RawMessage,
    is_written: bool,
    out: &mut Vec<u8>,
) -> Result<(), Fault> {
    let record: M = read(alloc, message)?;
    let written = if is_written {
        put_record(alloc, &record, out)
    } else {
        Ok(())
    };
    drop(record);
    written
}

/// Reads a command's record, and lets it go; before that, where it is to be written, puts its frame.
pub fn pass_command(
    alloc: Global,
    message: &RawMessage,
    is_written: bool,
    out: &mut Vec<u8>,
) -> Result<(), Fault> {
    at_place!(place_of(message), pass_as(alloc, message, is_written, out))
}

/// Times the messages of the command at this place.
pub fn time_command(rt: &HostRuntime, place: u32, all: &[RawMessage]) -> Result<Took, Fault> {
    at_place!(place, time_records(rt, all))
}
