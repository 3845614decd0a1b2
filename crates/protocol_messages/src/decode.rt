// The records that payloads of messages are.
ghost use Rattle.std.specs.Prelude.{◌≡◌, ◌↔◌, IsTrue};
ghost use Rattle.protocol_table.specs.declared.table.RecordType.TheVariants.{Notification as notification_type};
ghost use Rattle.protocol_stream.specs.declared.decoder.RawMessage.{RawMessage as RawMessages};
ghost use Rattle.protocol_controls.specs.Notification.{notification_of};
ghost use Rattle.protocol_messages.specs.Decodings.{has_name, IsExpected, ReadsPayload, DecodesTo, DecodesNotification};

use crate::message::RestateMessage;
use crate::notification::to_notification;
use journal_model::Notification;
use protocol_controls::NotificationMessage;
use protocol_stream::{DecodingError, MessageType, RawMessage};
use protocol_wire::{DecodeError, Record, decode};
use std::alloc::Global;

/// Reading of the payload that a message came with.
pub trait RawMessageExt {
    ghost message: { Self → RawMessages };

    /// The message as a record. The command index is where it was asked for; an error of another type tells it.
    fn decode_to<M: RestateMessage>(
        &self,
        alloc: Global,
        command_index: i64,
    ) -> Result<M, DecodingError>
        ensures { DecodesTo M.record_type M.of command_index (message self.now) result };

    /// What the payload notifies. The header's type says no more than that it is a notification, so it is not looked at.
    fn decode_as_notification(&self, alloc: Global) -> Result<Notification, DecodingError>
        ensures { DecodesNotification (message self.now) result };
}

fn is_named(ty: MessageType) -> bool
    ensures { result ≡ has_name ty }
{
    !matches!(ty, MessageType::CustomEntry(_))
}

fn is_same_type(one: MessageType, other: MessageType) -> bool
    ensures { IsTrue result ↔ (one ≡ other) }
{
    if is_named(one) != is_named(other) {
        return false;
    }
    u16::from(one) == u16::from(other)
}

// Whether a message is of the type that is asked for.
fn expect_type(
    expected: MessageType,
    actual: MessageType,
    command_index: i64,
) -> Result<(), DecodingError>
    ensures { IsExpected expected actual command_index result }
{
    if is_same_type(actual, expected) {
        return Ok(());
    }
    Err(DecodingError::UnexpectedMessageType {
        expected,
        actual,
        command_index,
    })
}

// The record that the payload is, whatever the header's type.
fn read_payload<R: Record>(alloc: Global, message: &RawMessage) -> Result<R, DecodingError>
    ensures { ReadsPayload R.record_type R.of message.now result }
{
    match decode(alloc, message.payload.as_slice()) {
        Ok(record) => Ok(record),
        Err(DecodeError::Memory) => Err(DecodingError::OutOfMemory),
        Err(DecodeError::Fault(fault)) => Err(DecodingError::DecodeMessage {
            ty: message.ty(),
            fault,
        }),
    }
}

impl RawMessageExt for RawMessage {
    ghost message = { λ m. m };

    fn decode_to<M: RestateMessage>(
        &self,
        alloc: Global,
        command_index: i64,
    ) -> Result<M, DecodingError> {
        expect_type(M::ty(), self.ty(), command_index)?;
        read_payload(alloc, self)
    }

    fn decode_as_notification(&self, alloc: Global) -> Result<Notification, DecodingError> {
        let found: NotificationMessage = read_payload(alloc, self)?;
        to_notification(alloc, found)
    }
}
