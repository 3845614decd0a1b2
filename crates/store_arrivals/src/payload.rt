//! The canonical payload of an arrival.

ghost use Rattle.std.specs.Prelude.{◌≡◌, IfOk};
ghost use Rattle.journal_model.specs.Spelling.{notification_payload};
ghost use Rattle.protocol_laws.specs.Records.{id_record, notification_record, result_record};

use bytes::Bytes;
use journal_model::{Notification, NotificationId, NotificationResult};
use protocol_controls::{NotificationMessage, NotificationMessageId, NotificationMessageResult};
use protocol_records::{StateKeys, Value, Void};
use protocol_stream::to_arrived_failure_record;
use protocol_wire::encode;
use std::alloc::{AllocError, Global};

fn id_of(id: NotificationId) -> NotificationMessageId
    ensures { result ≡ id_record id }
{
    match id {
        NotificationId::CompletionId(number) => NotificationMessageId::CompletionId(number),
        NotificationId::SignalId(number) => NotificationMessageId::SignalId(number),
        NotificationId::SignalName(name) => NotificationMessageId::SignalName(name),
    }
}

fn result_of(
    alloc: Global,
    brought: NotificationResult,
) -> Result<NotificationMessageResult, AllocError>
    ensures { IfOk result (λ recorded. recorded ≡ result_record brought) }
{
    match brought {
        NotificationResult::Void => Ok(NotificationMessageResult::Void(Void {})),
        NotificationResult::Value(content) => {
            Ok(NotificationMessageResult::Value(Value { content }))
        }
        NotificationResult::Failure(failure) => Ok(NotificationMessageResult::Failure(
            to_arrived_failure_record(alloc, failure)?,
        )),
        NotificationResult::InvocationId(id) => Ok(NotificationMessageResult::InvocationId(id)),
        NotificationResult::StateKeys(keys) => {
            Ok(NotificationMessageResult::StateKeys(StateKeys { keys }))
        }
    }
}

fn message_of(alloc: Global, arrival: Notification) -> Result<NotificationMessage, AllocError>
    ensures { IfOk result (λ message. message ≡ notification_record arrival) }
{
    let Notification {
        id,
        result: brought,
    } = arrival;
    match result_of(alloc, brought) {
        Ok(recorded) => Ok(NotificationMessage {
            id: Some(id_of(id)),
            result: Some(recorded),
        }),
        Err(refused) => {
            drop(id);
            Err(refused)
        }
    }
}

/// The payload of an arrival's frame.
pub(crate) fn payload_of(alloc: Global, arrival: Notification) -> Result<Vec<u8>, AllocError>
    ensures { IfOk result (λ payload. payload.items ≡ notification_payload arrival) }
{
    let message = message_of(alloc, arrival)?;
    let spelled = encode(alloc, &message);
    drop(message);
    let payload = spelled?;
    Ok(payload)
}

/// A payload as it is kept.
pub(crate) fn kept_bytes(payload: Vec<u8>) -> Result<Bytes, AllocError>
    ensures { IfOk result (λ bytes. bytes ≡ payload.items) }
{
    match Bytes::from_vec(payload) {
        Ok(bytes) => Ok(bytes),
        Err(refused) => {
            drop(refused);
            Err(AllocError)
        }
    }
}
