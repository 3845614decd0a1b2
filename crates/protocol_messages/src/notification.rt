// What a notification's record tells.
ghost use Rattle.std.specs.Prelude.{◌≡◌, IfOk};
ghost use Rattle.protocol_messages.specs.NotificationContent.{id_told, result_told, TellsNotification, is_failure as is_failure_spec};

use journal_model::{Notification, NotificationId, NotificationResult};
use protocol_controls::{NotificationMessage, NotificationMessageId, NotificationMessageResult};
use protocol_stream::{DecodingError, NotificationField, to_failure};
use std::alloc::{AllocError, Global};

/// Whether a notification brings a failure.
pub fn is_failure(brought: &NotificationResult) -> bool
    ensures { result ≡ is_failure_spec brought.now }
{
    matches!(brought, NotificationResult::Failure(_))
}

fn to_notification_id(id: NotificationMessageId) -> NotificationId
    ensures { result ≡ id_told id }
{
    match id {
        NotificationMessageId::CompletionId(id) => NotificationId::CompletionId(id),
        NotificationMessageId::SignalId(id) => NotificationId::SignalId(id),
        NotificationMessageId::SignalName(name) => NotificationId::SignalName(name),
    }
}

fn to_notification_result(
    alloc: Global,
    brought: NotificationMessageResult,
) -> Result<NotificationResult, AllocError>
    ensures { IfOk result (λ told. told ≡ result_told brought) }
{
    match brought {
        NotificationMessageResult::Void(_) => Ok(NotificationResult::Void),
        NotificationMessageResult::Value(value) => Ok(NotificationResult::Value(value.content)),
        NotificationMessageResult::Failure(failure) => {
            Ok(NotificationResult::Failure(to_failure(alloc, failure)?))
        }
        NotificationMessageResult::InvocationId(id) => Ok(NotificationResult::InvocationId(id)),
        NotificationMessageResult::StateKeys(keys) => Ok(NotificationResult::StateKeys(keys.keys)),
    }
}

/// The notification of a record that has an id and a result.
pub(crate) fn to_notification(
    alloc: Global,
    found: NotificationMessage,
) -> Result<Notification, DecodingError>
    ensures { TellsNotification found result }
{
    let NotificationMessage { id, result } = found;
    let Some(id) = id else {
        return Err(DecodingError::MissingField(NotificationField::Id));
    };
    let Some(brought) = result else {
        return Err(DecodingError::MissingField(NotificationField::Result));
    };
    match to_notification_result(alloc, brought) {
        Ok(result) => Ok(Notification {
            id: to_notification_id(id),
            result,
        }),
        Err(_) => Err(DecodingError::OutOfMemory),
    }
}
