//! What calls are answered: by what their notifications are named.
ghost use Rattle.std.specs.Prelude.{◌≡◌};

use bytes::ByteStr;
use journal_model::NotificationHandle;
use std::fmt;
use std::fmt::{Debug, Display, Formatter, Write};

/// What an ephemeral read is named by. Within an attempt they count from 1; nothing of them is recorded.
#[derive(Clone, Copy, PartialEq, Eq, PartialOrd, Ord, Hash)]
pub struct EphemeralCompletionId {
    pub number: u32,
}

/// As the tuple that it is in the crate that is ported: `EphemeralCompletionId(1)`.
impl Debug for EphemeralCompletionId {
    fn fmt<W: Write>(&self, f: &mut Formatter<W>) -> fmt::Result {
        f.write_str("EphemeralCompletionId(")?;
        Display::fmt(&self.number, f)?;
        f.write_str(")")
    }
}

impl From<u32> for EphemeralCompletionId {
    ghost from_gives = { λ number id. id ≡ record { number = number } };

    fn from(number: u32) -> EphemeralCompletionId {
        EphemeralCompletionId { number }
    }
}

impl From<EphemeralCompletionId> for u32 {
    ghost from_gives = { λ id number. number ≡ id.number };

    fn from(id: EphemeralCompletionId) -> u32 {
        id.number
    }
}

/// The two notifications of a call: the id of the invocation that it has begun, and its result.
#[derive(Debug, Clone, Copy, PartialEq, Eq)]
pub struct CallHandle {
    pub invocation_id_notification_handle: NotificationHandle,
    pub call_notification_handle: NotificationHandle,
}

/// The notification of a send: the id of the invocation that it has begun.
#[derive(Debug, Clone, Copy, PartialEq, Eq)]
pub struct SendHandle {
    pub invocation_id_notification_handle: NotificationHandle,
}

/// The text by which an awakeable is completed from outside, and its notification.
#[derive(Debug, Clone, PartialEq, Eq, Drop)]
pub struct AwakeableHandle {
    pub id: ByteStr,
    pub handle: NotificationHandle,
}
