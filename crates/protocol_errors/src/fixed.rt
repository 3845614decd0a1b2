// Errors whose text is always the same.
ghost use Rattle.std.specs.Prelude.{◌≡◌, Some};
ghost use Rattle.protocol_errors.specs.FixedErrors.{fixed_code, fixed_text};
ghost use Rattle.protocol_errors.specs.Code.{code_numbered};

use crate::{Error, InvocationErrorCode, WithInvocationErrorCode, codes};
use bytes::ByteStr;
use std::fmt;

/// An error whose text is always the same.
#[derive(Clone, Copy, Debug, PartialEq, Eq)]
pub enum FixedError {
    MissingContentType,
    UnexpectedInputMessage,
    KnownEntriesIsZero,
    UnexpectedEntryMessage,
    InputClosedWhileWaitingEntries,
    EmptyIdempotencyKey,
    EmptyLimitKey,
    EmptyScope,
    Suspended,
    EmptyGetEagerState,
    EmptyGetEagerStateKeys,
    EmptyGetStateEphemeralNotification,
    InputClosedWhileWaitingEphemeralNotifications,
    EphemeralCommandDuringReplay,
}

pub const MISSING_CONTENT_TYPE: FixedError = FixedError::MissingContentType;

pub const UNEXPECTED_INPUT_MESSAGE: FixedError = FixedError::UnexpectedInputMessage;

pub const KNOWN_ENTRIES_IS_ZERO: FixedError = FixedError::KnownEntriesIsZero;

pub const UNEXPECTED_ENTRY_MESSAGE: FixedError = FixedError::UnexpectedEntryMessage;

pub const INPUT_CLOSED_WHILE_WAITING_ENTRIES: FixedError =
    FixedError::InputClosedWhileWaitingEntries;

pub const EMPTY_IDEMPOTENCY_KEY: FixedError = FixedError::EmptyIdempotencyKey;

pub const EMPTY_LIMIT_KEY: FixedError = FixedError::EmptyLimitKey;

pub const EMPTY_SCOPE: FixedError = FixedError::EmptyScope;

pub const SUSPENDED: FixedError = FixedError::Suspended;

pub const EMPTY_GET_EAGER_STATE: FixedError = FixedError::EmptyGetEagerState;

pub const EMPTY_GET_EAGER_STATE_KEYS: FixedError = FixedError::EmptyGetEagerStateKeys;

pub const EMPTY_GET_STATE_EPHEMERAL_NOTIFICATION: FixedError =
    FixedError::EmptyGetStateEphemeralNotification;

pub const INPUT_CLOSED_WHILE_WAITING_EPHEMERAL_NOTIFICATIONS: FixedError =
    FixedError::InputClosedWhileWaitingEphemeralNotifications;

pub const EPHEMERAL_COMMAND_DURING_REPLAY: FixedError = FixedError::EphemeralCommandDuringReplay;

impl FixedError {
    /// The text of the error.
    pub fn message(self) -> &'static str
        ensures { result.now ≡ fixed_text self }
    {
        match self {
            FixedError::MissingContentType => {
                "Missing content type when invoking the service deployment"
            }
            FixedError::UnexpectedInputMessage => "Expected incoming message to be an entry",
            FixedError::KnownEntriesIsZero => "Known entries is zero, expected >= 1",
            FixedError::UnexpectedEntryMessage => {
                "Expected entry messages only when waiting replay entries"
            }
            FixedError::InputClosedWhileWaitingEntries => {
                "The input was closed while still waiting to receive all journal to replay"
            }
            FixedError::EmptyIdempotencyKey => "The idempotency key must be non-empty",
            FixedError::EmptyLimitKey => "The limit key must be non-empty",
            FixedError::EmptyScope => "The scope must be non-empty",
            FixedError::Suspended => "Suspended invocation",
            FixedError::EmptyGetEagerState => "Unexpected empty value variant for get eager state",
            FixedError::EmptyGetEagerStateKeys => "Unexpected empty value variant for state keys",
            FixedError::EmptyGetStateEphemeralNotification => {
                "Unexpected empty value variant for get state ephemeral"
            }
            FixedError::InputClosedWhileWaitingEphemeralNotifications => {
                "The input was closed while still waiting for ephemeral notifications"
            }
            FixedError::EphemeralCommandDuringReplay => {
                "Ephemeral commands are not allowed during replay"
            }
        }
    }
}

impl WithInvocationErrorCode for FixedError {
    ghost code_of = { fixed_code };

    fn code(&self) -> InvocationErrorCode {
        match self {
            FixedError::MissingContentType => codes::UNSUPPORTED_MEDIA_TYPE,
            FixedError::EmptyIdempotencyKey
            | FixedError::EmptyLimitKey
            | FixedError::EmptyScope
            | FixedError::InputClosedWhileWaitingEphemeralNotifications => codes::INTERNAL,
            FixedError::UnexpectedInputMessage
            | FixedError::KnownEntriesIsZero
            | FixedError::UnexpectedEntryMessage
            | FixedError::InputClosedWhileWaitingEntries
            | FixedError::EmptyGetEagerState
            | FixedError::EmptyGetEagerStateKeys
            | FixedError::EmptyGetStateEphemeralNotification
            | FixedError::EphemeralCommandDuringReplay => codes::PROTOCOL_VIOLATION,
            FixedError::Suspended => codes::SUSPENDED,
        }
    }
}

impl fmt::Display for FixedError {
    ghost output = { λ fixed. Some (fixed_text fixed) };

    fn fmt<W: fmt::Write>(&self, f: &mut fmt::Formatter<W>) -> fmt::Result {
        f.write_str(self.message())
    }
}

impl std::error::Error for FixedError {}

/// Takes no memory.
impl From<FixedError> for Error {
    ghost use Rattle.protocol_errors.specs.Error.{plain_error};

    ghost from_gives = { λ fixed error. error ≡ plain_error (fixed_code fixed) (fixed_text fixed) };

    fn from(fixed: FixedError) -> Error {
        Error::new(fixed.code(), ByteStr::from_static(fixed.message()))
    }
}
