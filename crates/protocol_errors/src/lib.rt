//! Why an attempt fails: codes, errors with their texts, and what they tell of commands and notifications.
#![tactic(auto)]

mod code;
mod error;
mod fixed;
mod metadata;
mod mismatch;
mod typed;
mod uncompleted;
mod writing;

pub use code::{InvocationErrorCode, codes};
pub use error::{Error, ErrorBehavior, WithInvocationErrorCode, to_error};
pub use fixed::{
    EMPTY_GET_EAGER_STATE, EMPTY_GET_EAGER_STATE_KEYS, EMPTY_GET_STATE_EPHEMERAL_NOTIFICATION,
    EMPTY_IDEMPOTENCY_KEY, EMPTY_LIMIT_KEY, EMPTY_SCOPE, EPHEMERAL_COMMAND_DURING_REPLAY,
    FixedError, INPUT_CLOSED_WHILE_WAITING_ENTRIES,
    INPUT_CLOSED_WHILE_WAITING_EPHEMERAL_NOTIFICATIONS, KNOWN_ENTRIES_IS_ZERO,
    MISSING_CONTENT_TYPE, SUSPENDED, UNEXPECTED_ENTRY_MESSAGE, UNEXPECTED_INPUT_MESSAGE,
};
pub use metadata::{CommandMetadata, NotificationMetadata};
pub use mismatch::{CommandTypeMismatchError, write_mismatch};
pub use protocol_stream::CommandType;
pub use typed::{
    BadEagerStateKeyError, BadProposeRunCompletionAck, ClosedError, DefaultErrorFormatter,
    EphemeralStateGetWithClosedInput, ErrorFormatter, OutOfBoundsDuration, UnavailableEntryError,
    UnexpectedStateError, UnsupportedFeatureForNegotiatedVersion,
};
pub use uncompleted::{AwaitedId, UncompletedDoProgressDuringReplay};
