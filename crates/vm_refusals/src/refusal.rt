// Why a call is refused before anything is looked at.
use protocol_errors::{InvocationErrorCode, WithInvocationErrorCode, codes};

/// Why a call is refused before anything is looked at: by the version of the protocol and its arguments alone.
#[derive(Debug, Clone, Copy, PartialEq, Eq)]
pub enum CallRefusal {
    /// 64 bits do not hold a moment's milliseconds.
    OutOfBoundsDuration,
    /// An idempotency key is given, and is empty.
    EmptyIdempotencyKey,
    /// A scope is given, and is empty.
    EmptyScope,
    /// A limit key is given, and is empty.
    EmptyLimitKey,
    /// A failure carries metadata in a version whose failures have none.
    UnsupportedFailureMetadata,
    /// A scope is given in a version that has none.
    UnsupportedScope,
    /// A limit key is given in a version that has none.
    UnsupportedLimitKey,
    /// A number of successes is awaited in a version in which none is.
    UnsupportedAtLeast,
    /// What is awaited is nested deeper than a suspension can tell.
    AwaitTooDeep,
}

/// Where a later version is needed the feature is not supported, anything else is internal.
impl WithInvocationErrorCode for CallRefusal {
    ghost use Rattle.vm_refusals.specs.Refusals.{refusal_code};

    ghost code_of = { refusal_code };

    fn code(&self) -> InvocationErrorCode {
        match self {
            CallRefusal::UnsupportedScope
            | CallRefusal::UnsupportedLimitKey
            | CallRefusal::UnsupportedFailureMetadata
            | CallRefusal::UnsupportedAtLeast
            | CallRefusal::AwaitTooDeep => codes::UNSUPPORTED_FEATURE,
            CallRefusal::EmptyIdempotencyKey
            | CallRefusal::EmptyScope
            | CallRefusal::EmptyLimitKey
            | CallRefusal::OutOfBoundsDuration => codes::INTERNAL,
        }
    }
}
