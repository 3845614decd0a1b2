// Errors with types of their own.
ghost use Rattle.std.specs.Prelude.{◌≡◌, ◌++◌, ℕ, List, Some};
ghost use Rattle.std.specs.Fmt.{WritesOnOk};
ghost use Rattle.protocol_errors.specs.Code.{internal, journal_mismatch, protocol_violation, unsupported_feature, closed};
ghost use Rattle.protocol_errors.specs.Texts.{unavailable_text, unexpected_state_text, invoking_text, bad_state_key_text, feature_text, bad_ack_text, unanswered_read_text, out_of_bounds_text};

use crate::writing::{
    write_bad_key, write_feature, write_from_index, write_invoking, write_unavailable,
    write_unexpected_state,
};
use crate::{InvocationErrorCode, WithInvocationErrorCode, codes};
use bytes::{ByteStr, FromUtf8Error};
use protocol_stream::{MessageType, Version};
use std::fmt;
use std::num::TryFromIntError;

/// The journal has no more commands, but the handler makes one while it is replayed.
#[derive(Debug, Drop)]
pub struct UnavailableEntryError {
    expected: MessageType,
}

impl UnavailableEntryError {
    /// Of a command of this type, which the handler makes.
    pub fn new(expected: MessageType) -> UnavailableEntryError
        ensures { result ≡ record { expected = expected } }
    {
        UnavailableEntryError { expected }
    }
}

impl fmt::Display for UnavailableEntryError {
    ghost output = { λ error. Some (unavailable_text error.expected) };

    fn fmt<W: fmt::Write>(&self, f: &mut fmt::Formatter<W>) -> fmt::Result {
        write_unavailable(self.expected, f)
    }
}

impl std::error::Error for UnavailableEntryError {}

/// A call that the state of the machine does not allow.
#[derive(Debug, Drop)]
pub struct UnexpectedStateError {
    state: &'static str,
    event: ByteStr,
}

impl UnexpectedStateError {
    /// Of this call in this state.
    pub fn new(state: &'static str, event: ByteStr) -> UnexpectedStateError
        ensures state { result.state.now ≡ state.now }
        ensures event { result.event ≡ event }
    {
        UnexpectedStateError { state, event }
    }
}

impl fmt::Display for UnexpectedStateError {
    ghost output = { λ error. Some (unexpected_state_text error.state.now ++ invoking_text error.event) };

    fn fmt<W: fmt::Write>(&self, f: &mut fmt::Formatter<W>) -> fmt::Result {
        write_unexpected_state(self.state, f)?;
        write_invoking(self.event.as_str(), f)
    }
}

impl std::error::Error for UnexpectedStateError {}

/// State bytes whose key is no UTF-8.
#[derive(Debug, Drop)]
pub struct BadEagerStateKeyError(pub FromUtf8Error);

impl fmt::Display for BadEagerStateKeyError {
    ghost output = { λ error. Some (bad_state_key_text error) };

    fn fmt<W: fmt::Write>(&self, f: &mut fmt::Formatter<W>) -> fmt::Result {
        let error = &self.0.error;
        write_bad_key(error.error_len(), f)?;
        write_from_index(error.valid_up_to(), f)
    }
}

impl std::error::Error for BadEagerStateKeyError {}

/// What later versions of the protocol have.
#[derive(Clone, Copy, Debug)]
pub struct UnsupportedFeatureForNegotiatedVersion {
    feature: &'static str,
    current_version: Version,
    minimum_required_version: Version,
}

impl UnsupportedFeatureForNegotiatedVersion {
    /// Of this feature, in the version that is spoken, and the first version that has it.
    pub fn new(
        feature: &'static str,
        current_version: Version,
        minimum_required_version: Version,
    ) -> UnsupportedFeatureForNegotiatedVersion
        ensures feature { result.feature.now ≡ feature.now }
        ensures current { result.current_version ≡ current_version }
        ensures minimum { result.minimum_required_version ≡ minimum_required_version }
    {
        UnsupportedFeatureForNegotiatedVersion {
            feature,
            current_version,
            minimum_required_version,
        }
    }
}

impl fmt::Display for UnsupportedFeatureForNegotiatedVersion {
    ghost output = { λ error. Some (feature_text error.feature.now error.current_version error.minimum_required_version) };

    fn fmt<W: fmt::Write>(&self, f: &mut fmt::Formatter<W>) -> fmt::Result {
        write_feature(
            self.feature,
            self.current_version,
            self.minimum_required_version,
            f,
        )
    }
}

impl std::error::Error for UnsupportedFeatureForNegotiatedVersion {}

/// An acknowledgement of a run's outcome that was not proposed.
#[derive(Clone, Copy, Debug)]
pub struct BadProposeRunCompletionAck {
    completion_id: u32,
}

impl BadProposeRunCompletionAck {
    /// Of the run with this completion id.
    pub fn new(completion_id: u32) -> BadProposeRunCompletionAck
        ensures { result ≡ record { completion_id = completion_id } }
    {
        BadProposeRunCompletionAck { completion_id }
    }
}

impl fmt::Display for BadProposeRunCompletionAck {
    ghost output = { λ error. Some (bad_ack_text error.completion_id) };

    fn fmt<W: fmt::Write>(&self, f: &mut fmt::Formatter<W>) -> fmt::Result {
        let id = self.completion_id;
        write!(
            f,
            "Got an acknowledgement for a run proposal that was not sent, completion id {id}"
        )
    }
}

impl std::error::Error for BadProposeRunCompletionAck {}

/// An ephemeral read that no one can answer.
#[derive(Debug, Drop)]
pub struct EphemeralStateGetWithClosedInput {
    key: ByteStr,
}

impl EphemeralStateGetWithClosedInput {
    /// Of the state with this key.
    pub fn new(key: ByteStr) -> EphemeralStateGetWithClosedInput
        ensures { result ≡ record { key = key } }
    {
        EphemeralStateGetWithClosedInput { key }
    }
}

impl fmt::Display for EphemeralStateGetWithClosedInput {
    ghost output = { λ error. Some (unanswered_read_text error.key) };

    fn fmt<W: fmt::Write>(&self, f: &mut fmt::Formatter<W>) -> fmt::Result {
        let key = &self.key;
        write!(
            f,
            "Cannot get the state of key '{key}' ephemerally, the input is closed"
        )
    }
}

impl std::error::Error for EphemeralStateGetWithClosedInput {}

/// A moment past the milliseconds that 64 bits hold.
#[derive(Debug, Drop)]
pub struct OutOfBoundsDuration(pub &'static str, pub TryFromIntError);

impl fmt::Display for OutOfBoundsDuration {
    ghost output = { λ error. Some (out_of_bounds_text error.0.now) };

    fn fmt<W: fmt::Write>(&self, f: &mut fmt::Formatter<W>) -> fmt::Result {
        let event = self.0;
        write!(
            f,
            "Duration for '{event}' is out of bounds: out of range integral type conversion attempted"
        )
    }
}

impl std::error::Error for OutOfBoundsDuration {}

/// Prints what was called behind the end.
pub trait ErrorFormatter: fmt::Debug {
    ghost closed_text: { Self → List ℕ → List ℕ };

    /// Prints that this call came when the machine was closed.
    fn display_closed_error<W: fmt::Write>(
        &self,
        f: &mut fmt::Formatter<W>,
        event: &str,
    ) -> fmt::Result
        ensures { WritesOnOk W.write_str_gives f.old result (closed_text self.now event.now) f.new };
}

/// The words that are printed where nobody hands in others.
#[derive(Clone, Copy, Debug)]
pub struct DefaultErrorFormatter;

impl ErrorFormatter for DefaultErrorFormatter {
    ghost use Rattle.protocol_errors.specs.Texts.{closed_text as closed_words};

    ghost closed_text = { λ _ event. closed_words event };

    fn display_closed_error<W: fmt::Write>(
        &self,
        f: &mut fmt::Formatter<W>,
        event: &str,
    ) -> fmt::Result {
        write!(f, "State machine was closed when invoking '{event}'")
    }
}

/// A call behind the end.
#[derive(Debug, Drop)]
pub struct ClosedError {
    event: ByteStr,
}

impl ClosedError {
    /// Of this call.
    pub fn new(event: ByteStr) -> ClosedError
        ensures { result ≡ record { event = event } }
    {
        ClosedError { event }
    }

    /// Prints the error in the words of a formatter.
    pub fn display_with<F: ErrorFormatter, W: fmt::Write>(
        &self,
        formatter: &F,
        f: &mut fmt::Formatter<W>,
    ) -> fmt::Result
        ensures { WritesOnOk W.write_str_gives f.old result (F.closed_text formatter.now self.now.event) f.new }
    {
        formatter.display_closed_error(f, self.event.as_str())
    }
}

impl fmt::Display for ClosedError {
    ghost use Rattle.protocol_errors.specs.Texts.{closed_text};

    ghost output = { λ error. Some (closed_text error.event) };

    fn fmt<W: fmt::Write>(&self, f: &mut fmt::Formatter<W>) -> fmt::Result {
        self.display_with(&DefaultErrorFormatter, f)
    }
}

impl std::error::Error for ClosedError {}

impl WithInvocationErrorCode for UnavailableEntryError {
    ghost code_of = { λ _. journal_mismatch };

    fn code(&self) -> InvocationErrorCode {
        codes::JOURNAL_MISMATCH
    }
}

impl WithInvocationErrorCode for UnexpectedStateError {
    ghost code_of = { λ _. protocol_violation };

    fn code(&self) -> InvocationErrorCode {
        codes::PROTOCOL_VIOLATION
    }
}

impl WithInvocationErrorCode for BadEagerStateKeyError {
    ghost code_of = { λ _. internal };

    fn code(&self) -> InvocationErrorCode {
        codes::INTERNAL
    }
}

impl WithInvocationErrorCode for UnsupportedFeatureForNegotiatedVersion {
    ghost code_of = { λ _. unsupported_feature };

    fn code(&self) -> InvocationErrorCode {
        codes::UNSUPPORTED_FEATURE
    }
}

impl WithInvocationErrorCode for BadProposeRunCompletionAck {
    ghost code_of = { λ _. protocol_violation };

    fn code(&self) -> InvocationErrorCode {
        codes::PROTOCOL_VIOLATION
    }
}

impl WithInvocationErrorCode for EphemeralStateGetWithClosedInput {
    ghost code_of = { λ _. internal };

    fn code(&self) -> InvocationErrorCode {
        codes::INTERNAL
    }
}

impl WithInvocationErrorCode for OutOfBoundsDuration {
    ghost code_of = { λ _. internal };

    fn code(&self) -> InvocationErrorCode {
        codes::INTERNAL
    }
}

impl WithInvocationErrorCode for ClosedError {
    ghost code_of = { λ _. closed };

    fn code(&self) -> InvocationErrorCode {
        codes::CLOSED
    }
}
