// An error with all that it tells.
ghost use Rattle.std.specs.Prelude.{◌≡◌, ◌==◌, ℕ, Some, IfOk, IfSome, option_copied};
ghost use Rattle.protocol_errors.specs.Code.{code_numbered, internal, suspended};
ghost use Rattle.std.specs.Fmt.{WritesOnOk};
ghost use Rattle.protocol_errors.specs.Error.{plain_error, mismatch_behaving};
ghost use Rattle.protocol_errors.specs.Texts.{related_text};
ghost use Rattle.protocol_errors.specs.declared.error.ErrorBehavior.{ErrorBehavior};

use crate::{CommandMetadata, InvocationErrorCode, codes};
use bytes::ByteStr;
use protocol_stream::{ContentTypeError, DecodingError, EncodingError};
use std::alloc::{AllocError, Global};
use std::fmt;
use std::time::Duration;

/// What is to become of an invocation whose attempt failed.
#[derive(Clone, Copy, Debug, PartialEq, Eq)]
pub enum ErrorBehavior {
    /// Another attempt is made.
    Retry,
    /// No attempt is made until the invocation is resumed.
    Pause,
    /// The invocation ends with the error.
    Fail,
}

/// Why an attempt failed, with the command that it is about, the delay until the next attempt where it replaces the
/// usual one, and what is to become of the invocation.
#[derive(Clone, Debug, Drop)]
pub struct Error {
    code: InvocationErrorCode,
    message: ByteStr,
    related_command: Option<CommandMetadata>,
    next_retry_delay: Option<Duration>,
    behavior: ErrorBehavior,
}

impl Error {
    /// An error that tells no command and no delay, and is retried.
    pub fn new(code: InvocationErrorCode, message: ByteStr) -> Error
        ensures { result ≡ plain_error code.0 message }
    {
        Error {
            code,
            message,
            related_command: None,
            next_retry_delay: None,
            behavior: ErrorBehavior::Retry,
        }
    }

    /// An error whose code is `INTERNAL`.
    pub fn internal(message: ByteStr) -> Error
        ensures { result ≡ plain_error internal message }
    {
        Error::new(codes::INTERNAL, message)
    }

    /// The number of the code.
    pub fn code(&self) -> u16
        ensures { result ≡ self.now.code.0 }
    {
        self.code.code()
    }

    /// The text.
    pub fn message(&self) -> &str
        ensures { result.now ≡ self.now.message }
    {
        self.message.as_str()
    }

    /// The command that the error is about.
    pub fn related_command(&self) -> Option<&CommandMetadata>
        ensures { option_copied result ≡ self.now.related_command }
    {
        self.related_command.as_ref()
    }

    /// The delay until the next attempt, where it replaces the usual one.
    pub fn next_retry_delay(&self) -> Option<Duration>
        ensures { result ≡ self.now.next_retry_delay }
    {
        self.next_retry_delay
    }

    /// What is to become of the invocation.
    pub fn behavior(&self) -> ErrorBehavior
        ensures { result ≡ self.now.behavior }
    {
        self.behavior
    }

    /// The error with this delay until the next attempt.
    pub fn with_next_retry_delay_override(mut self, delay: Duration) -> Error
        ensures { result ≡ record self { next_retry_delay = Some delay } }
    {
        self.next_retry_delay = Some(delay);
        self
    }

    /// The error with this delay until the next attempt, or with the usual one.
    pub fn with_next_retry_delay(mut self, delay: Option<Duration>) -> Error
        ensures { result ≡ record self { next_retry_delay = delay } }
    {
        self.next_retry_delay = delay;
        self
    }

    /// The error, upon which another attempt is made.
    pub fn with_should_retry(mut self) -> Error
        ensures { result ≡ record self { behavior = ErrorBehavior.Retry } }
    {
        self.behavior = ErrorBehavior::Retry;
        self
    }

    /// The error, upon which the invocation is paused.
    pub fn with_should_pause(mut self) -> Error
        ensures { result ≡ record self { behavior = ErrorBehavior.Pause } }
    {
        self.behavior = ErrorBehavior::Pause;
        self
    }

    /// The error, upon which this becomes of the invocation where a journal does not match. Any other error stays as it is: so no other
    /// error can be made that ends an invocation.
    pub fn with_mismatch_behavior(mut self, behavior: ErrorBehavior) -> Error
        ensures { result ≡ mismatch_behaving behavior self }
    {
        if self.code.code() == codes::JOURNAL_MISMATCH.code() {
            self.behavior = behavior;
        }
        self
    }

    /// The error, about this command.
    pub fn with_related_command_metadata(mut self, command: CommandMetadata) -> Error
        ensures { result ≡ record self { related_command = Some command } }
    {
        self.related_command = Some(command);
        self
    }

    /// Whether the attempt did not fail, but was suspended: the code is `SUSPENDED`.
    pub fn is_suspended_error(&self) -> bool
        ensures { result ≡ (self.now.code.0 == suspended) }
    {
        self.code.code() == codes::SUSPENDED.code()
    }
}

// Writes the line of the command that an error is about.
fn write_related<W: fmt::Write>(
    related: &Option<CommandMetadata>,
    f: &mut fmt::Formatter<W>,
) -> fmt::Result
    ensures { WritesOnOk W.write_str_gives f.old result (related_text related.now) f.new }
{
    match related {
        Some(command) => write!(f, "\nRelated command: {command}"),
        None => Ok(()),
    }
}

/// Prints the code and the text, and the command that the error is about.
impl fmt::Display for Error {
    ghost use Rattle.protocol_errors.specs.Texts.{error_text};

    ghost output = { λ error. Some (error_text error) };

    fn fmt<W: fmt::Write>(&self, f: &mut fmt::Formatter<W>) -> fmt::Result {
        let (code, message) = (self.code, &self.message);
        write!(f, "({code}) {message}")?;
        write_related(&self.related_command, f)
    }
}

impl std::error::Error for Error {}

/// An error with a type of its own. `code_of` is the number of its code.
pub trait WithInvocationErrorCode {
    ghost code_of: { Self → ℕ };

    /// The code that the error carries.
    fn code(&self) -> InvocationErrorCode
        ensures { result ≡ code_numbered (code_of self.now) };
}

/// The error that carries the code of a typed one, and its printed text.
pub fn to_error<E: WithInvocationErrorCode + fmt::Display>(
    alloc: Global,
    error: &E,
) -> Result<Error, AllocError>
    ensures made { IfOk result (λ made. made ≡ plain_error (E.code_of error.now) made.message) }
    ensures text { IfOk result (λ made. IfSome (E.output error.now) (λ text. made.message ≡ text)) }
{
    let message = ByteStr::from_string(error.to_string(alloc)?)?;
    Ok(Error::new(error.code(), message))
}

impl WithInvocationErrorCode for ContentTypeError {
    ghost use Rattle.protocol_errors.specs.Code.{unsupported_media_type};

    ghost code_of = { λ _. unsupported_media_type };

    fn code(&self) -> InvocationErrorCode {
        codes::UNSUPPORTED_MEDIA_TYPE
    }
}

impl WithInvocationErrorCode for EncodingError {
    ghost code_of = { λ _. internal };

    fn code(&self) -> InvocationErrorCode {
        codes::INTERNAL
    }
}

/// Memory that was refused is internal, another message than was asked for a mismatch of the journal, anything else the fault
/// of the other side.
impl WithInvocationErrorCode for DecodingError {
    ghost use Rattle.protocol_errors.specs.Error.{decoding_code};

    ghost code_of = { decoding_code };

    fn code(&self) -> InvocationErrorCode {
        match self {
            DecodingError::UnexpectedMessageType { .. } => codes::JOURNAL_MISMATCH,
            DecodingError::OutOfMemory => codes::INTERNAL,
            _ => codes::PROTOCOL_VIOLATION,
        }
    }
}
