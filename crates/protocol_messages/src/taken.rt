// What a handler takes of a notification.
ghost use Rattle.std.specs.Prelude.{◌≡◌, IfOk, IfErr};
ghost use Rattle.journal_model.specs.Value.{as_taken, failure_taken};
ghost use Rattle.protocol_messages.specs.TakeErrors.{NotTextIn, NotTaken};

use bytes::{ByteStr, Bytes};
use journal_model::{Failure, NotificationResult, TerminalFailure, Value};
use sequence::Sequence;
use std::alloc::{AllocError, Global};
use thiserror::Error;

/// The code that stands for one of more than sixteen bits: an internal error.
const INTERNAL: u16 = 500;

/// Why a handler cannot take what a notification brings.
#[derive(Clone, Copy, Debug, PartialEq, Eq, Error)]
pub enum TakeError {
    #[error("a state key that is not UTF-8")]
    KeyNotText,
    #[error("out of memory")]
    OutOfMemory,
}

impl From<AllocError> for TakeError {
    ghost use Rattle.protocol_messages.specs.declared.taken.TakeError.TheVariants.{OutOfMemory};

    ghost from_gives = { λ _ error. error ≡ OutOfMemory };

    fn from(_: AllocError) -> TakeError {
        TakeError::OutOfMemory
    }
}

/// The failure that a handler takes of a recorded one: a code of more than sixteen bits becomes 500.
pub fn to_taken_failure(failure: Failure) -> TerminalFailure
    ensures { result ≡ failure_taken failure }
{
    let Failure {
        code,
        message,
        metadata,
    } = failure;
    TerminalFailure {
        code: u16::try_from(code).unwrap_or(INTERNAL),
        message,
        metadata,
    }
}

fn text_keys(alloc: Global, keys: &[Bytes]) -> Result<Sequence<ByteStr>, TakeError>
    ensures ok { IfOk result (λ texts. texts ≡ keys.now) }
    ensures err { IfErr result (NotTextIn keys.now) }
{
    let mut texts = Sequence::new(alloc);
    for key in keys {
        match ByteStr::from_utf8(key.clone()?) {
            Ok(text) => texts.push(text)?,
            Err(_) => return Err(TakeError::KeyNotText),
        }
    }
    Ok(texts)
}

/// What a handler takes of what a notification brings. State keys that are not all text are refused.
pub fn to_value(alloc: Global, brought: NotificationResult) -> Result<Value, TakeError>
    ensures ok { IfOk result (λ value. value ≡ as_taken brought) }
    ensures err { IfErr result (NotTaken brought) }
{
    match brought {
        NotificationResult::Void => Ok(Value::Void),
        NotificationResult::Value(bytes) => Ok(Value::Success(bytes)),
        NotificationResult::Failure(failure) => Ok(Value::Failure(to_taken_failure(failure))),
        NotificationResult::InvocationId(id) => Ok(Value::InvocationId(id)),
        NotificationResult::StateKeys(keys) => {
            Ok(Value::StateKeys(text_keys(alloc, keys.as_slice())?))
        }
    }
}
