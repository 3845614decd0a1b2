// Why a read fails.
ghost use Rattle.std.specs.Prelude.{◌≡◌};
ghost use Rattle.vm_state_reads.specs.Errors.{lazy_read, eager_read};

use journal_model::NotificationHandle;
use protocol_stream::EncodingError;
use std::alloc::AllocError;
use vm_calls::{NumberError, PutError};
use vm_commands::StateReadError;

/// Why a read fails.
#[derive(Debug, Drop)]
pub enum ReadError<L, E> {
    /// No number is left, or memory was refused for one.
    Number(NumberError),
    /// The next recorded command is not this read.
    Replay(StateReadError<L, E>),
    /// The frame could not be made.
    Encoding(EncodingError),
    OutOfMemory,
}

impl<L, E> From<AllocError> for ReadError<L, E> {
    ghost use Rattle.std.specs.Prelude.{◌≡◌};
    ghost use Rattle.vm_state_reads.specs.declared.read_error.ReadError.TheVariants.{OutOfMemory};

    ghost from_gives = { λ _ error. error ≡ OutOfMemory };

    fn from(_refused: AllocError) -> ReadError<L, E> {
        ReadError::OutOfMemory
    }
}

impl<L, E> From<NumberError> for ReadError<L, E> {
    ghost use Rattle.std.specs.Prelude.{◌≡◌};
    ghost use Rattle.vm_state_reads.specs.declared.read_error.ReadError.TheVariants.{Number};

    ghost from_gives = { λ refused error. error ≡ Number refused };

    fn from(refused: NumberError) -> ReadError<L, E> {
        ReadError::Number(refused)
    }
}

impl<L, E> From<StateReadError<L, E>> for ReadError<L, E> {
    ghost use Rattle.std.specs.Prelude.{◌≡◌};
    ghost use Rattle.vm_state_reads.specs.declared.read_error.ReadError.TheVariants.{Replay};

    ghost from_gives = { λ refused error. error ≡ Replay refused };

    fn from(refused: StateReadError<L, E>) -> ReadError<L, E> {
        ReadError::Replay(refused)
    }
}

/// What a read whose answer is to come was put as.
pub(crate) fn lazy_read<L, E>(
    put: Result<NotificationHandle, PutError<L>>,
) -> Result<NotificationHandle, ReadError<L, E>>
    ensures { result ≡ lazy_read put }
{
    match put {
        Ok(handle) => Ok(handle),
        Err(PutError::Replay(error)) => Err(ReadError::Replay(StateReadError::Lazy(error))),
        Err(PutError::Encoding(error)) => Err(ReadError::Encoding(error)),
    }
}

/// What a read whose answer is known was put as.
pub(crate) fn eager_read<L, E>(
    put: Result<NotificationHandle, PutError<E>>,
) -> Result<NotificationHandle, ReadError<L, E>>
    ensures { result ≡ eager_read put }
{
    match put {
        Ok(handle) => Ok(handle),
        Err(PutError::Replay(error)) => Err(ReadError::Replay(StateReadError::Eager(error))),
        Err(PutError::Encoding(error)) => Err(ReadError::Encoding(error)),
    }
}
