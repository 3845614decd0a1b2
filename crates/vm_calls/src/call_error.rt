// Why a call fails.
use crate::PutError;
use std::alloc::AllocError;

/// Why no number was taken.
#[derive(Clone, Copy, Debug, PartialEq, Eq)]
pub enum NumberError {
    /// V3: no completion id, no signal id or no handle is left.
    IdsExhausted,
    OutOfMemory,
}

/// Why a call that puts one command fails.
#[derive(Debug, Drop)]
pub enum CallError<M> {
    /// No number is left, or memory was refused for one.
    Number(NumberError),
    /// Its command was neither matched nor written.
    Put(PutError<M>),
    OutOfMemory,
}

impl<M> From<AllocError> for CallError<M> {
    ghost use Rattle.std.specs.Prelude.{◌≡◌};
    ghost use Rattle.vm_calls.specs.declared.call_error.CallError.TheVariants.{OutOfMemory};

    ghost from_gives = { λ _ error. error ≡ OutOfMemory };

    fn from(_refused: AllocError) -> CallError<M> {
        CallError::OutOfMemory
    }
}

impl<M> From<NumberError> for CallError<M> {
    ghost use Rattle.std.specs.Prelude.{◌≡◌};
    ghost use Rattle.vm_calls.specs.declared.call_error.CallError.TheVariants.{Number};

    ghost from_gives = { λ refused error. error ≡ Number refused };

    fn from(refused: NumberError) -> CallError<M> {
        CallError::Number(refused)
    }
}

impl<M> From<PutError<M>> for CallError<M> {
    ghost use Rattle.std.specs.Prelude.{◌≡◌};
    ghost use Rattle.vm_calls.specs.declared.call_error.CallError.TheVariants.{Put};

    ghost from_gives = { λ refused error. error ≡ Put refused };

    fn from(refused: PutError<M>) -> CallError<M> {
        CallError::Put(refused)
    }
}
