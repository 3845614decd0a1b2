// Why a call is refused.
ghost use Rattle.std.specs.Prelude.{◌≡◌};
ghost use Rattle.store_refusals.specs.declared.refusal.Refusal.TheVariants.{OutOfMemory, StatementRefused};
ghost use Rattle.store_refusals.specs.Names.{cause_name, refusal_name_of};
ghost use Rattle.store_refusals.specs.RefusalConditions.{encoding_refusal, reading_refusal};

use journal_model::Cause;
use protocol_stream::EncodingError;
use sql_tables::read::ReadError;
use sqlite::Error;
use std::alloc::{AllocError, AllocFailed};

/// Why a call of the store is refused.
#[derive(Clone, Copy, Debug, PartialEq, Eq)]
pub enum Refusal {
    /// S1 to S18, and S22 to S24: the event is refused after those that were accepted.
    Cause(Cause),
    /// S19: the database refused a statement, for this cause; want of its memory is one.
    StatementRefused(Error),
    /// S20: memory was refused.
    OutOfMemory,
    /// S21: the database has a row that no store writes.
    ForeignRow,
}

/// The name of a cause as it is printed.
fn name_of_cause(cause: Cause) -> &'static str
    ensures { result.now ≡ cause_name cause }
{
    match cause {
        Cause::ObjectBusy => "S1",
        Cause::EmptyName => "S2",
        Cause::IdUsed => "S3",
        Cause::UnknownInvocation => "S4",
        Cause::InvocationClosed => "S5",
        Cause::CompletionNotOpen => "S6",
        Cause::WrongKind => "S7",
        Cause::ReservedSignal => "S8",
        Cause::AttemptNotLive => "S9",
        Cause::UnsupportedVersion => "S10",
        Cause::BrokenPayload => "S11",
        Cause::NestedTooDeep => "S12",
        Cause::FrameNotAccepted => "S13",
        Cause::BadCompletion => "S14",
        Cause::InputNotClosed => "S15",
        Cause::InputRemains => "S16",
        Cause::InputAlreadyClosed => "S17",
        Cause::KeyNotText => "S18",
        Cause::RunNotOpen => "S22",
        Cause::NumbersUsedUp => "S23",
        Cause::PayloadTooLong => "S24",
    }
}

impl Refusal {
    /// The name as it is printed.
    pub fn name(self) -> &'static str
        ensures { result.now ≡ refusal_name_of self }
    {
        match self {
            Refusal::Cause(cause) => name_of_cause(cause),
            Refusal::StatementRefused(_) => "S19",
            Refusal::OutOfMemory => "S20",
            Refusal::ForeignRow => "S21",
        }
    }
}

impl From<AllocError> for Refusal {
    ghost from_gives = { λ _ refusal. refusal ≡ OutOfMemory };

    fn from(_error: AllocError) -> Refusal {
        Refusal::OutOfMemory
    }
}

impl<T: Drop> From<AllocFailed<T>> for Refusal {
    ghost from_gives = { λ _ refusal. refusal ≡ OutOfMemory };

    fn from(_error: AllocFailed<T>) -> Refusal {
        Refusal::OutOfMemory
    }
}

impl From<EncodingError> for Refusal {
    ghost from_gives = { λ error refusal. refusal ≡ encoding_refusal error };

    fn from(error: EncodingError) -> Refusal {
        match error {
            EncodingError::PayloadTooLong => Refusal::Cause(Cause::PayloadTooLong),
            EncodingError::OutOfMemory => Refusal::OutOfMemory,
        }
    }
}

impl From<Error> for Refusal {
    ghost from_gives = { λ error refusal. refusal ≡ StatementRefused error };

    fn from(error: Error) -> Refusal {
        Refusal::StatementRefused(error)
    }
}

impl From<ReadError> for Refusal {
    ghost from_gives = { λ error refusal. refusal ≡ reading_refusal error };

    fn from(error: ReadError) -> Refusal {
        match error {
            ReadError::Refused(cause) => Refusal::StatementRefused(cause),
            ReadError::Foreign => Refusal::ForeignRow,
            ReadError::OutOfMemory => Refusal::OutOfMemory,
        }
    }
}
