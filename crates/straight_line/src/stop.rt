//! Why straight-line code is left before its end.
ghost use Rattle.std.specs.Prelude.{◌≡◌};
ghost use Rattle.straight_line.specs.Calls as told;
ghost use Rattle.straight_line.specs.Everyday as everyday;

use bytes::ByteStr;
use journal_model::{Call, PayloadOptions, TerminalFailure};
use sequence::Sequence;
use std::alloc::{AllocError, AllocFailed, Global};

/// Why straight-line code is left before its end. `?` passes it on. It is not let go: what is told is looked at or passed on.
pub enum Stop {
    /// This call has no answer yet: it is the handler's next one.
    Call(Call),
    /// The invocation fails, unless the handler catches it.
    Failed(TerminalFailure),
    /// A call has an answer of another kind than it can have. The invocation fails with 500, and nothing catches it.
    Astray,
    /// Memory was refused. The next time the same code is executed.
    NoMemory,
}

/// What straight-line code comes to.
pub type Told<T> = Result<T, Stop>;

/// For an answer of another kind than its call can have.
pub fn astray() -> Stop
    ensures { result ≡ Stop.Astray }
{
    Stop::Astray
}

/// What an await fails with that a cancellation has ended.
#[tactic(auto, unfolding(crate::specs::Calls::cancelled))]
pub fn cancelled(alloc: Global) -> TerminalFailure
    ensures { result ≡ told.cancelled }
{
    TerminalFailure {
        code: 409,
        message: ByteStr::from_static("cancelled"),
        metadata: Sequence::new(alloc),
    }
}

pub(crate) fn stable() -> PayloadOptions
    ensures { result ≡ everyday.stable }
{
    PayloadOptions {
        unstable_serialization: false,
    }
}

impl From<AllocError> for Stop {
    ghost use Rattle.straight_line.specs.declared.stop.Stop.{Stop};

    ghost from_gives = { λ error stop. stop ≡ Stop.NoMemory };

    fn from(_error: AllocError) -> Stop {
        Stop::NoMemory
    }
}

impl<T: Drop> From<AllocFailed<T>> for Stop {
    ghost use Rattle.straight_line.specs.declared.stop.Stop.{Stop};

    ghost from_gives = { λ refused stop. stop ≡ Stop.NoMemory };

    fn from(_refused: AllocFailed<T>) -> Stop {
        Stop::NoMemory
    }
}

impl From<TerminalFailure> for Stop {
    ghost use Rattle.straight_line.specs.declared.stop.Stop.{Stop};

    ghost from_gives = { λ failure stop. stop ≡ Stop.Failed failure };

    fn from(failure: TerminalFailure) -> Stop {
        Stop::Failed(failure)
    }
}
