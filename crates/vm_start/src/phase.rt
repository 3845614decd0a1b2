// How far a machine has come.
ghost use Rattle.std.specs.Prelude.{◌≡◌, IfOk};
ghost use Rattle.vm_start.specs.Phases.{state_name, is_closed, state_error, closed_error, unexpected_error};

use bytes::ByteStr;
use protocol_errors::{ClosedError, Error, UnexpectedStateError, to_error};
use std::alloc::{AllocError, Global};

/// How far a machine has come. While calls are made of it, its attempt tells whether it replays.
#[derive(Debug, Drop)]
pub enum Phase {
    /// Its start has not come.
    WaitingStart,
    /// So many of the entries that its start has announced have not come.
    WaitingReplayEntries { left: u32 },
    /// Calls are made of it.
    Active,
    /// It has ended, or was suspended.
    Closed,
    /// It has failed. This is what each call is answered from then on.
    Failed(Error),
}

// The name that errors have for a state.
fn state_name(phase: &Phase, is_replaying: bool) -> &'static str
    ensures { result.now ≡ state_name phase.now is_replaying }
{
    match phase {
        Phase::WaitingStart => "WaitingStart",
        Phase::WaitingReplayEntries { .. } => "WaitingReplayEntries",
        Phase::Active => {
            if is_replaying {
                "Replaying"
            } else {
                "Processing"
            }
        }
        Phase::Closed => "Closed",
        Phase::Failed(_) => "Failed",
    }
}

// Whether the machine has ended, or was suspended.
fn is_closed(phase: &Phase) -> bool
    ensures { result ≡ is_closed phase.now }
{
    matches!(phase, Phase::Closed)
}

// The machine is in this state, which is none for it.
fn state_error(alloc: Global, state: &'static str, event: ByteStr) -> Result<Error, AllocError>
    ensures { IfOk result (λ error. error ≡ state_error state.now event) }
{
    to_error(alloc, &UnexpectedStateError::new(state, event))
}

// The machine is behind the end.
fn closed_error(alloc: Global, event: ByteStr) -> Result<Error, AllocError>
    ensures { IfOk result (λ error. error ≡ closed_error event) }
{
    to_error(alloc, &ClosedError::new(event))
}

/// Why what is told by `event` is not done in this phase.
pub fn unexpected(
    alloc: Global,
    phase: &Phase,
    is_replaying: bool,
    event: ByteStr,
) -> Result<Error, AllocError>
    ensures { IfOk result (λ error. error ≡ unexpected_error phase.now is_replaying event) }
{
    if is_closed(phase) {
        return closed_error(alloc, event);
    }
    state_error(alloc, state_name(phase, is_replaying), event)
}
