//! The values of an order.
ghost use Rattle.std.specs.Prelude.{◌≡◌};
ghost use Rattle.example_straight.specs.Values as values;

use bytes::ByteStr;
use journal_model::TerminalFailure;
use sequence::Sequence;
use std::alloc::Global;

/// How long an order waits for its confirmation, in milliseconds.
pub fn an_hour() -> u64
    ensures { result ≡ values.an_hour }
{
    3_600_000
}

/// What an order fails with whose payment was refused as often as it was tried.
#[tactic(auto, unfolding(crate::specs::Values::not_paid))]
pub fn not_paid(alloc: Global) -> TerminalFailure
    ensures { result ≡ values.not_paid }
{
    TerminalFailure {
        code: 402,
        message: ByteStr::from_static("not paid"),
        metadata: Sequence::new(alloc),
    }
}
