//! A job that sleeps again and again.
ghost use Rattle.std.specs.Prelude.{◌≡◌};
ghost use Rattle.durable_schedule.specs.Straight as steps;
ghost use Rattle.example_runner.specs.Rounds as rounding;

use durable_schedule::values::{later, text_of};
use durable_schedule::{ByteStr, Bytes, Calls, Input, Told};

/// Sleeps five times for a tenth of a second, counts that in the state of its object, and says that it is over.
#[tactic(auto, using(durable_schedule::specs::Straight::loops))]
pub fn rounds(input: &Input, calls: &mut Calls) -> Told<Bytes>
    ensures { steps.Makes (rounding.rounds input.now) calls.old result calls.new }
{
    for round in 0..5 {
        calls.sleep_until(later(&input.input, 100 * (round + 1)))?;
        let value = text_of(calls.alloc(), round + 1)?;
        calls.set(ByteStr::from_static("rounds"), value)?;
    }
    Ok(Bytes::from_static(b"5 rounds"))
}
