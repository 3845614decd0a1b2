//! A handler that sleeps again and again.
ghost use Rattle.straight_line.specs.Steps as steps;

use bytes::{ByteStr, Bytes};
use journal_model::Input;
use straight_line::{Calls, StraightLine, Told};
use straight_values::{later, text_of};

/// Sleeps five times for a tenth of a second, counts that in the state of its object, and says that it is over.
///
/// Its input is the moment at which it begins, in milliseconds, as eight bytes.
#[derive(Debug, Drop)]
pub struct Rounds;

impl StraightLine for Rounds {
    ghost use Rattle.example_straight.specs.Rounds.{rounds};

    ghost makes = { λ handler. rounds };

    #[tactic(auto, using(straight_line::specs::Rounds::loops))]
    fn run(&self, input: &Input, calls: &mut Calls) -> Told<Bytes> {
        for round in 0..5 {
            calls.sleep_until(later(&input.input, 100 * (round + 1)))?;
            let value = text_of(calls.alloc(), round + 1)?;
            calls.set(ByteStr::from_static("rounds"), value)?;
        }
        Ok(Bytes::from_static(b"5 rounds"))
    }
}
