//! A counter that is kept in the state of its object.
ghost use Rattle.straight_line.specs.Steps as steps;

use bytes::{ByteStr, Bytes};
use journal_model::Input;
use straight_line::{Calls, StraightLine, Told};
use straight_values::{bytes_of, count_of};

/// Adds one to its object's count, and answers it, as eight bytes.
#[derive(Debug, Drop)]
pub struct Counter;

impl StraightLine for Counter {
    ghost use Rattle.example_straight.specs.Counter.{counter};

    ghost makes = { λ handler. counter };

    fn run(&self, input: &Input, calls: &mut Calls) -> Told<Bytes> {
        let before = calls.get(ByteStr::from_static("count"))?;
        let count = count_of(&before).saturating_add(1);
        let value = bytes_of(calls.alloc(), count)?;
        calls.set(ByteStr::from_static("count"), value)?;
        Ok(bytes_of(calls.alloc(), count)?)
    }
}
