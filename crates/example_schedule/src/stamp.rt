//! A handler that keeps something in its object's state.
ghost use Rattle.durable_schedule.specs.Straight as steps;

use crate::values::stamped;
use durable_schedule::{ByteStr, Bytes, Calls, Input, StraightLine, Told};

/// Puts a stamp on the customer's card, and says how the card is then.
#[derive(Debug, Drop)]
pub struct Stamp;

impl StraightLine for Stamp {
    ghost use Rattle.example_schedule.specs.Stamp.{stamp};

    ghost makes = { λ handler. stamp };

    fn run(&self, input: &Input, calls: &mut Calls) -> Told<Bytes> {
        let before = calls.get(ByteStr::from_static("card"))?;
        let card = stamped(calls.alloc(), &before)?;
        calls.set(ByteStr::from_static("card"), card)?;
        Ok(stamped(calls.alloc(), &before)?)
    }
}
