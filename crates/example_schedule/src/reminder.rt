//! A handler of one's own.
ghost use Rattle.durable_schedule.specs.Straight as steps;

use durable_schedule::{Bytes, Calls, Input, Moment, StraightLine, Told};

/// Sleeps until 10 ms, and then says that it is time.
#[derive(Debug, Drop)]
pub struct Reminder;

impl StraightLine for Reminder {
    ghost use Rattle.example_schedule.specs.Reminder.{reminder};

    ghost makes = { λ handler. reminder };

    fn run(&self, input: &Input, calls: &mut Calls) -> Told<Bytes> {
        calls.sleep_until(Moment::from_millis(10))?;
        Ok(Bytes::from_static(b"it is time"))
    }
}
