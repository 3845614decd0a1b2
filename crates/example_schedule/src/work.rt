//! The handlers of this program as one type: a scheduler has one type of handlers, and its code is made for each such type anew.
ghost use Rattle.durable_schedule.specs.Straight as steps;

use crate::every_call::EveryCall;
use crate::payment::Payment;
use crate::reminder::Reminder;
use crate::stamp::Stamp;
use durable_schedule::{Bytes, Calls, Input, Straight, StraightLine, Told};
use std::alloc::Global;

/// A handler of this program.
#[derive(Drop)]
pub enum Work {
    Reminder(Reminder),
    Stamp(Stamp),
    Payment(Payment),
    EveryCall(EveryCall),
}

impl StraightLine for Work {
    ghost use Rattle.example_schedule.specs.Work.{steps_of};

    ghost makes = { steps_of };

    fn run(&self, input: &Input, calls: &mut Calls) -> Told<Bytes> {
        match self {
            Work::Reminder(reminder) => reminder.run(input, calls),
            Work::Stamp(stamp) => stamp.run(input, calls),
            Work::Payment(payment) => payment.run(input, calls),
            Work::EveryCall(every_call) => every_call.run(input, calls),
        }
    }
}

/// As a scheduler takes it.
pub fn straight(alloc: Global, handler: Work) -> Straight<Work> {
    Straight { alloc, handler }
}
