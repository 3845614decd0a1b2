//! The handler of each invocation.
ghost use Rattle.durable_schedule.specs.Straight as steps;

use crate::order::order;
use crate::rounds::rounds;
use crate::trip::trip;
use durable_schedule::{Bytes, Calls, Input, StraightLine, Told};

/// A job, an order or a trip, by the name of its handler, which is recorded with it. Its input is the moment at which it begins, in
/// milliseconds, as eight bytes.
#[derive(Debug, Drop)]
pub struct Job;

impl StraightLine for Job {
    ghost use Rattle.example_runner.specs.Job.{job};

    ghost makes = { λ handler. job };

    fn run(&self, input: &Input, calls: &mut Calls) -> Told<Bytes> {
        if input.is_for("order") {
            order(input, calls)
        } else if input.is_for("trip") {
            trip(calls)
        } else {
            rounds(input, calls)
        }
    }
}
