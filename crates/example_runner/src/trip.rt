//! A trip: two effects side by side, and one behind them.
ghost use Rattle.std.specs.Prelude.{◌≡◌};
ghost use Rattle.durable_schedule.specs.Straight as steps;
ghost use Rattle.example_runner.specs.Trip as travelling;

use durable_schedule::{ByteStr, Bytes, Calls, Told};

/// Has a flight and a room booked, notes that in the state of its object, and has a mail sent.
pub fn trip(calls: &mut Calls) -> Told<Bytes>
    ensures { steps.Makes travelling.trip calls.old result calls.new }
{
    let flight = calls.begin_run(ByteStr::from_static("flight"))?;
    let room = calls.begin_run(ByteStr::from_static("room"))?;
    let both = vec![in calls.alloc(); flight, room]?;
    let booked = calls.all(both)?;
    drop(booked);
    calls.set(ByteStr::from_static("booked"), Bytes::from_static(b"1"))?;
    calls.run(ByteStr::from_static("mail"))
}
