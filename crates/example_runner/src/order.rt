//! An order: what is done is undone where a later step fails.
ghost use Rattle.std.specs.Prelude.{◌≡◌};
ghost use Rattle.durable_schedule.specs.Straight as steps;
ghost use Rattle.example_runner.specs.Order as ordering;

use durable_schedule::values::later;
use durable_schedule::{ByteStr, Bytes, Calls, Input, Stop, Told};

/// Waits for the confirmation of what is paid, for half a second. Without it the money is given back.
fn confirm(input: &Input, calls: &mut Calls) -> Told<Bytes>
    ensures { steps.Makes (ordering.confirm input.now) calls.old result calls.new }
{
    let confirmed = calls.begin_signal(ByteStr::from_static("confirmed"))?;
    match calls.or_timeout(confirmed, later(&input.input, 500)) {
        Err(Stop::Failed(failure)) => {
            calls.run(ByteStr::from_static("refund"))?;
            Err(Stop::Failed(failure))
        }
        other => other,
    }
}

/// Has the order paid, and confirmed. It answers the receipt.
fn pay(input: &Input, calls: &mut Calls) -> Told<Bytes>
    ensures { steps.Makes (ordering.pay input.now) calls.old result calls.new }
{
    let receipt = calls.run(ByteStr::from_static("pay"))?;
    confirm(input, calls)?;
    Ok(receipt)
}

/// Reserves what is ordered in the state of its object, and has it paid and confirmed. Where that fails, and where the order is
/// cancelled, nothing is reserved any more.
pub fn order(input: &Input, calls: &mut Calls) -> Told<Bytes>
    ensures { steps.Makes (ordering.order input.now) calls.old result calls.new }
{
    calls.set(ByteStr::from_static("reserved"), Bytes::from_static(b"1"))?;
    match pay(input, calls) {
        Err(Stop::Failed(failure)) => {
            calls.clear(ByteStr::from_static("reserved"))?;
            Err(Stop::Failed(failure))
        }
        other => other,
    }
}
