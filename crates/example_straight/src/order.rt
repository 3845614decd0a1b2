//! An order that is reserved, paid and confirmed, or given back.
ghost use Rattle.std.specs.Prelude.{◌≡◌};
ghost use Rattle.straight_line.specs.Steps as steps;
ghost use Rattle.example_straight.specs.Order as ordering;

use crate::values::{an_hour, not_paid};
use bytes::{ByteStr, Bytes};
use journal_model::Input;
use straight_line::{Calls, Stop, StraightLine, Told};
use straight_values::later;

/// Reserves what was ordered, has it paid, and waits for a confirmation until an hour is over. Where something fails, and where the
/// order is cancelled, what was done is undone, the last first.
///
/// Its input is the moment at which it is ordered, in milliseconds, as eight bytes. Its answer is the receipt.
#[derive(Debug, Drop)]
pub struct Order;

/// Has it paid, which is tried three times, a second apart.
#[tactic(auto, using(straight_line::specs::Rounds::loops))]
fn pay(input: &Input, calls: &mut Calls) -> Told<Bytes>
    ensures { steps.Makes (ordering.pay input.now) calls.old result calls.new }
{
    for attempt in 0..3 {
        let paid = calls.begin_run(ByteStr::from_static("pay"))?;
        match calls.result_of(paid)? {
            Ok(receipt) => return Ok(receipt),
            Err(_) => calls.sleep_until(later(&input.input, 1000 * (attempt + 1)))?,
        }
    }
    Err(Stop::Failed(not_paid(calls.alloc())))
}

/// Waits for the confirmation of what is paid. Without it the money is given back.
fn confirm(input: &Input, calls: &mut Calls) -> Told<Bytes>
    ensures { steps.Makes (ordering.confirm input.now) calls.old result calls.new }
{
    let confirmed = calls.begin_signal(ByteStr::from_static("confirmed"))?;
    match calls.or_timeout(confirmed, later(&input.input, an_hour())) {
        Err(Stop::Failed(failure)) => {
            calls.run(ByteStr::from_static("refund"))?;
            Err(Stop::Failed(failure))
        }
        other => other,
    }
}

fn pay_and_confirm(input: &Input, calls: &mut Calls) -> Told<Bytes>
    ensures { steps.Makes (ordering.pay_and_confirm input.now) calls.old result calls.new }
{
    let receipt = pay(input, calls)?;
    confirm(input, calls)?;
    Ok(receipt)
}

impl StraightLine for Order {
    ghost use Rattle.example_straight.specs.Order.{order};

    ghost makes = { λ handler. order };

    fn run(&self, input: &Input, calls: &mut Calls) -> Told<Bytes> {
        calls.run(ByteStr::from_static("reserve"))?;
        match pay_and_confirm(input, calls) {
            Err(Stop::Failed(failure)) => {
                calls.run(ByteStr::from_static("release"))?;
                Err(Stop::Failed(failure))
            }
            other => other,
        }
    }
}
