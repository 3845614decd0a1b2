//! Offers of suppliers, each of which is asked by an effect.
ghost use Rattle.std.specs.Prelude.{◌≡◌};
ghost use Rattle.straight_line.specs.Steps as steps;
ghost use Rattle.example_straight.specs.Offers as offering;

use bytes::{ByteStr, Bytes};
use journal_model::Input;
use straight_line::{Calls, StraightLine, Told};
use straight_values::{bytes_of, number_in};

/// Asks two suppliers of each of three parts, takes the first offer, and answers the sum, which its object's state follows.
#[derive(Debug, Drop)]
pub struct Offers;

/// The first of two offers. It fails where both are refused.
fn first_offer(calls: &mut Calls) -> Told<Bytes>
    ensures { steps.Makes offering.first_offer calls.old result calls.new }
{
    let near = calls.begin_run(ByteStr::from_static("near"))?;
    let far = calls.begin_run(ByteStr::from_static("far"))?;
    let both = vec![in calls.alloc(); near, far]?;
    calls.first_succeeded(both)
}

impl StraightLine for Offers {
    ghost use Rattle.example_straight.specs.Offers.{offers};

    ghost makes = { λ handler. offers };

    #[tactic(auto, using(straight_line::specs::Rounds::loops))]
    fn run(&self, input: &Input, calls: &mut Calls) -> Told<Bytes> {
        let mut total: u64 = 0;
        for part in 0..3u64 {
            let offer = first_offer(calls)?;
            total = total.saturating_add(number_in(&offer));
            let value = bytes_of(calls.alloc(), total)?;
            calls.set(ByteStr::from_static("total"), value)?;
        }
        Ok(bytes_of(calls.alloc(), total)?)
    }
}
