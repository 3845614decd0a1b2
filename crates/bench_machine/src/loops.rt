//! Handlers that make the same calls again and again.
ghost use Rattle.straight_line.specs.Steps as steps;

use bytes::{ByteStr, Bytes};
use journal_model::{Input, Moment};
use straight_line::{Calls, StraightLine, Told};

/// Sleeps, a million times.
#[derive(Debug, Drop)]
pub struct Sleeps;

/// Has something done outside, a million times.
#[derive(Debug, Drop)]
pub struct Effects;

impl StraightLine for Sleeps {
    ghost use Rattle.bench_machine.specs.Loops.{sleeps};

    ghost makes = { λ handler. sleeps };

    #[tactic(auto, using(straight_line::specs::Rounds::loops))]
    fn run(&self, input: &Input, calls: &mut Calls) -> Told<Bytes> {
        for sleep in 0..1_000_000 {
            calls.sleep_until(Moment::from_millis(sleep))?;
        }
        Ok(Bytes::new())
    }
}

impl StraightLine for Effects {
    ghost use Rattle.bench_machine.specs.Loops.{effects};

    ghost makes = { λ handler. effects };

    #[tactic(auto, using(straight_line::specs::Rounds::loops))]
    fn run(&self, input: &Input, calls: &mut Calls) -> Told<Bytes> {
        for effect in 0..1_000_000u64 {
            calls.run(ByteStr::from_static("pay"))?;
        }
        Ok(Bytes::new())
    }
}
