//! A handler that makes every call that asks for something and waits for nothing.
ghost use Rattle.std.specs.Prelude.{◌≡◌};
ghost use Rattle.durable_schedule.specs.Straight as steps;
ghost use Rattle.example_schedule.specs.EveryCall as every;

use crate::values::{one, options, other, service};
use durable_schedule::{ByteStr, Bytes, Calls, Input, StraightLine, Told};

/// Makes these calls, one after the other, and ends.
#[derive(Debug, Drop)]
pub struct EveryCall;

/// Those about the state of its object.
fn keep(calls: &mut Calls) -> Told<()>
    ensures { steps.Makes every.keep calls.old result calls.new }
{
    calls.begin_get(ByteStr::from_static("k"), None, options())?;
    calls.begin_get_keys(None)?;
    calls.set(ByteStr::from_static("k"), Bytes::from_static(b"1"))?;
    calls.clear(ByteStr::from_static("k"))?;
    calls.clear_all()
}

/// Those that somebody else completes, or that complete what somebody waits for.
fn complete(calls: &mut Calls) -> Told<()>
    ensures { steps.Makes every.complete calls.old result calls.new }
{
    calls.begin_run(ByteStr::from_static("n"))?;
    calls.send(service(calls.alloc()), Bytes::new())?;
    calls.complete_awakeable(ByteStr::from_static("a"), one(), options())?;
    calls.complete_signal(ByteStr::from_static("i"), ByteStr::from_static("n"), one())?;
    calls.begin_promise(ByteStr::from_static("k"))?;
    calls.begin_peek_promise(ByteStr::from_static("k"))?;
    calls.begin_complete_promise(ByteStr::from_static("k"), one(), options())?;
    Ok(())
}

impl StraightLine for EveryCall {
    ghost use Rattle.example_schedule.specs.EveryCall.{every_call};

    ghost makes = { λ handler. every_call };

    fn run(&self, input: &Input, calls: &mut Calls) -> Told<Bytes> {
        keep(calls)?;
        complete(calls)?;
        calls.cancel(ByteStr::from_static("i"))?;
        calls.begin_attach(other())?;
        calls.begin_get_output(other())?;
        Ok(Bytes::from_static(b"1"))
    }
}
