//! A straight-line handler is a handler.
ghost use Rattle.std.specs.Prelude.{◌≡◌};
ghost use Rattle.journal_model.specs.Notification.{Bytes};
ghost use Rattle.journal_model.specs.declared.handler.Input.{Input};
ghost use Rattle.straight_line.specs.Steps as steps;
ghost use Rattle.straight_line.specs.Steps.{Steps};

use crate::calls::Calls;
use crate::stop::{Stop, Told};
use bytes::{ByteStr, Bytes};
use journal_model::{Answer, Call, Handler, Input, NonEmptyValue, PayloadOptions, TerminalFailure};
use sequence::Sequence;
use std::alloc::{AllocError, Global};

/// A handler whose code is executed from its top at each turn.
///
/// `makes` is what it does, as steps. It puts out the value that it comes to, or the failure, and ends.
pub trait StraightLine {
    ghost makes: { Self → Input → Steps Bytes };

    fn run(&self, input: &Input, calls: &mut Calls) -> Told<Bytes>
        ensures { steps.Makes (makes self.now input.now) calls.old result calls.new };
}

/// The handler that a straight-line one is.
#[derive(Drop)]
pub struct Straight<H> {
    pub alloc: Global,
    pub handler: H,
}

fn ending(calls: &Calls, value: NonEmptyValue) -> Call
    ensures { result ≡ steps.ending value calls.now }
{
    if calls.is_at_end() {
        Call::Output {
            value,
            options: PayloadOptions {
                unstable_serialization: false,
            },
        }
    } else {
        Call::End
    }
}

#[tactic(auto, unfolding(crate::specs::Steps::went_astray))]
fn went_astray(alloc: Global) -> TerminalFailure
    ensures { result ≡ steps.went_astray }
{
    TerminalFailure {
        code: 500,
        message: ByteStr::from_static("an answer of another kind"),
        metadata: Sequence::new(alloc),
    }
}

impl<H: StraightLine> Handler for Straight<H> {
    ghost use Rattle.straight_line.specs.Steps.{next_of};

    ghost next_call = { λ straight input. next_of (H.makes straight.handler input) };

    fn next(&self, input: &Input, answers: &[Answer]) -> Result<Call, AllocError> {
        let mut calls = Calls::new(self.alloc, answers);
        match self.handler.run(input, &mut calls) {
            Ok(value) => Ok(ending(&calls, NonEmptyValue::Success(value))),
            Err(Stop::Call(call)) => Ok(call),
            Err(Stop::Failed(failure)) => Ok(ending(&calls, NonEmptyValue::Failure(failure))),
            Err(Stop::Astray) => Ok(ending(
                &calls,
                NonEmptyValue::Failure(went_astray(self.alloc)),
            )),
            Err(Stop::NoMemory) => Err(AllocError),
        }
    }
}
