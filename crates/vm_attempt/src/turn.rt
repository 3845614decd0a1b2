// What turns come to.
ghost use Rattle.std.specs.Prelude.{◌≡◌};
ghost use Rattle.vm_attempt.specs.TurnOutcomes.{again, ran_or_failed};

use journal_model::NotificationHandle;
use protocol_errors::Error;
use vm_start::out_of_memory;

/// What a turn of an attempt came to.
#[derive(Debug, Drop)]
pub enum Turn {
    /// The input was read, or a call was answered: there is another turn to make.
    Answered,
    /// The body of a run that the handler awaits was executed, and its outcome was proposed: there is another turn to make.
    RanBody,
    /// More input has to come, or what the handler awaits.
    Waiting,
    /// What the handler awaits has not come, and no more input does: the suspension was written.
    Suspended,
    /// The handler has ended, and the end was written.
    Ended,
    /// The attempt has failed, with this.
    Failed(Error),
}

/// What the first part of a turn has come to: all of it, but for the body of a run.
#[derive(Debug, Drop)]
pub enum Step {
    /// The turn is over.
    Turned(Turn),
    /// The body of this run is to be executed. `end_body` ends the turn, and until then nothing else is done with the attempt.
    Asks(NotificationHandle),
}

/// How an attempt is over, if not by an error of its machine.
#[derive(Clone, Copy, Debug, PartialEq, Eq)]
pub enum Finish {
    Suspended,
    Ended,
    /// Memory was refused to the attempt itself. Nothing is written of that.
    OutOfMemory,
}

/// What each turn comes to of an attempt that is over.
pub fn turn_again(finish: Finish) -> Turn
    ensures { result ≡ again finish }
{
    match finish {
        Finish::Suspended => Turn::Suspended,
        Finish::Ended => Turn::Ended,
        Finish::OutOfMemory => Turn::Failed(out_of_memory()),
    }
}

/// What a turn comes to that has proposed how a body has ended.
pub(crate) fn ran_or_failed(proposed: Result<(), Error>) -> Turn
    ensures { result ≡ ran_or_failed proposed }
{
    match proposed {
        Ok(()) => Turn::RanBody,
        Err(error) => Turn::Failed(error),
    }
}
