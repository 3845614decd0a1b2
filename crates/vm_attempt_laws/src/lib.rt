//! How an attempt over a machine stands to the live attempt of which the definitions speak: as it begins, as it is fed and closed, as
//! what it has written is taken, and behind its end; and what each of its turns comes to: the run goes on, waits, has ended, the body of a
//! run is executed, or the attempt has failed for a cause. Each function does nothing: its contract is the law.
//!
//! No law of turns speaks of a store: an attempt replays its journal (`replay_laws`), whoever feeds it, and any turns follow one another between any
//! cuts of its input. What a schedule does with the attempt of a store is one use of that; so is a host's, or a bench's.
//!
//! Each holds of every function that says what a handler of the type calls next: so also of a handler that nobody asks, where each call that it
//! makes comes from outside (`relay`).
//!
//! That signals wait in line, and that its messages are such as the protocol can carry, are premises. That a call is of its type is none:
//! the turn tells it. A schedule keeps what is said here of messages, and takes what is said of options as a premise of its own.
#![tactic(auto)]

ghost use Rattle.journal_model.specs.Run.{Handler};
ghost use Rattle.vm_attempt_laws.specs.AskedBodies.{AsksForOpen, OpenIsRecorded};
ghost use Rattle.vm_attempt_laws.specs.AttemptInvariants.{BeginsServing, ClosesServing, FeedsServing, InputsCome, OversStay, ProposesOnce, StaysServing, TakesServing};
ghost use Rattle.vm_attempt_laws.specs.HostedAttempt.{AttemptsFollow};
ghost use Rattle.vm_attempt_laws.specs.Laws.{OfEach};
ghost use Rattle.vm_attempt_laws.specs.TurnReports.{TurnsTell};
ghost use Rattle.vm_attempt_laws.specs.TurnsInRun.{TurnServes, TurnsAnswer, TurnsMatch};

use replay_laws::attempts_replay;
use vm_input_laws::{inputs_are_answered, inputs_are_kept, journals_are_read, starts_are_read};

/// A new attempt that is fed its start frame serves the live attempt that is begun so, or it has failed for want of memory.
pub fn attempts_begin<H>()
    ensures { (function : H → Handler) → OfEach (BeginsServing function) }
{
    starts_are_read();
}

/// More that it has asked for may be to come to it, and it may be handed the next bytes of that, in any cut.
pub fn inputs_come<H>()
    ensures { (function : H → Handler) → OfEach (InputsCome function) }
{
    attempts_replay();
}

/// It serves as well with more messages on their way to it, and other frames on their way from it.
pub fn events_keep<H>()
    ensures { (function : H → Handler) → OfEach (StaysServing function) }
{}

/// Fed the next bytes, in any cut, it reads the messages that have come whole, and serves the live attempt that has read those; or it has
/// failed for want of memory.
pub fn feeds_keep<H>()
    ensures { (function : H → Handler) → OfEach (FeedsServing function) }
{
    attempts_replay();
    journals_are_read();
    inputs_are_kept();
}

/// With its input closed it serves on, if its journal was read; else it fails, and tells so.
pub fn closes_keep<H>()
    ensures { (function : H → Handler) → OfEach (ClosesServing function) }
{}

/// Handing out what it has written changes nothing else.
pub fn takes_keep<H>()
    ensures { (function : H → Handler) → OfEach (TakesServing function) }
{}

/// An attempt that is over stays so, and writes nothing.
pub fn overs_stay<H>()
    ensures { (function : H → Handler) → OversStay function }
{}

/// No attempt executes the body of a run twice: it proposes one outcome for a completion at most.
pub fn attempts_run_once<H>()
    ensures { (function : H → Handler) → OfEach (ProposesOnce function) }
{}

/// Answered continues the run by one answer, or reads the input. RanBody has executed the body of a run that the run waits for, and proposes
/// its outcome. Waiting comes only where the journal was not read, or the run waits and more can come, for no body that is to be executed;
/// Suspended and Ended come where the run waits so or has ended, with exactly its requests, and are written. Failed has a cause, and tells
/// it, behind the requests by which a cancellation was passed on by then; the error of a machine is what the machine keeps, or there was no
/// memory for a copy. What was written are frames of the run.
pub fn turns_keep<H>()
    ensures { (function : H → Handler) → OfEach (TurnServes function) }
{
    attempts_replay();
    inputs_are_answered();
}

/// A turn fails with an internal error, for what is not supported, or by the body that it has executed: never since the journal is not that
/// of the run.
pub fn turns_never_mismatch<H>()
    ensures { (function : H → Handler) → OfEach (TurnsMatch function) }
{
    turns_keep::<H>();
}

/// With the journal read and the input closed each of any number of turns answers or executes a body, or the attempt is over.
pub fn turns_progress<H>()
    ensures { (function : H → Handler) → OfEach (TurnsAnswer function) }
{
    turns_keep::<H>();
}

/// Each turn tells where the run stands over the arrivals that have come to its attempt, by how many of its turns have answered before, and
/// what they have proposed.
pub fn turns_tell<H>()
    ensures { (function : H → Handler) → OfEach (TurnsTell function) }
{
    turns_keep::<H>();
}

/// The body of a run is asked for only where the run waits for it first of those that are to be executed; its run was asked for, and nothing has
/// come for it, read or not. So, where a store has recorded all that the attempt has written, the run's request is recorded, and no outcome of it.
pub fn bodies_are_asked<H>()
    ensures asks { (function : H → Handler) → OfEach (AsksForOpen function) }
    ensures recorded { OpenIsRecorded }
{
    attempts_replay();
}

/// An attempt of a host, without a store, follows the run of its handler, whatever bytes it is fed in whatever cuts, whenever its input is
/// closed, and whatever turns it makes between: each turn tells where the run stands over the arrivals that have come whole; each request that it
/// writes is a beginning of the run's over these, with all that was asked for before; and where it suspends or ends, all of the run's were
/// asked for. What the host feeds it has to be asked for by then.
pub fn attempts_follow_runs<H>()
    ensures { (function : H → Handler) → OfEach (AttemptsFollow function) }
{
    attempts_replay();
    attempts_begin::<H>();
    inputs_come::<H>();
    events_keep::<H>();
    feeds_keep::<H>();
    closes_keep::<H>();
    takes_keep::<H>();
    turns_keep::<H>();
    turns_tell::<H>();
    overs_stay::<H>();
}
