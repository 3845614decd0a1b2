//! What a new machine that is told its attempt's start and input, in any cut of their bytes, keeps of them, and what it is to the abstract
//! machine. An acknowledgement of a run's outcome is fed only where that outcome was kept, and behind the journal; else the machine fails.
//! Each function does nothing: its contract is the law.
#![tactic(auto)]

ghost use Rattle.vm_input_laws.specs.Arrivals.{ArrivalsReadBack};
ghost use Rattle.vm_input_laws.specs.Messages.{MessagesAreKept};
ghost use Rattle.vm_input_laws.specs.FirstFrames.{InputsReadBack, StartsReadBack};
ghost use Rattle.vm_input_laws.specs.MachineStart.{StartsAreKept};
ghost use Rattle.vm_input_laws.specs.InputMessages.{FailedMachinesStay, InputsAreKept, NoArrivalIsHeld};
ghost use Rattle.vm_input_laws.specs.InputAnswers.{InputsAreRead};
ghost use Rattle.vm_input_laws.specs.Laws.{ArrivalsAreRead, AttemptsBegin, InputsAreAnswered, JournalsAreRead, StartsAreRead};

use vm_machine::{calls_follow_the_input, entries_are_gathered, starts_begin_attempts};

/// A machine that is fed an arrival's frame, as the notification that completes what a recorded request asked for, is handed that arrival.
pub fn arrivals_read_back()
    ensures { ArrivalsReadBack }
{}

/// A machine that is fed a start's frame and the input's is handed this start, with the state that the run is shown, and this input.
pub fn beginnings_read_back()
    ensures start { StartsReadBack }
    ensures input { InputsReadBack }
{}

/// Of a message of its input a machine keeps what the abstract machine keeps, or it fails for want of memory.
pub fn messages_are_kept()
    ensures { MessagesAreKept }
{
    entries_are_gathered();
}

/// A machine that waits for its start stands, once it has taken it, as the abstract machine stands at that start, or it fails for want
/// of memory.
pub fn starts_are_kept()
    ensures { StartsAreKept }
{
    starts_begin_attempts();
}

/// Of the messages of its input, in any cut of their bytes, a machine keeps what the abstract machine keeps of those that have come
/// whole, and the bytes of the others; or it fails for want of memory. What it keeps of runs stays what the bodies of the attempt are,
/// where each outcome that is acknowledged was kept.
pub fn inputs_are_kept()
    ensures { InputsAreKept }
{
    messages_are_kept();
}

/// A machine that has failed takes bytes and stays failed with the same error.
pub fn failed_machines_stay()
    ensures { FailedMachinesStay }
{}

/// Where no whole message is held, no arrival's is.
pub fn no_arrival_is_held()
    ensures { NoArrivalIsHeld }
{}

/// A machine that waits for its start reads it and the messages behind it, as many as have come whole, or it fails for want of memory.
pub fn starts_are_read()
    ensures { StartsAreRead }
{
    starts_are_kept();
    messages_are_kept();
}

/// One that has its start reads on, through its journal and behind it.
pub fn journals_are_read()
    ensures { JournalsAreRead }
{
    messages_are_kept();
}

/// One whose input was read reads the arrivals that come.
pub fn arrivals_are_read()
    ensures { ArrivalsAreRead }
{
    messages_are_kept();
}

/// A machine that has kept its start and the recorded entries answers its input as these tell it, and calls see what came behind the
/// input; or it fails for want of memory.
pub fn inputs_are_read()
    ensures { InputsAreRead }
{
    calls_follow_the_input();
}

/// One that has read its journal answers the input of its run, and calls see the abstract machine with all that was read.
pub fn inputs_are_answered()
    ensures { InputsAreAnswered }
{
    inputs_are_read();
}

/// So a new machine that was told its start, its journal and arrivals in any cut, and is asked for its input, stands as the abstract
/// machine stands at its start, with all requests and arrivals; or it has failed for want of memory.
pub fn attempts_begin()
    ensures { AttemptsBegin }
{
    starts_are_read();
    inputs_are_answered();
}
