//! Which accepted events can calls bring, and can what is recorded of them be told to an attempt? Laws over lists of events of which each
//! fits: their numbers are within their types, their texts are UTF-8, and what an attempt asks for is recorded.
//!
//! What schedules keep of each invocation, and what they leave: its records are those of the one uninterrupted run of its handler. An
//! invocation in its run is what is recorded of it, what is on its way from its live attempt, and where that attempt stands; what each kind
//! of event keeps of that follows from what an attempt keeps that serves a live attempt. The functions do nothing: their contracts are the
//! laws.
#![tactic(auto)]

ghost use Rattle.schedule_laws.specs.EntryPlaces.{EntriesKeepPlaces};
ghost use Rattle.schedule_laws.specs.HandedInput.{HandsOutInput};
ghost use Rattle.schedule_laws.specs.FrameSoundness.{NoneLieInFrames};
ghost use Rattle.schedule_laws.specs.FittingLaws.{AttemptsAreFedWell, AttemptsCanStart, MessagesMayCome};
ghost use Rattle.schedule_laws.specs.Isolation.{AllAnswerAlone, AllKeepState, AllReplyAlike, AllStandAlone};
ghost use Rattle.schedule_laws.specs.Laws.{FollowsHolds, ForgettingKeeps, FramesAreTaken, HoldsClosed, HoldsFollows, HoldsHeadline, HoldsNeverLate, HoldsTold, HoldsWakesExactly, KeptByEach, LeavesHolds, LettingGoKeeps, NoneRefused, ToldByEach};
ghost use Rattle.schedule_laws.specs.SettledOnce.{SettledOnceTheSame};

use journal_laws::invocations_isolated;
use journal_model::Handler;
use replay_laws::{executors_live, live_attempts_replay};
use vm_attempt_laws::{
    attempts_begin, closes_keep, events_keep, feeds_keep, overs_stay, takes_keep, turns_keep,
    turns_tell,
};

/// What an event brings to the live attempt can be told to it.
pub fn messages_come_well()
    ensures { MessagesMayCome }
{}

/// What an attempt is begun with can be told to it.
pub fn attempts_are_fed_well()
    ensures { AttemptsAreFedWell }
{}

/// It can begin with its start frame.
pub fn attempts_can_start()
    ensures { AttemptsCanStart }
{}

/// What an attempt was handed is a beginning of its input, the journal and then each later arrival by place, and all of it where nothing
/// is left.
pub fn inputs_are_handed_out()
    ensures { HandsOutInput }
{}

/// An entry that is recorded keeps its place, and is never changed or removed, whatever is accepted behind it.
pub fn entries_keep_places()
    ensures { EntriesKeepPlaces }
{}

/// What is recorded of an invocation that was settled once depends on its run and its arrivals alone: one that has ended, or of which an
/// attempt was suspended that had been handed all that is recorded, also where another attempt was begun since.
pub fn settled_once_record_the_same()
    ensures { SettledOnceTheSame }
{}

/// A frame of the run that asks for what a store records, by keys that are text, is refused for no cause that lies in the frame: its
/// payload can be read, its type is accepted, its completions ascend, its input is closed where it suspends, its keys are text, and a run
/// whose outcome it proposes is open.
pub fn none_lie_in_frames()
    ensures { NoneLieInFrames }
{}

/// Each event keeps an invocation in its run, whatever is stopped, overtaken or refused, and no frame of it is refused for a cause that
/// lies in the frame. What each reply to a turn says of an attempt is what the run does, over the bytes that this attempt was handed: of a
/// live one, of one that was stopped or overtaken, and of one that is over. It writes whole frames by that, and what is moved of it is the
/// beginning of what it has written and was not moved.
pub fn schedules_keep<H: Handler>()
    ensures begins { HoldsFollows H.next_call }
    ensures begins_told { HoldsTold H.next_call }
    ensures told { ToldByEach H.next_call }
    ensures each { KeptByEach H.next_call }
    ensures holds { FollowsHolds H.next_call }
    ensures frames { NoneRefused H.next_call }
{
    executors_live();
    live_attempts_replay();
    attempts_begin::<H>();
    events_keep::<H>();
    feeds_keep::<H>();
    closes_keep::<H>();
    takes_keep::<H>();
    turns_keep::<H>();
    turns_tell::<H>();
    overs_stay::<H>();
}

/// Letting go of attempts keeps an invocation in its run, and so does forgetting others. One that is forgotten is one that was not begun yet.
pub fn forgetting_keeps<H: Handler>()
    ensures let_go { LettingGoKeeps H.next_call }
    ensures forgotten { ForgettingKeeps H.next_call }
{}

/// So a schedule leaves, of each invocation whose begins all bring one function, what the next one needs.
pub fn schedules_leave<H: Handler>()
    ensures { LeavesHolds H.next_call }
{
    schedules_keep::<H>();
}

/// Nor does it refuse a frame of such an invocation for a cause that lies in the frame.
pub fn frames_are_taken<H: Handler>()
    ensures { FramesAreTaken H.next_call }
{
    schedules_keep::<H>();
}

/// That is the headline, that such an invocation is closed by its end alone, and that waking is never late and, from version 7 on, exact.
pub fn records_of_runs()
    ensures headline { HoldsHeadline }
    ensures closed { HoldsClosed }
    ensures never_late { HoldsNeverLate }
    ensures wakes_exactly { HoldsWakesExactly }
{}

/// What stands of an invocation, its answer too, depends on its own events, the ticks and its object's state at its start. So does its
/// object's state while it is open, and why one more event of its own is refused.
pub fn invocations_stand_alone()
    ensures stand { AllStandAlone }
    ensures state { AllKeepState }
    ensures answer { AllAnswerAlone }
{
    invocations_isolated();
}

/// So the replies to its own events depend on the same.
pub fn replies_alike()
    ensures { AllReplyAlike }
{}
