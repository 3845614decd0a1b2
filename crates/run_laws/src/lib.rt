//! Laws of the one uninterrupted run: when it goes on over more arrivals or one more call, what it waits for and when that is awake, which keys
//! its object's state has; and the headline and the waking clauses, from what is known of each frame that the store took. The functions do
//! nothing: their contracts are the laws.
#![tactic(auto)]

ghost use Rattle.run_laws.specs.RunLaws.{CallsReplay, CompletionsAscend, RunsStay};
ghost use Rattle.run_laws.specs.WakingLaws.{AwaitsAreTold, PastWhereWoken, SuspensionsTell, WokenWherePast};
ghost use Rattle.run_laws.specs.Keys.{StartsAreOrdered, StartsHaveTextKeys, StatesAreOrdered, StatesHaveTextKeys};
ghost use Rattle.run_laws.specs.HeadlineLaws.{HeadlineStands, HoldsAtFirst, HoldsOfTaken, HoldsOn, OthersHold, RunsRecordTheSame, SuspensionsWake};
ghost use Rattle.run_laws.specs.SettledInvocations.{SettledRecordTheSame};

/// A run that does not wait is the same over more arrivals.
pub fn runs_stay()
    ensures { RunsStay }
{}

/// What the next call asks, and what is left of a journal to be replayed, begin alike.
pub fn calls_replay()
    ensures { CallsReplay }
{}

/// A request of a run asks for greater completions than all before it.
pub fn completions_ascend()
    ensures { CompletionsAscend }
{}

/// A suspension that tells what a run waits for is awake under later arrivals wherever the run goes past its await, and, where
/// suspensions tell trees, each handle stands for an id and nothing is cancelled, only there.
pub fn suspensions_wake_with_runs()
    ensures never_late { WokenWherePast }
    ensures exactly { PastWhereWoken }
{}

/// Which trees and lists tell what a run waits for.
pub fn suspensions_tell()
    ensures { SuspensionsTell }
{}

/// From the await at which a run waits to what its suspension has to tell.
pub fn awaits_are_told()
    ensures { AwaitsAreTold }
{}

/// The state of an object has each key once, the least first, and so has the state with which an invocation begins.
pub fn states_are_in_order()
    ensures states { StatesAreOrdered }
    ensures starts { StartsAreOrdered }
{}

/// Its keys are text, since no other key of a request is recorded.
pub fn keys_are_text()
    ensures states { StatesHaveTextKeys }
    ensures starts { StartsHaveTextKeys }
{}

/// It holds of an invocation that was not begun, and each accepted event keeps it, if what is taken of the invocation's attempts is of
/// the run. So it holds where every frame that was taken is of the run; and of each other once invocations are forgotten.
pub fn records_hold()
    ensures at_first { HoldsAtFirst }
    ensures on { HoldsOn }
    ensures of_taken { HoldsOfTaken }
    ensures of_others { OthersHold }
{}

/// Where it holds, the headline does.
pub fn headline_stands()
    ensures { HeadlineStands }
{}

/// Waking is never late; and it is exact where suspensions tell trees, each handle stands for an id and nothing was cancelled.
pub fn suspensions_wake()
    ensures { SuspensionsWake }
{}

/// What is recorded of a run that waits or has ended depends on its arrivals alone, and on no stop, cut of bytes or turn.
pub fn runs_record_the_same()
    ensures { RunsRecordTheSame }
{}

/// Two schedules of an invocation with the same run and equal arrivals in equal order record the same requests and the same answer, where
/// each has come as far as these arrivals lead: it has ended, or is suspended and was handed all of them.
pub fn settled_record_the_same()
    ensures { SettledRecordTheSame }
{}
