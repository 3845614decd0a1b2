//! Which records a store keeps of the events that it accepted, and what is found among them: the writes of each accepted event lead from the
//! records kept before it to those kept after it, and each question of a key has one answer, which the events decide. Each function does
//! nothing: its contract is the law.
#![tactic(auto)]

ghost use Rattle.store_model.specs.Forgetting.{KeptWithout};
ghost use Rattle.store_model.specs.Writes.{KeptAfter, KeptAtFirst, KeptInAnyOrder};
ghost use Rattle.store_model.specs.Steps.{ProgressFollows, ProgressTicks};
ghost use Rattle.store_model.specs.Lookups.{AllAnswerOnce, AllArrivalsFound, AllAskOnce, AllEndedFound, AllFind, AllFrames, AllOpenOnce, SleepsKeptAfter};

/// Of no events there are no records, and each accepted event writes what is missing: nothing else changes, of this invocation or
/// of another. What a tick writes of several invocations may be written in any order. Without the rows of some invocations they are those
/// of what is left of the events.
pub fn records_kept()
    ensures at_first { KeptAtFirst }
    ensures after { KeptAfter }
    ensures in_any_order { KeptInAnyOrder }
    ensures without { KeptWithout }
{}

/// What is kept of an invocation after an event is computed from what was kept before it.
pub fn progress_follows()
    ensures by_own_events { ProgressFollows }
    ensures by_ticks { ProgressTicks }
{}

/// An invocation is found by its id, an entry by its place and a value by its key, and no second one.
pub fn records_found()
    ensures { AllFind }
{}

/// The open invocation of an object is found exactly where the object is busy, and no second one.
pub fn open_invocations_found()
    ensures { AllOpenOnce }
{}

/// The request that asks for a completion is found, whether it does so first or second, and no other one.
pub fn requests_found()
    ensures { AllAskOnce }
{}

/// The arrival that answers a completion is found exactly where the completion is no longer awaited, and no second one.
pub fn answers_found()
    ensures { AllAnswerOnce }
{}

/// What an attempt that is begun is handed is read off the rows of its journal, by their kinds and payloads.
pub fn frames_found()
    ensures { AllFrames }
{}

/// An arrival is found by its ordinal, and no second one, and so are all behind so many, in the order in which they came.
pub fn arrivals_found()
    ensures { AllArrivalsFound }
{}

/// The rows of an invocation's sleeps are those of its open sleeps, and those that are due are the ones that a tick ends.
pub fn sleeps_found()
    ensures open { SleepsKeptAfter }
    ensures ended { AllEndedFound }
{}
