//! Laws of the definitions: each function does nothing, and its contract is the law. Below `proofs/` the worked examples of the
//! definitions are computed (the files named `..Rows`).
#![tactic(auto)]

ghost use Rattle.journal_model.specs.Cause.{AskingAccepts};
ghost use Rattle.journal_model.specs.Forgetting.{AllForget, HeadlineStays, WakingStays};
ghost use Rattle.journal_model.specs.Headline.{AllIsolated, StateFollows};
ghost use Rattle.journal_model.specs.Run.{ArrivalsExtend, CallsExtend};
ghost use Rattle.journal_model.specs.State.{AppliesOnce};
ghost use Rattle.journal_model.specs.PrunedTrees.{LeavingOutWidens, PruningKeeps};
ghost use Rattle.journal_laws.specs.Forgetting.{SeveralForget};

/// More arrivals and more calls only extend a run.
pub fn runs_extend()
    ensures by_arrivals { ArrivalsExtend }
    ensures by_calls { CallsExtend }
{}

/// What a suspension leaves out of its tree keeps it awake, and what it prunes changes nothing.
pub fn suspensions_wake()
    ensures leaving_out { LeavingOutWidens }
    ensures pruning { PruningKeeps }
{}

/// Requests that are applied once more to what they have made of an object's state change nothing.
/// While an invocation is open its requests alone have changed its object's state.
pub fn state_stands()
    ensures once { AppliesOnce }
    ensures follows { StateFollows }
{}

/// What is recorded of an invocation, and whether it is due, depends on its own events and the ticks.
pub fn invocations_isolated()
    ensures { AllIsolated }
{}

/// Whatever events are asked for, those that are kept were accepted.
pub fn events_accepted()
    ensures { AskingAccepts }
{}

/// Once an invocation is forgotten, or several are, all others stay as they were, and what is left of the events was accepted.
pub fn invocations_forgotten()
    ensures others { AllForget }
    ensures headline { HeadlineStays }
    ensures waking { WakingStays }
    ensures several { SeveralForget }
{}
