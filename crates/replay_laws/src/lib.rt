//! An attempt that replays a journal, whoever feeds it: a host, a bench that replays recorded handlers, or a store. What is known of it
//! between turns speaks of the journal, of what has come behind it, and of what the attempt has asked for, and of no store: so these laws
//! hold of any bytes of such a journal, in any cut, and any turns between them. The live attempt of a store is an instance, and stays one
//! where it is stopped or overtaken.
//!
//! With the bodies of its runs (`body_laws`) the live attempt's outcomes go to a store: nothing is recorded of a run but what its attempt has
//! proposed, and no outcome on its way is refused since its run is not open. The functions do nothing: their contracts are the laws.
#![tactic(auto)]

ghost use Rattle.replay_laws.specs.OutcomesInFlight.{OthersFollow, OutcomesAreNew, OutcomesAreOpen, OutcomesBegin, OutcomesStay};
ghost use Rattle.replay_laws.specs.AttemptWithBodies.{ExecutorsBegin, ExecutorsStayLive};
ghost use Rattle.replay_laws.specs.Outcomes.{OutcomesAreTaken};
ghost use Rattle.replay_laws.specs.Laws.{LivesReplay, LivesStay, ReplaysBegin, ReplaysStand, ReplaysStay, ReplaysTurn};

/// For a run nothing comes but what its attempt has proposed.
pub fn outcomes_are_taken()
    ensures { OutcomesAreTaken }
{}

/// What an attempt has proposed of its runs is recorded once, behind their requests, and is never refused since a run is not open.
pub fn outcomes_stand()
    ensures begins { OutcomesBegin }
    ensures stays { OutcomesStay }
    ensures sends { OutcomesAreNew }
    ensures others { OthersFollow }
    ensures opened { OutcomesAreOpen }
{}

/// The live attempt with the bodies of its runs: it is so as it begins, and whatever events bring and hand to it. As it reads, and behind its
/// turns, it is so since it replays its journal (`replay_laws`).
pub fn executors_live()
    ensures begins { ExecutorsBegin }
    ensures stays { ExecutorsStayLive }
{}

/// An attempt replays as it begins, as more is to come that it has asked for, as it is handed the next bytes, and as it reads; a turn leaves
/// it so, also one that executes the body of a run and proposes its outcome.
pub fn attempts_replay()
    ensures begins { ReplaysBegin }
    ensures stays { ReplaysStay }
    ensures stands { ReplaysStand }
    ensures turns { ReplaysTurn }
{}

/// So does the live attempt of a store; and where it replays as it reads and behind a turn, it is the live one still.
pub fn live_attempts_replay()
    ensures replays { LivesReplay }
    ensures stays { LivesStay }
{}
