//! An attempt that replays answers as the one run of its handler: laws over a machine without bytes. What has come, what handles stand for
//! and the answer of each call are what the definitions of the run say. Each function does nothing, and its contract is the law. Worked rows
//! are computed in `proofs/MachineRows.antt`.
//!
//! What an attempt is fed has to fit: the recorded requests are a prefix of the run's, signals wait in line, and each completion comes once.
//! At each call what has come is of its kind, by the calls that were made so far: an invocation id for a child that a cancellation is passed
//! on to, and text for keys that are taken. These are premises of `calls_simulate` and `attempts_follow`; `awaits_resolve` asks nothing of
//! what comes.
#![tactic(auto)]

ghost use Rattle.attempt_model.specs.Attempts.{AttemptsFollow, KindsByAsking, OnceByAsking, ReadsJournal};
ghost use Rattle.attempt_model.specs.Simulation.{BeginsStanding, FirstAsksResolve, FitsOn, ReadsStanding, Simulates, StopsWithRun};

/// The machine stands to the run before its first call, and where one more arrival is read; more arrivals fit too.
pub fn attempts_stand()
    ensures begins { BeginsStanding }
    ensures reads { ReadsStanding }
    ensures fits { FitsOn }
{}

/// Each call is answered as the run over the arrivals read answers it, waits and ends where the run does, and matches and writes its requests.
/// Where one is stopped midway, what was recorded and what was written are a beginning of the run's requests.
pub fn calls_simulate()
    ensures answers { Simulates }
    ensures stops { StopsWithRun }
{}

/// A whole attempt, in any number of turns between any arrivals, follows the run over what it has read, whatever part of it was recorded.
pub fn attempts_follow()
    ensures journal { ReadsJournal }
    ensures follows { AttemptsFollow }
{}

/// Where what has come came once and was asked for, no known read has a number of what has come: the premise of the other laws.
pub fn completions_come_once()
    ensures { OnceByAsking }
{}

/// Of arrivals of the kinds that a store lets in, what comes for a child is its invocation id, and keys that are taken are text: a premise of
/// the other laws.
pub fn kinds_come_as_asked()
    ensures { KindsByAsking }
{}

/// An await that is asked for the first time wakes where the definitions say, or what is left of it is what the run waits for, also where
/// signals overwrite one another.
pub fn awaits_resolve()
    ensures { FirstAsksResolve }
{}
