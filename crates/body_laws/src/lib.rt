//! The body of a run is the host's own code: a handler's call `Run` leaves it to be executed once, and what it comes to is recorded as the
//! run's outcome. An executor is the machine of an attempt with such bodies beside it: those that are left to execute, those that are being
//! executed, and the outcomes that are to be acknowledged. These laws say that it answers as the run of its handler does, executes no body
//! twice, and waits for none that it could execute. Each function does nothing, and its contract is the law. Worked rows are computed in
//! `proofs/BodyRows.antt`.
#![tactic(auto)]

ghost use Rattle.body_laws.specs.Laws.{AttemptsFollowWithBodies, BodiesAreRequested, BodiesBegin, BodiesRead, CallsSimulate, ClosedTurnsProgress, OthersAreRefused, OutcomesAreProposed, OutcomesCome, ProposesOnce, SuspensionsLeaveNone, TurnsTell};

/// The bodies stand before the first call, and where one more arrival is read; an outcome that was proposed comes as it was cached, once it
/// is acknowledged, and no other acknowledgement is taken; and a body that is being executed may propose one.
pub fn bodies_stand()
    ensures begins { BodiesBegin }
    ensures reads { BodiesRead }
    ensures comes { OutcomesCome }
    ensures refuses { OthersAreRefused }
    ensures proposes { OutcomesAreProposed }
{}

/// Each call is answered as the run over the arrivals read answers it; where the run waits, a body that it waits for is executed first, of a
/// run that it has requested, whose outcome has not come, and once.
pub fn bodies_simulate()
    ensures answers { CallsSimulate }
    ensures requested { BodiesAreRequested }
    ensures suspends { SuspensionsLeaveNone }
{}

/// A whole attempt, in any number of turns between any arrivals and acknowledgements, follows the run over what it has read, an acknowledged
/// outcome being an arrival; and it executes no run twice.
pub fn attempts_follow_with_bodies()
    ensures follows { AttemptsFollowWithBodies }
    ensures tells { TurnsTell }
    ensures once { ProposesOnce }
{}

/// With its input closed an attempt answers or executes in each turn, or is over.
pub fn closed_turns_progress()
    ensures { ClosedTurnsProgress }
{}
