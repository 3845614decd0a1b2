//! The live attempt of an invocation: what it may send, where its machine stands among the messages of its input, and what a schedule of
//! such attempts leaves. Laws over its input, its position in the run, and its frames on their way to the store. The functions do nothing:
//! their contracts are the laws.
#![tactic(auto)]

ghost use Rattle.live_laws.specs.TurnLaws.{AttemptsAreLive, AttemptsBeginWithJournals, BeginsFollow, EventsKeep, InputsHaveJournals, PositionsAreAtCalls, SchedulesFollow, SchedulesLeave, TurnsKeep, TurnsSend};
ghost use Rattle.live_laws.specs.PositionLaws.{MachinesHavePositions, MachinesTurn, StartsShow};
ghost use Rattle.live_laws.specs.MachineLaws.{ArrivalsComeAsAsked, MachinesBegin, MachinesStayLive, RecordsGiveIds, RecordsHaveTextKeys};

/// A schedule whose attempts write frames of the run alone keeps an invocation in its run, from its begin and event by event.
pub fn schedules_follow()
    ensures begins { BeginsFollow }
    ensures each { EventsKeep }
    ensures all { SchedulesFollow }
{}

/// So it leaves the headline and the waking clauses, and what is needed to go on.
pub fn schedules_leave()
    ensures { SchedulesLeave }
{}

/// What a turn may write over what its attempt has read is of the run over what it was handed.
pub fn turns_send()
    ensures { TurnsSend }
{}

/// A turn of the live attempt keeps the invocation in its run, and the attempt live.
pub fn turns_keep()
    ensures turns { TurnsKeep }
    ensures positions { PositionsAreAtCalls }
{}

/// An attempt is live when it is begun, and stays so after each event but its end.
pub fn attempts_are_live()
    ensures { AttemptsAreLive }
{}

/// What an attempt was begun with: its start frame, and a journal that begins the run.
pub fn attempts_begin_with_journals()
    ensures { AttemptsBeginWithJournals }
{}

/// Which messages the input of the live attempt has.
pub fn inputs_have_journals()
    ensures { InputsHaveJournals }
{}

/// Where the machine stands is the position of its attempt, from its begin on and as it reads its input.
pub fn machines_have_positions()
    ensures { MachinesHavePositions }
{}

/// Each reply of a machine that stands in the run gives a turn that its attempt may make, also one that is stopped midway; and the
/// machine stands in the run behind it.
pub fn machines_turn()
    ensures { MachinesTurn }
{}

/// The start frame shows the state that the machine begins with, and the run of its invocation knows that state.
pub fn starts_show()
    ensures { StartsShow }
{}

/// For an invocation id the store lets in invocation ids alone.
pub fn records_give_ids()
    ensures { RecordsGiveIds }
{}

/// It lets in state keys that are text alone.
pub fn records_have_text_keys()
    ensures { RecordsHaveTextKeys }
{}

/// So what has come is as it was asked for, if the handler asks by keys that are text.
pub fn arrivals_come_as_asked()
    ensures { ArrivalsComeAsAsked }
{}

/// An attempt with its machine is live when it is begun.
pub fn machines_begin()
    ensures { MachinesBegin }
{}

/// It stays so as it is handed its input and reads it.
pub fn machines_stay_live()
    ensures { MachinesStayLive }
{}
