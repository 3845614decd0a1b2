//! Laws of what is held, and of lists of events. The functions do nothing: their contracts are the laws.
ghost use Rattle.schedule_model.specs.LettingGo.{AreLetGo};
ghost use Rattle.schedule_model.specs.Laws.{ClosesReach, FeedsReach, MovesReach, NoneHeld, SchedulesGrow, TurnsReach};

use journal_model::Handler;

/// A schedule has as many replies as events, each for its own.
pub fn schedules_grow<H: Handler>()
    ensures { SchedulesGrow H.next_call }
{}

/// What is done to an attempt at its place among those that are held is what the definitions of the events say.
pub fn attempts_are_held<H: Handler>()
    ensures none { NoneHeld H }
    ensures feeds { FeedsReach H }
    ensures closes { ClosesReach H }
    ensures moves { MovesReach H }
    ensures turns { TurnsReach H.next_call }
{}

/// An attempt that was let go of is not held, so each event of it is X2; and the others are held as before.
pub fn attempts_are_let_go<H: Handler>()
    ensures { AreLetGo H }
{}
