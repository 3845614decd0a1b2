//! Laws of the definitions. The functions do nothing: their contracts are the laws.
ghost use Rattle.durable_schedule.specs.Runs.{ForgottenHold, ReopenedHold};

use run_laws::records_hold;
pub use straight_line::laws::{
    answers_are_of_kind, calls_come_in_order, calls_stay_on, never_goes_astray, takes_are_of_kind,
    takes_bring_something, takes_stay_on,
};

/// A store that is opened again stands for the events that it kept, with a stop of each live attempt in front of them: what is recorded
/// of an invocation is of its run then, if it was before. So the next schedule begins with what the last one or a crash left.
pub fn reopened_stores_hold()
    ensures { ReopenedHold }
{
    records_hold();
}

/// A store that has forgotten invocations stands for what is left of its events: what is recorded of an invocation is of its run then, if it
/// was before, and one that is forgotten is one that was not begun yet. So the next schedule begins with what is left.
pub fn forgotten_stores_hold()
    ensures { ForgottenHold }
{}
