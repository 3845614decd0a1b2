//! What the events of a schedule answer and leave, over a store that stands for accepted events and the attempts that are held. And
//! that what a call brings fits.
#![tactic(auto)]

mod attempts;
mod effects;
mod event;
mod fitting;
mod held;
mod kept;
mod laws;
mod leaving;
mod outcome;
mod places;

pub use attempts::HeldAttempts;
pub use effects::Effects;
pub use event::{Event, EventRefusal, Reply};
pub use fitting::{invocation_fits, result_fits, signal_fits};
pub use held::HeldAttempt;
pub use journal_model::SignalKey;
pub use kept::KeptAttempt;
pub use laws::{attempts_are_held, attempts_are_let_go, schedules_grow};
pub use leaving::PlacesLeft;
pub use outcome::tells_mismatch;
pub use store_refusals::{Cause, Refusal};
pub use vm_attempt::{Attempt, RetryPolicy, RunExitResult, RunOutcome, Turn};
