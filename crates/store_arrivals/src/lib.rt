//! What is made ready of arrivals of any kind: of a result, of a signal, of a cancellation, of the outcome of a run, of another
//! notification, and of a tick, which ends the sleeps that are due. That is why it is refused, or by which writes it is recorded. A live
//! attempt reads it from its row. Nothing is written here.
#![tactic(auto)]

mod arrival;
mod asking;
mod ended;
mod groups;
mod laws;
mod named;
mod outcome;
mod payload;
mod result;
mod signal;
mod tick;
mod wake;
mod woken;

pub use arrival::{PreparedArrival, prepare_arrival};
pub use groups::{SleepGroup, groups_of};
pub use laws::{ended_grouped, ready_kept};
pub use outcome::prepare_outcome;
pub use result::prepare_result;
pub use signal::{prepare_cancel, prepare_signal};
pub use tick::{PreparedTick, prepare_tick};
pub use wake::is_woken;
pub use woken::prepare_woken;
