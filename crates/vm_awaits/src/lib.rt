//! What has come of an invocation's notifications and waits to be taken, what handles stand for, whether what is awaited has come, and the
//! children that a cancellation is passed on to.
//!
//! Contracts see a state as four things, by `results_of`: how signals are delivered, the line of notifications that no await has looked at,
//! what waits to be taken of each id, and what each handle stands for; and the children as an attempt without bytes has them. What each call
//! answers and leaves is said by the definitions of an attempt over these.
#![tactic(auto)]

mod children;
mod flat;
mod growing;
mod ids;
mod line;
mod ready;
mod records;
mod resolving;
mod slots;
mod state;
mod telling;
pub mod tree;

pub use children::Children;
pub use flat::FlatTree;
pub use protocol_trees::AwaitState;
pub use ready::ReadyNotifications;
pub use resolving::ResolveFutureResult;
pub use slots::{Slots, first_for, id_for, next_handle, state_for, take_for};
pub use state::{AsyncResultsState, CreateHandleError};
