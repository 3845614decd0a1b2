//! What a machine keeps of one attempt beside what it awaits: the count of its commands and ids, what is known of its
//! object's state, and what it has written.
#![tactic(auto)]

mod eager_state;
mod ids;
mod journal;
pub mod laws;
mod output;

pub use eager_state::{EagerGetState, EagerGetStateKeys, EagerState};
pub use ids::IdsExhausted;
pub use journal::Journal;
pub use output::Output;
