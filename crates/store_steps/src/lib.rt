//! What is made ready of a frame that an attempt has written: why it is refused, or what is written of it and how it is answered.
//!
//! `prepare_frame` decides by the invocation's row; nothing is written yet. What it makes ready is stated by the accepted
//! events of which the database keeps the records. `prepare_joined` decides on a frame behind others that are not written yet.
#![tactic(auto)]

mod end;
mod frame;
mod joined;
mod laws;
mod outcome;
mod prepare;
mod reads;
mod refuse;
mod write;

pub use end::refusal_ends_attempt;
pub use frame::{FrameReply, LiveFacts, PreparedFrame};
pub use joined::prepare_joined;
pub use laws::live_are_open;
pub use prepare::prepare_frame;
