//! The reads of the object's state, an await, and the end, of a machine in any phase.
//!
//! A read is made of the attempt and answered, or the machine fails. An await is answered by what has come, fails where the journal
//! goes on behind it, or waits: then it suspends the attempt, or tells what it waits for, by whether more input can come. A
//! cancellation ends it once it is passed on to the invocations that were called. An end is written once, and nothing behind it.
#![tactic(auto)]

mod asleep;
mod awaiting;
mod causes;
mod ending;
mod lists;
mod reading;
mod uncompleted;
mod unfinished;

pub use asleep::Sleep;
pub use awaiting::do_await;
pub use causes::read_cause;
pub use ending::{EndPlace, sys_end};
pub use reading::{sys_state_get, sys_state_get_keys};
