//! What is read of an invocation's rows, and what is made ready of a new invocation, of an attempt that is begun, and of invocations that
//! are forgotten. Nothing is written here.
//!
//! A call that changes an invocation begins with its row. A store tells of one whether it is open, its requests and arrivals by
//! place, what it answers once it is closed, and the last error that an attempt of it told. A new invocation, and a begun attempt,
//! is refused for its least cause, or made ready: with the writes by which it is recorded, and with the start frame. What follows that is
//! counted, and not read.
#![tactic(auto)]

mod answering;
mod attempt;
mod begin;
mod begun;
mod forget;
mod frame;
mod input;
mod invoke;
mod prepare;
mod progress;
mod recorded;
mod row;
mod start;
mod states;

pub use answering::answer;
pub use attempt::PreparedAttempt;
pub use begin::prepare_begin;
pub use forget::prepare_forget;
pub use frame::payload_frame;
pub use invoke::prepare_invoke;
pub use progress::{failure, is_open};
pub use recorded::{EntryKind, RecordedEntry, entries};
pub use row::{known_row, open_row, row_of};
pub use states::object_states;
