//! An await, a look and a take of an attempt, what one writes that waits, and the calls about other invocations.
//!
//! A look and a take make no command: they change what has come and what handles stand for alone. So does an await, but for one
//! that a cancellation ends: it puts one command for each child that the cancellation is passed on to. A call, a send, an attach and
//! the read of an output make one command each, above `vm_calls`, which has other calls as methods of `Active`. Each of the seven
//! says that it does what the attempt without bytes does. A suspension, and a message that tells what is waited for, are written of
//! what is left of the awaited tree, or of the child alone that is waited for; that the run still waits for this is a law beside
//! them.
#![tactic(auto)]

mod attaching;
mod awaiting;
mod calling;
mod cancelling;
mod children;
mod handles;
mod laws;
mod looking;
mod nesting;
mod sending;
mod suspending;
mod taking;
mod targets;
mod tracking;
mod waits_for;

pub use attaching::{attach, get_output};
pub use awaiting::{AwaitError, Awaited, await_future};
pub use calling::call;
pub use cancelling::CancelError;
pub use children::ChildrenKnown;
pub use laws::waits_tell_as_run;
pub use looking::is_completed;
pub use sending::send;
pub use suspending::{TellError, suspend, tell_awaiting_on};
pub use taking::{TakeError, take};
pub use waits_for::WaitsFor;
