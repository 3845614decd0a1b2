//! Handlers as straight-line code: each call is a method, and `?` leaves at the first one that has no answer yet.
//!
//! The code is executed from its top at each turn, and its calls are answered from the answers so far. What it comes to is a function
//! of these (`specs/Steps.antt`): the author states that function in the same shape, call by call, and a check proves that they agree.
#![tactic(auto)]

pub mod calls;
pub mod combinators;
pub mod effects;
mod gathered;
pub mod handler;
pub mod handles;
pub mod invocations;
pub mod laws;
pub mod promises;
pub mod several;
pub mod state;
pub mod stop;
pub mod waits;

pub use calls::Calls;
pub use combinators::{Combinator, future_over};
pub use handler::{Straight, StraightLine};
pub use handles::{Awakeable, Called, DurableFuture, IdAsked, KeysRead, Peeked, StateRead, Timer};
pub use stop::{Stop, Told, astray, cancelled};
