//! The machine of an invocation's attempt, as C asks it: plain arguments in, a reply of bytes and plain numbers out.
//!
//! `Machine` has one method for each call of `vm_core`'s `VM`, but that what a run's body ended with is proposed by three. Each reads its
//! arguments first, and does nothing where they cannot be read. What the call of `VM` does is said in the words of `vm_core`.
#![tactic(auto)]

mod ending;
mod feeding;
mod invocations;
mod machine;
mod promises;
mod runs;
mod signals;
mod state;
mod telling;
mod waiting;

pub use machine::Machine;
