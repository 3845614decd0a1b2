//! Which frame of an attempt a message is, as whoever records attempts has to know it, and whether arrivals wake a suspended attempt.
//!
//! A message from an attempt is a command to be recorded, the outcome of a run, a word about what the attempt waits for, its end,
//! or nothing that is accepted. `read_frame` tells which, and keeps of it what a record needs: the one canonical spelling of its payload, and the
//! numbers and moments in it. Whether the frame is accepted then depends on what is recorded, which is not known here. `is_woken` goes by what
//! is kept of a suspension and of the arrivals; nothing is asked of a store.
#![tactic(auto)]

mod command;
mod commands;
mod fault;
mod first;
mod frame;
mod kept;
mod kept_fault;
mod keys;
mod kind;
mod proposal;
mod read;
mod record;
mod suspended;
mod tree;

pub use first::FirstArrivals;
pub use frame::{AttemptFrame, ErrorBehavior, RecordedCommand, StateUse};
pub use kept_fault::KeptFault;
pub use read::{read_frame, read_frame_at};
pub use suspended::{awaited, is_woken};
