//! Whether what is awaited has come: over any tree of futures, without a copy and without memory.
#![tactic(auto)]

mod future;
mod look;
mod tally;
mod tree;

pub use future::NotificationIdRef;
pub use look::{await_state, is_awake};
pub use tree::{AwaitState, AwaitTree, AwaitTreeShape};
