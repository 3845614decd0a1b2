//! The machine of an invocation's attempt, for C: `c/hengomaru.h` declares what stands here.
//!
//! C holds a machine by a handle, a struct of one pointer. `{NULL}` is a handle that has none: each call tells so and does nothing. Each call
//! answers a status (`status.rt`); what it answers as bytes is the reply of that call, until the next one.
#![tactic(auto)]

mod ending;
mod feeding;
mod handle;
mod held;
mod invocations;
mod machine;
mod promises;
mod runs;
mod signals;
mod state;
mod status;
mod telling;
mod waiting;
