//! What C hands over, read, and what C is told, spelled: bytes and texts, records, trees of handles, options and policies.
//!
//! Composite values cross as payloads of the protocol's own records, which every language can read and write. Nothing here knows the machine.
#![tactic(auto)]

mod levels;
mod node;
mod not_done;
mod options;
mod policy;
mod records;
mod replies;
mod texts;

pub use levels::NODE_LEVELS;
pub use node::{Node, future_of};
pub use not_done::{NotDone, Unread};
pub use options::{payload_options, vm_options};
pub use policy::{Policy, retry_policy};
pub use records::{NamedTarget, attach_target, call_target, non_empty_value, terminal_failure};
pub use replies::{kind_of, part_of, reply_of};
pub use texts::{copied_bytes, copied_text};
