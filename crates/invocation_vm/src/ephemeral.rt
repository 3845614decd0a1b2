//! The reads of which nothing is recorded.
pub use vm_types::{EphemeralCommands, RegisterError};
