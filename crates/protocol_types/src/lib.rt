//! The words that all of the protocol speaks in: types of messages, versions, what each version brought, and how the fields of records
//! are printed.
#![tactic(auto)]

mod feature;
mod hex;
pub mod laws;
mod message_type;
mod parts;
mod shown;
mod version;

pub use feature::Feature;
pub use hex::HexByte;
pub use message_type::{MessageType, UnknownMessageType};
pub use parts::show_labelled;
pub use shown::Shown;
pub use version::{ContentTypeError, Version};
