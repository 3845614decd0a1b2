//! Whole messages: the record that a message's payload is, and the frame that a record is written as.
//!
//! With this crate's traits in scope, a `RawMessage` is read by `decode_to` and `decode_as_notification`, and a record is
//! written by an `Encoder`. What handlers take of a notification and hand out in a command is converted here too.
#![tactic(auto)]

pub mod conversion_laws;
mod decode;
mod encode;
mod handed;
pub mod laws;
mod leaf_lengths;
mod message;
mod messages;
mod notification;
mod suspension;
mod taken;

pub use decode::RawMessageExt;
pub use encode::{Encoder, RestateEncodableMessage, encode_record};
pub use handed::{
    to_awakeable_result, to_promise_completion, to_proposed_result, to_signal_result,
};
pub use message::{PlainMessage, RestateMessage};
pub use notification::is_failure;
pub use suspension::to_suspension_v6;
pub use taken::{TakeError, to_taken_failure, to_value};
