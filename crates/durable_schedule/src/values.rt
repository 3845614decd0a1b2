//! Numbers, texts and moments in the inputs and the answers of handlers: functions of values, each with its definition.
pub use straight_values::{bytes_of, count_of, later, number_in, text_of};
