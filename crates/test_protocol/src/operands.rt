//! Operands of rows, and how flags are printed, with what is common to all rows.
use journal_protocol::wire::{Record, decode};
use journal_protocol::{MessageType, Version};
use std::alloc::Global;
use std::fmt;
pub use test_rows::{Hex, bytes, number, text, told};

/// The record of a payload that hexadecimal digits spell.
pub fn record<R: Record>(alloc: Global, payload: &str) -> Option<R> {
    let payload = bytes(alloc, payload)?;
    decode(alloc, payload.as_slice()).ok()
}

/// A value by its text.
pub fn shown<T: fmt::Display + Drop>(alloc: Global, value: T) -> Option<String> {
    format!(in alloc; "{value}").ok()
}

/// The type of this number, of four hexadecimal digits.
pub fn message_type(operand: &str) -> Option<MessageType> {
    let number = u16::from_str_radix(operand, 16).ok()?;
    MessageType::try_from(number).ok()
}

/// The version of this number.
pub fn version(operand: &str) -> Option<Version> {
    Version::with_number(number(operand)?)
}

/// How a flag is printed that may be absent.
pub fn flag(flag: Option<bool>) -> &'static str {
    match flag {
        None => "-",
        Some(true) => "true",
        Some(false) => "false",
    }
}
