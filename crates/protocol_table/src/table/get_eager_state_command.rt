//! The fields of the record `GetEagerStateCommand`.

use super::FieldDescriptor;
use super::Kind::{Bytes, Record, Text};
use super::RecordType::{Value, Void};

pub const KEY: FieldDescriptor = field!(1 Bytes);

pub const NAME: FieldDescriptor = field!(12 Text);

pub const VOID: FieldDescriptor = field!(13 Record(Void));

pub const VALUE: FieldDescriptor = field!(14 Record(Value));

/// The fields of which one stands.
pub const RESULT: [u32; 2] = [VOID.number, VALUE.number];

pub const FIELDS: [FieldDescriptor; 4] = [KEY, NAME, VOID, VALUE];
