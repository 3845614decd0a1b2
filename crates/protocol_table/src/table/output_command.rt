//! The fields of the record `OutputCommand`.

use super::FieldDescriptor;
use super::Kind::{Record, Text};
use super::RecordType::{Failure, Value};

pub const NAME: FieldDescriptor = field!(12 Text);

pub const VALUE: FieldDescriptor = field!(14 Record(Value));

pub const FAILURE: FieldDescriptor = field!(15 Record(Failure));

/// The fields of which one stands.
pub const RESULT: [u32; 2] = [VALUE.number, FAILURE.number];

pub const FIELDS: [FieldDescriptor; 3] = [NAME, VALUE, FAILURE];
