//! The fields of the record `CompleteAwakeableCommand`.

use super::FieldDescriptor;
use super::Kind::{Record, Text};
use super::RecordType::{Failure, Value};

pub const AWAKEABLE_ID: FieldDescriptor = field!(1 Text);

pub const VALUE: FieldDescriptor = field!(2 Record(Value));

pub const FAILURE: FieldDescriptor = field!(3 Record(Failure));

pub const NAME: FieldDescriptor = field!(12 Text);

/// The fields of which one stands.
pub const RESULT: [u32; 2] = [VALUE.number, FAILURE.number];

pub const FIELDS: [FieldDescriptor; 4] = [AWAKEABLE_ID, VALUE, FAILURE, NAME];
