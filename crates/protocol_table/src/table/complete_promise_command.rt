//! The fields of the record `CompletePromiseCommand`.

use super::FieldDescriptor;
use super::Kind::{Number, Record, Text};
use super::RecordType::{Failure, Value};

pub const KEY: FieldDescriptor = field!(1 Text);

pub const COMPLETION_VALUE: FieldDescriptor = field!(2 Record(Value));

pub const COMPLETION_FAILURE: FieldDescriptor = field!(3 Record(Failure));

pub const RESULT_COMPLETION_ID: FieldDescriptor = field!(11 Number);

pub const NAME: FieldDescriptor = field!(12 Text);

/// The fields of which one stands.
pub const COMPLETION: [u32; 2] = [COMPLETION_VALUE.number, COMPLETION_FAILURE.number];

pub const FIELDS: [FieldDescriptor; 5] = [
    KEY,
    COMPLETION_VALUE,
    COMPLETION_FAILURE,
    RESULT_COMPLETION_ID,
    NAME,
];
