//! The fields of the record `Failure`.

use super::FieldDescriptor;
use super::Kind::{Number, Record, Text};
use super::RecordType::FailureMetadata;

pub const CODE: FieldDescriptor = field!(1 Number);

pub const MESSAGE: FieldDescriptor = field!(2 Text);

pub const METADATA: FieldDescriptor = field!(3 Record(FailureMetadata));

pub const FIELDS: [FieldDescriptor; 3] = [CODE, MESSAGE, METADATA];
