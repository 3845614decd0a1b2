//! The fields of the record `SetStateCommand`.

use super::FieldDescriptor;
use super::Kind::{Bytes, Record, Text};
use super::RecordType::Value;

pub const KEY: FieldDescriptor = field!(1 Bytes);

pub const VALUE: FieldDescriptor = field!(3 Record(Value));

pub const NAME: FieldDescriptor = field!(12 Text);

pub const FIELDS: [FieldDescriptor; 3] = [KEY, VALUE, NAME];
