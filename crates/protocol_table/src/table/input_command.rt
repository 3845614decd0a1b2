//! The fields of the record `InputCommand`.

use super::FieldDescriptor;
use super::Kind::{Record, Text};
use super::RecordType::{Header, Value};

pub const HEADERS: FieldDescriptor = field!(1 Record(Header));

pub const NAME: FieldDescriptor = field!(12 Text);

pub const VALUE: FieldDescriptor = field!(14 Record(Value));

pub const FIELDS: [FieldDescriptor; 3] = [HEADERS, NAME, VALUE];
