//! The fields of the record `GetEagerStateKeysCommand`.

use super::FieldDescriptor;
use super::Kind::{Record, Text};
use super::RecordType::StateKeys;

pub const NAME: FieldDescriptor = field!(12 Text);

pub const VALUE: FieldDescriptor = field!(14 Record(StateKeys));

pub const FIELDS: [FieldDescriptor; 2] = [NAME, VALUE];
