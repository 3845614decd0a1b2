//! The fields of the record `StateKeys`.

use super::FieldDescriptor;
use super::Kind::Bytes;

pub const KEYS: FieldDescriptor = field!(1 Bytes);

pub const FIELDS: [FieldDescriptor; 1] = [KEYS];
