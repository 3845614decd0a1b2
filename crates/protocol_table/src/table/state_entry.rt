//! The fields of the record `StateEntry`.

use super::FieldDescriptor;
use super::Kind::Bytes;

pub const KEY: FieldDescriptor = field!(1 Bytes);

pub const VALUE: FieldDescriptor = field!(2 Bytes);

pub const FIELDS: [FieldDescriptor; 2] = [KEY, VALUE];
