//! The fields of the record `Value`.

use super::FieldDescriptor;
use super::Kind::Bytes;

pub const CONTENT: FieldDescriptor = field!(1 Bytes);

pub const FIELDS: [FieldDescriptor; 1] = [CONTENT];
