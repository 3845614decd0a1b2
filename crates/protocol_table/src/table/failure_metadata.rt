//! The fields of the record `FailureMetadata`.

use super::FieldDescriptor;
use super::Kind::Text;

pub const KEY: FieldDescriptor = field!(1 Text);

pub const VALUE: FieldDescriptor = field!(2 Text);

pub const FIELDS: [FieldDescriptor; 2] = [KEY, VALUE];
