//! The fields of the record `ClearStateCommand`.

use super::FieldDescriptor;
use super::Kind::{Bytes, Text};

pub const KEY: FieldDescriptor = field!(1 Bytes);

pub const NAME: FieldDescriptor = field!(12 Text);

pub const FIELDS: [FieldDescriptor; 2] = [KEY, NAME];
