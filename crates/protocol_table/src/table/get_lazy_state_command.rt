//! The fields of the record `GetLazyStateCommand`.

use super::FieldDescriptor;
use super::Kind::{Bytes, Number, Text};

pub const KEY: FieldDescriptor = field!(1 Bytes);

pub const RESULT_COMPLETION_ID: FieldDescriptor = field!(11 Number);

pub const NAME: FieldDescriptor = field!(12 Text);

pub const FIELDS: [FieldDescriptor; 3] = [KEY, RESULT_COMPLETION_ID, NAME];
