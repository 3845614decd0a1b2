//! The fields of the record `RunCommand`.

use super::FieldDescriptor;
use super::Kind::{Number, Text};

pub const RESULT_COMPLETION_ID: FieldDescriptor = field!(11 Number);

pub const NAME: FieldDescriptor = field!(12 Text);

pub const FIELDS: [FieldDescriptor; 2] = [RESULT_COMPLETION_ID, NAME];
