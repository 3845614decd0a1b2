//! The fields of the record `PeekPromiseCommand`.

use super::FieldDescriptor;
use super::Kind::{Number, Text};

pub const KEY: FieldDescriptor = field!(1 Text);

pub const RESULT_COMPLETION_ID: FieldDescriptor = field!(11 Number);

pub const NAME: FieldDescriptor = field!(12 Text);

pub const FIELDS: [FieldDescriptor; 3] = [KEY, RESULT_COMPLETION_ID, NAME];
