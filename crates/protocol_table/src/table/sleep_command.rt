//! The fields of the record `SleepCommand`.

use super::FieldDescriptor;
use super::Kind::{Number, Text};

pub const WAKE_UP_TIME: FieldDescriptor = field!(1 Number);

pub const RESULT_COMPLETION_ID: FieldDescriptor = field!(11 Number);

pub const NAME: FieldDescriptor = field!(12 Text);

pub const FIELDS: [FieldDescriptor; 3] = [WAKE_UP_TIME, RESULT_COMPLETION_ID, NAME];
