//! The fields of the record `ProposeRunCompletionAck`.

use super::FieldDescriptor;
use super::Kind::Number;

pub const COMPLETION_ID: FieldDescriptor = field!(1 Number);

pub const FIELDS: [FieldDescriptor; 1] = [COMPLETION_ID];
