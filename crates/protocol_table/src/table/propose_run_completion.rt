//! The fields of the record `ProposeRunCompletion`.

use super::FieldDescriptor;
use super::Kind::{Bytes, Number, Record};
use super::RecordType::Failure;

pub const RESULT_COMPLETION_ID: FieldDescriptor = field!(1 Number);

pub const VALUE: FieldDescriptor = field!(14 Bytes);

pub const FAILURE: FieldDescriptor = field!(15 Record(Failure));

/// The fields of which one stands.
pub const RESULT: [u32; 2] = [VALUE.number, FAILURE.number];

pub const FIELDS: [FieldDescriptor; 3] = [RESULT_COMPLETION_ID, VALUE, FAILURE];
