//! The fields of the record `AwaitingOn`.

use super::FieldDescriptor;
use super::Kind::{Number, Record};
use super::RecordType::Future;

pub const AWAITING_ON: FieldDescriptor = field!(1 Record(Future));

pub const EXECUTING_SIDE_EFFECTS: FieldDescriptor = field!(2 Number);

pub const FIELDS: [FieldDescriptor; 2] = [AWAITING_ON, EXECUTING_SIDE_EFFECTS];
