//! The fields of the record `Suspension`.

use super::FieldDescriptor;
use super::Kind::Record;
use super::RecordType::Future;

pub const AWAITING_ON: FieldDescriptor = field!(1 Record(Future));

pub const FIELDS: [FieldDescriptor; 1] = [AWAITING_ON];
