//! The fields of the record `GetStateEphemeralNotification`.

use super::FieldDescriptor;
use super::Kind::{Number, Record};
use super::RecordType::{Value, Void};

pub const EPHEMERAL_COMPLETION_ID: FieldDescriptor = field!(1 Number);

pub const VOID: FieldDescriptor = field!(4 Record(Void));

pub const VALUE: FieldDescriptor = field!(5 Record(Value));

/// The fields of which one stands.
pub const RESULT: [u32; 2] = [VOID.number, VALUE.number];

pub const FIELDS: [FieldDescriptor; 3] = [EPHEMERAL_COMPLETION_ID, VOID, VALUE];
