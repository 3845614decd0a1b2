//! The fields of the record `Notification`.

use super::FieldDescriptor;
use super::Kind::{Number, Record, Text};
use super::RecordType::{Failure, StateKeys, Value, Void};

pub const COMPLETION_ID: FieldDescriptor = field!(1 Number);

pub const SIGNAL_ID: FieldDescriptor = field!(2 Number);

pub const SIGNAL_NAME: FieldDescriptor = field!(3 Text);

pub const VOID: FieldDescriptor = field!(4 Record(Void));

pub const VALUE: FieldDescriptor = field!(5 Record(Value));

pub const FAILURE: FieldDescriptor = field!(6 Record(Failure));

pub const INVOCATION_ID: FieldDescriptor = field!(7 Text);

pub const STATE_KEYS: FieldDescriptor = field!(8 Record(StateKeys));

/// The fields of which one stands.
pub const ID: [u32; 3] = [COMPLETION_ID.number, SIGNAL_ID.number, SIGNAL_NAME.number];

/// The fields of which one stands.
pub const RESULT: [u32; 5] = [
    VOID.number,
    VALUE.number,
    FAILURE.number,
    INVOCATION_ID.number,
    STATE_KEYS.number,
];

pub const FIELDS: [FieldDescriptor; 8] = [
    COMPLETION_ID,
    SIGNAL_ID,
    SIGNAL_NAME,
    VOID,
    VALUE,
    FAILURE,
    INVOCATION_ID,
    STATE_KEYS,
];
