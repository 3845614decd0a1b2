//! The fields of the record `SendSignalCommand`.

use super::FieldDescriptor;
use super::Kind::{Number, Record, Text};
use super::RecordType::{Failure, Value, Void};

pub const TARGET_INVOCATION_ID: FieldDescriptor = field!(1 Text);

pub const IDX: FieldDescriptor = field!(2 Number);

pub const NAME: FieldDescriptor = field!(3 Text);

pub const VOID: FieldDescriptor = field!(4 Record(Void));

pub const VALUE: FieldDescriptor = field!(5 Record(Value));

pub const FAILURE: FieldDescriptor = field!(6 Record(Failure));

pub const ENTRY_NAME: FieldDescriptor = field!(12 Text);

/// The fields of which one stands.
pub const SIGNAL_ID: [u32; 2] = [IDX.number, NAME.number];

/// The fields of which one stands.
pub const RESULT: [u32; 3] = [VOID.number, VALUE.number, FAILURE.number];

pub const FIELDS: [FieldDescriptor; 7] = [
    TARGET_INVOCATION_ID,
    IDX,
    NAME,
    VOID,
    VALUE,
    FAILURE,
    ENTRY_NAME,
];
