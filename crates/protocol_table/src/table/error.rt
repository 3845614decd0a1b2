//! The fields of the record `Error`.

use super::FieldDescriptor;
use super::Kind::{Number, Text};

pub const CODE: FieldDescriptor = field!(1 Number);

pub const MESSAGE: FieldDescriptor = field!(2 Text);

pub const RELATED_COMMAND_INDEX: FieldDescriptor = field!(4 Number);

pub const RELATED_COMMAND_NAME: FieldDescriptor = field!(5 Text);

pub const RELATED_COMMAND_TYPE: FieldDescriptor = field!(6 Number);

pub const NEXT_RETRY_DELAY: FieldDescriptor = field!(7 Number);

pub const BEHAVIOR: FieldDescriptor = field!(8 Number);

pub const FIELDS: [FieldDescriptor; 7] = [
    CODE,
    MESSAGE,
    RELATED_COMMAND_INDEX,
    RELATED_COMMAND_NAME,
    RELATED_COMMAND_TYPE,
    NEXT_RETRY_DELAY,
    BEHAVIOR,
];
