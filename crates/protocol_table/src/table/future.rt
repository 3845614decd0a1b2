//! The fields of the record `Future`.

use super::FieldDescriptor;
use super::Kind::{Number, Numbers, Record, Text};
use super::RecordType::Future;

pub const WAITING_COMPLETIONS: FieldDescriptor = field!(1 Numbers);

pub const WAITING_SIGNALS: FieldDescriptor = field!(2 Numbers);

pub const WAITING_NAMED_SIGNALS: FieldDescriptor = field!(3 Text);

pub const NESTED_FUTURES: FieldDescriptor = field!(4 Record(Future));

pub const COMBINATOR_TYPE: FieldDescriptor = field!(5 Number);

pub const REQUIRED: FieldDescriptor = field!(6 Number);

pub const FIELDS: [FieldDescriptor; 6] = [
    WAITING_COMPLETIONS,
    WAITING_SIGNALS,
    WAITING_NAMED_SIGNALS,
    NESTED_FUTURES,
    COMBINATOR_TYPE,
    REQUIRED,
];
