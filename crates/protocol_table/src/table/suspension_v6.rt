//! The fields of the record `SuspensionV6`.

use super::FieldDescriptor;
use super::Kind::{Numbers, Text};

pub const WAITING_COMPLETIONS: FieldDescriptor = field!(1 Numbers);

pub const WAITING_SIGNALS: FieldDescriptor = field!(2 Numbers);

pub const WAITING_NAMED_SIGNALS: FieldDescriptor = field!(3 Text);

pub const FIELDS: [FieldDescriptor; 3] = [
    WAITING_COMPLETIONS,
    WAITING_SIGNALS,
    WAITING_NAMED_SIGNALS,
];
