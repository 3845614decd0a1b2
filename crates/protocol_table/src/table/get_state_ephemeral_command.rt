//! The fields of the record `GetStateEphemeralCommand`.

use super::FieldDescriptor;
use super::Kind::{Bytes, Number};

pub const EPHEMERAL_COMPLETION_ID: FieldDescriptor = field!(1 Number);

pub const KEY: FieldDescriptor = field!(2 Bytes);

pub const FIELDS: [FieldDescriptor; 2] = [EPHEMERAL_COMPLETION_ID, KEY];
