//! The fields of the record `CallCommand`.

use super::FieldDescriptor;
use super::Kind::{Bytes, Number, Record, Text};
use super::RecordType::Header;

pub const SERVICE_NAME: FieldDescriptor = field!(1 Text);

pub const HANDLER_NAME: FieldDescriptor = field!(2 Text);

pub const PARAMETER: FieldDescriptor = field!(3 Bytes);

pub const HEADERS: FieldDescriptor = field!(4 Record(Header));

pub const KEY: FieldDescriptor = field!(5 Text);

pub const IDEMPOTENCY_KEY: FieldDescriptor = field!(6 Text);

pub const SCOPE: FieldDescriptor = field!(7 Text);

pub const LIMIT_KEY: FieldDescriptor = field!(8 Text);

pub const INVOCATION_ID_NOTIFICATION_IDX: FieldDescriptor = field!(10 Number);

pub const RESULT_COMPLETION_ID: FieldDescriptor = field!(11 Number);

pub const NAME: FieldDescriptor = field!(12 Text);

pub const FIELDS: [FieldDescriptor; 11] = [
    SERVICE_NAME,
    HANDLER_NAME,
    PARAMETER,
    HEADERS,
    KEY,
    IDEMPOTENCY_KEY,
    SCOPE,
    LIMIT_KEY,
    INVOCATION_ID_NOTIFICATION_IDX,
    RESULT_COMPLETION_ID,
    NAME,
];
