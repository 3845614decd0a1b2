//! The fields of the record `IdempotentRequestTarget`.

use super::FieldDescriptor;
use super::Kind::Text;

pub const SERVICE_NAME: FieldDescriptor = field!(1 Text);

pub const SERVICE_KEY: FieldDescriptor = field!(2 Text);

pub const HANDLER_NAME: FieldDescriptor = field!(3 Text);

pub const IDEMPOTENCY_KEY: FieldDescriptor = field!(4 Text);

pub const SCOPE: FieldDescriptor = field!(5 Text);

pub const FIELDS: [FieldDescriptor; 5] = [
    SERVICE_NAME,
    SERVICE_KEY,
    HANDLER_NAME,
    IDEMPOTENCY_KEY,
    SCOPE,
];
