//! The fields of the record `AttachInvocationCommand`.

use super::FieldDescriptor;
use super::Kind::{Number, Record, Text};
use super::RecordType::{IdempotentRequestTarget, WorkflowTarget};

pub const INVOCATION_ID: FieldDescriptor = field!(1 Text);

pub const WORKFLOW_TARGET: FieldDescriptor = field!(2 Record(WorkflowTarget));

pub const IDEMPOTENT_REQUEST_TARGET: FieldDescriptor = field!(3 Record(IdempotentRequestTarget));

pub const RESULT_COMPLETION_ID: FieldDescriptor = field!(11 Number);

pub const NAME: FieldDescriptor = field!(12 Text);

/// The fields of which one stands.
pub const TARGET: [u32; 3] = [
    INVOCATION_ID.number,
    WORKFLOW_TARGET.number,
    IDEMPOTENT_REQUEST_TARGET.number,
];

pub const FIELDS: [FieldDescriptor; 5] = [
    INVOCATION_ID,
    WORKFLOW_TARGET,
    IDEMPOTENT_REQUEST_TARGET,
    RESULT_COMPLETION_ID,
    NAME,
];
