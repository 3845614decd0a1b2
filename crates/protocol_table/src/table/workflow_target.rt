//! The fields of the record `WorkflowTarget`.

use super::FieldDescriptor;
use super::Kind::Text;

pub const WORKFLOW_NAME: FieldDescriptor = field!(1 Text);

pub const WORKFLOW_KEY: FieldDescriptor = field!(2 Text);

pub const SCOPE: FieldDescriptor = field!(3 Text);

pub const FIELDS: [FieldDescriptor; 3] = [WORKFLOW_NAME, WORKFLOW_KEY, SCOPE];
