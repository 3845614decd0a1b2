//! The fields of the record `ClearAllStateCommand`.

use super::FieldDescriptor;
use super::Kind::Text;

pub const NAME: FieldDescriptor = field!(12 Text);

pub const FIELDS: [FieldDescriptor; 1] = [NAME];
