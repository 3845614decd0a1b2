//! The fields of the record `Start`.

use super::FieldDescriptor;
use super::Kind::{Bytes, Number, Record, Text};
use super::RecordType::StateEntry;

pub const ID: FieldDescriptor = field!(1 Bytes);

pub const DEBUG_ID: FieldDescriptor = field!(2 Text);

pub const KNOWN_ENTRIES: FieldDescriptor = field!(3 Number);

pub const STATE_MAP: FieldDescriptor = field!(4 Record(StateEntry));

pub const PARTIAL_STATE: FieldDescriptor = field!(5 Number);

pub const KEY: FieldDescriptor = field!(6 Text);

pub const RETRY_COUNT_SINCE_LAST_STORED_ENTRY: FieldDescriptor = field!(7 Number);

pub const DURATION_SINCE_LAST_STORED_ENTRY: FieldDescriptor = field!(8 Number);

pub const RANDOM_SEED: FieldDescriptor = field!(9 Number);

pub const SCOPE: FieldDescriptor = field!(10 Text);

pub const LIMIT_KEY: FieldDescriptor = field!(11 Text);

pub const IDEMPOTENCY_KEY: FieldDescriptor = field!(12 Text);

pub const FIELDS: [FieldDescriptor; 12] = [
    ID,
    DEBUG_ID,
    KNOWN_ENTRIES,
    STATE_MAP,
    PARTIAL_STATE,
    KEY,
    RETRY_COUNT_SINCE_LAST_STORED_ENTRY,
    DURATION_SINCE_LAST_STORED_ENTRY,
    RANDOM_SEED,
    SCOPE,
    LIMIT_KEY,
    IDEMPOTENCY_KEY,
];
