//! Fields of a Protocol Buffers payload: how each is found, checked and spelled, by one table of all records.
//!
//! A payload is a list of fields. Its fields are listed once (`Payload`), and `fault_in` says by the table whether anything is
//! wrong with them; a record selects each of its fields from the whole list (`u32_at`, `text_at`, ..), and spells them in ascending
//! order (`put_u32`, `put_text`, ..).
#![tactic(auto)]

mod check;
mod chosen;
mod field;
mod len;
mod listed;
mod put;
mod record;
mod select;
mod varint;

pub use check::{Fault, fault_in};
pub use chosen::{chosen_bytes_at, chosen_record_at, chosen_text_at, chosen_u32_at};
pub use field::{Scanned, ScannedField};
pub use len::{
    len_bool, len_bytes, len_enum, len_numbers, len_optional_record, len_optional_text,
    len_optional_u64, len_present_bytes, len_present_text, len_present_u32, len_record,
    len_records, len_tagged_bytes, len_text, len_texts, len_u32, len_u64,
};
pub use listed::{Fields, Payload, Room, empty_room};
pub use protocol_table::table;
pub use protocol_table::table::{FieldDescriptor, Kind, RecordType};
pub use put::{
    put_bool, put_bytes, put_enum, put_numbers, put_optional_record, put_optional_text,
    put_optional_u64, put_present_bytes, put_present_text, put_present_u32, put_record,
    put_records, put_tagged_bytes, put_text, put_texts, put_u32, put_u64,
};
pub use record::{
    DecodeError, LEVELS, Record, decode, decode_of_encoded, encode, encoded_len, merge,
    optional_record_at, records_at,
};
pub use select::{
    bool_at, bytes_at, numbers_at, optional_text_at, optional_u64_at, text_at, texts_at, u32_at,
    u64_at,
};
