//! How many bytes one field takes, counted behind the bytes before it; a count that 64 bits don't hold stays at their last.
//!
//! Each function counts what the one of its name in `put` writes, and takes no memory.

ghost use Rattle.std.specs.Prelude.{◌≡◌, ◌+◌, ◌-◌, ◌*◌, ◌^◌, ◌≤◌, Some, List, ℕ, length, map, min, option_map};
ghost use Rattle.protocol_wire.specs.Wire.{varint, bytes as bytes_value};
ghost use Rattle.protocol_wire.specs.Spelling.{varint_spelling, varint_spelling_within, tagged};
ghost use Rattle.protocol_wire.specs.Parts.{part_spelling, plain_number, bool_number, enum_number, plain_bytes, optional_number, optional_bytes, repeated_bytes, packed, payload_of};
ghost use Rattle.protocol_wire.specs.Lengths.{counted_bytes};

use crate::{FieldDescriptor, Record};
use bytes::{ByteStr, Bytes};
use sequence::Sequence;

#[tactic(auto, unfolding(crate::specs::Spelling::varint_spelling_within))]
fn len_varint_within(most: u32, number: u64) -> u64
    ensures length { result ≡ length (varint_spelling_within most number) }
    ensures within { result ≤ most }
{
    if most == 0 {
        return 0;
    }
    if number < 128 {
        return 1;
    }
    1 + len_varint_within(most - 1, number / 128)
}

#[tactic(auto, unfolding(crate::specs::Spelling::varint_spelling))]
fn len_varint(number: u64) -> u64
    ensures length { result ≡ length (varint_spelling number) }
    ensures within { result ≤ 10 }
{
    len_varint_within(10, number)
}

#[tactic(auto, unfolding(crate::specs::Spelling::tagged))]
fn len_tagged_number(before: u64, field: FieldDescriptor, value: u64) -> u64
    ensures { result ≡ counted_bytes before (tagged field.number (varint value)) }
{
    let tag = len_varint(8 * u64::from(field.number));
    before.saturating_add(tag + len_varint(value))
}

/// The tag, the length and the bytes, also where there are none. A count of bytes that 64 bits don't hold is given as their
/// last.
#[tactic(auto, using(crate::proofs::Lengths::bytes_counted))]
pub fn len_tagged_bytes(before: u64, field: FieldDescriptor, count: u64) -> u64
    ensures { (bs : List ℕ) → count ≡ min (length bs) (2 ^ 64 - 1) → result ≡ counted_bytes before (tagged field.number (bytes_value bs)) }
{
    let tag = len_varint(8 * u64::from(field.number) + 2);
    before
        .saturating_add(tag)
        .saturating_add(len_varint(count))
        .saturating_add(count)
}

/// Left out where it is zero.
pub fn len_u64(before: u64, field: FieldDescriptor, value: u64) -> u64
    ensures { result ≡ counted_bytes before (part_spelling (plain_number field.number value)) }
{
    if value == 0 {
        return before;
    }
    len_tagged_number(before, field, value)
}

/// Left out where it is zero.
pub fn len_u32(before: u64, field: FieldDescriptor, value: u32) -> u64
    ensures { result ≡ counted_bytes before (part_spelling (plain_number field.number value)) }
{
    len_u64(before, field, u64::from(value))
}

/// Left out where it is false.
pub fn len_bool(before: u64, field: FieldDescriptor, flag: bool) -> u64
    ensures { result ≡ counted_bytes before (part_spelling (plain_number field.number (bool_number flag))) }
{
    len_u64(before, field, u64::from(flag))
}

/// The number of an enum, given by its 32 bits: left out where it is zero, ten bytes where it is negative.
pub fn len_enum(before: u64, field: FieldDescriptor, value: u32) -> u64
    ensures { result ≡ counted_bytes before (part_spelling (plain_number field.number (enum_number value))) }
{
    let number = u64::from(value);
    if value < 1 << 31 {
        len_u64(before, field, number)
    } else {
        len_u64(before, field, number + 0xffff_ffff_0000_0000)
    }
}

/// Counted also where it is zero: as a number of a oneof is.
pub fn len_present_u32(before: u64, field: FieldDescriptor, value: u32) -> u64
    ensures { result ≡ counted_bytes before (part_spelling (optional_number field.number (Some value))) }
{
    len_tagged_number(before, field, u64::from(value))
}

/// Counted where it is present, also when zero.
pub fn len_optional_u64(before: u64, field: FieldDescriptor, value: Option<u64>) -> u64
    ensures { result ≡ counted_bytes before (part_spelling (optional_number field.number value)) }
{
    match value {
        None => before,
        Some(value) => len_tagged_number(before, field, value),
    }
}

fn len_present_slice(before: u64, field: FieldDescriptor, bytes: &[u8]) -> u64
    ensures { result ≡ counted_bytes before (part_spelling (optional_bytes field.number (Some bytes.now))) }
{
    len_tagged_bytes(before, field, bytes.len() as u64)
}

fn len_slice(before: u64, field: FieldDescriptor, bytes: &[u8]) -> u64
    ensures { result ≡ counted_bytes before (part_spelling (plain_bytes field.number bytes.now)) }
{
    if bytes.is_empty() {
        return before;
    }
    len_present_slice(before, field, bytes)
}

/// Left out where it is empty.
pub fn len_bytes(before: u64, field: FieldDescriptor, bytes: &Bytes) -> u64
    ensures { result ≡ counted_bytes before (part_spelling (plain_bytes field.number bytes.now)) }
{
    len_slice(before, field, bytes.as_slice())
}

/// Left out where it is empty.
pub fn len_text(before: u64, field: FieldDescriptor, text: &ByteStr) -> u64
    ensures { result ≡ counted_bytes before (part_spelling (plain_bytes field.number text.now)) }
{
    len_slice(before, field, text.as_bytes().as_slice())
}

/// Counted also where it is empty: as the bytes of a oneof are.
pub fn len_present_bytes(before: u64, field: FieldDescriptor, bytes: &Bytes) -> u64
    ensures { result ≡ counted_bytes before (part_spelling (optional_bytes field.number (Some bytes.now))) }
{
    len_present_slice(before, field, bytes.as_slice())
}

/// Counted also where it is empty: as the text of a oneof is.
pub fn len_present_text(before: u64, field: FieldDescriptor, text: &ByteStr) -> u64
    ensures { result ≡ counted_bytes before (part_spelling (optional_bytes field.number (Some text.now))) }
{
    len_present_slice(before, field, text.as_bytes().as_slice())
}

/// Counted where it is present, also when empty.
pub fn len_optional_text(before: u64, field: FieldDescriptor, text: &Option<ByteStr>) -> u64
    ensures { result ≡ counted_bytes before (part_spelling (optional_bytes field.number text.now)) }
{
    match text {
        None => before,
        Some(text) => len_present_text(before, field, text),
    }
}

/// Each text a field.
#[tactic(auto, using(crate::proofs::Lengths::counted_more))]
pub fn len_texts(before: u64, field: FieldDescriptor, texts: &Sequence<ByteStr>) -> u64
    ensures { result ≡ counted_bytes before (part_spelling (repeated_bytes field.number texts.now)) }
{
    let mut len = before;
    for text in texts.as_slice() {
        len = len_present_text(len, field, text);
    }
    len
}

/// Packed into one field, left out where there is no number.
#[tactic(auto, using(crate::proofs::Lengths::counted_more))]
pub fn len_numbers(before: u64, field: FieldDescriptor, numbers: &Sequence<u32>) -> u64
    ensures { result ≡ counted_bytes before (part_spelling (packed field.number numbers.now)) }
{
    let mut packed: u64 = 0;
    for number in numbers.as_slice() {
        packed = packed.saturating_add(len_varint(u64::from(*number)));
    }
    if packed == 0 {
        return before;
    }
    len_tagged_bytes(before, field, packed)
}

/// Counted also where all fields of the record have their defaults.
pub fn len_record<R: Record>(before: u64, field: FieldDescriptor, one: &R) -> u64
    ensures { result ≡ counted_bytes before (part_spelling (optional_bytes field.number (Some (payload_of (R.parts one.now))))) }
{
    len_tagged_bytes(before, field, one.payload_len())
}

/// Counted where it is present.
pub fn len_optional_record<R: Record>(before: u64, field: FieldDescriptor, one: &Option<R>) -> u64
    ensures { result ≡ counted_bytes before (part_spelling (optional_bytes field.number (option_map (λ r. payload_of (R.parts r)) one.now))) }
{
    match one {
        None => before,
        Some(one) => len_record(before, field, one),
    }
}

/// Each record a field.
#[tactic(auto, using(crate::proofs::Lengths::counted_more))]
pub fn len_records<R: Record>(before: u64, field: FieldDescriptor, all: &Sequence<R>) -> u64
    ensures { result ≡ counted_bytes before (part_spelling (repeated_bytes field.number (map (λ r. payload_of (R.parts r)) all.now))) }
{
    let mut len = before;
    for one in all.as_slice() {
        len = len_record(len, field, one);
    }
    len
}
