//! One field of a record, spelled behind what is written already.
//!
//! Plain fields are left out where they are zero, false or empty; optional ones are written also then; repeated numbers are
//! packed into one field. After an `Err` the bytes may end in a part of the field.

ghost use Rattle.std.specs.Prelude.{◌≡◌, ◌++◌, ◌*◌, ◌+◌, Some, map, OnOk, option_map};
ghost use Rattle.protocol_wire.specs.Wire.{varint, bytes as bytes_value};
ghost use Rattle.protocol_wire.specs.Spelling.{varint_spelling, varint_spelling_within, tagged};
ghost use Rattle.protocol_wire.specs.Parts.{part_spelling, plain_number, bool_number, enum_number, plain_bytes, optional_number, optional_bytes, repeated_bytes, packed, payload_of};

use crate::{FieldDescriptor, Record};
use bytes::{ByteStr, Bytes};
use sequence::Sequence;
use std::alloc::{AllocError, Global};

#[tactic(auto, unfolding(crate::specs::Spelling::varint_spelling_within))]
fn put_varint_within(out: &mut Vec<u8>, most: u32, number: u64) -> Result<(), AllocError>
    ensures { OnOk result (out.new.items ≡ out.old.items ++ varint_spelling_within most number) }
{
    if most == 0 {
        return Ok(());
    }
    if number < 128 {
        out.push(number as u8)?;
        return Ok(());
    }
    out.push((number % 128 + 128) as u8)?;
    put_varint_within(out, most - 1, number / 128)
}

#[tactic(auto, unfolding(crate::specs::Spelling::varint_spelling))]
fn put_varint(out: &mut Vec<u8>, number: u64) -> Result<(), AllocError>
    ensures { OnOk result (out.new.items ≡ out.old.items ++ varint_spelling number) }
{
    put_varint_within(out, 10, number)
}

#[tactic(auto, unfolding(crate::specs::Spelling::tagged))]
fn put_tagged_number(
    out: &mut Vec<u8>,
    field: FieldDescriptor,
    value: u64,
) -> Result<(), AllocError>
    ensures { OnOk result (out.new.items ≡ out.old.items ++ tagged field.number (varint value)) }
{
    put_varint(out, 8 * u64::from(field.number))?;
    put_varint(out, value)
}

/// The tag of bytes, and how many there are.
fn put_length(out: &mut Vec<u8>, field: FieldDescriptor, length: u64) -> Result<(), AllocError>
    ensures { OnOk result (out.new.items ≡ out.old.items ++ (varint_spelling (8 * field.number + 2) ++ varint_spelling length)) }
{
    put_varint(out, 8 * u64::from(field.number) + 2)?;
    put_varint(out, length)
}

/// The tag, the length and the bytes, also where there are none: as the payload of a record within a record is spelled.
#[tactic(auto, unfolding(crate::specs::Spelling::tagged))]
pub fn put_tagged_bytes(
    out: &mut Vec<u8>,
    field: FieldDescriptor,
    bytes: &[u8],
) -> Result<(), AllocError>
    ensures { OnOk result (out.new.items ≡ out.old.items ++ tagged field.number (bytes_value bytes.now)) }
{
    put_length(out, field, bytes.len() as u64)?;
    out.extend_from_slice(bytes)
}

/// Left out where it is zero.
pub fn put_u64(out: &mut Vec<u8>, field: FieldDescriptor, value: u64) -> Result<(), AllocError>
    ensures { OnOk result (out.new.items ≡ out.old.items ++ part_spelling (plain_number field.number value)) }
{
    if value == 0 {
        return Ok(());
    }
    put_tagged_number(out, field, value)
}

/// Left out where it is zero.
pub fn put_u32(out: &mut Vec<u8>, field: FieldDescriptor, value: u32) -> Result<(), AllocError>
    ensures { OnOk result (out.new.items ≡ out.old.items ++ part_spelling (plain_number field.number value)) }
{
    put_u64(out, field, u64::from(value))
}

/// Left out where it is false.
pub fn put_bool(out: &mut Vec<u8>, field: FieldDescriptor, flag: bool) -> Result<(), AllocError>
    ensures { OnOk result (out.new.items ≡ out.old.items ++ part_spelling (plain_number field.number (bool_number flag))) }
{
    put_u64(out, field, u64::from(flag))
}

/// The number of an enum, given by its 32 bits: left out where it is zero, ten bytes where it is negative.
pub fn put_enum(out: &mut Vec<u8>, field: FieldDescriptor, value: u32) -> Result<(), AllocError>
    ensures { OnOk result (out.new.items ≡ out.old.items ++ part_spelling (plain_number field.number (enum_number value))) }
{
    let number = u64::from(value);
    if value < 1 << 31 {
        put_u64(out, field, number)
    } else {
        put_u64(out, field, number + 0xffff_ffff_0000_0000)
    }
}

/// Written also where it is zero: as a number of a oneof is.
pub fn put_present_u32(
    out: &mut Vec<u8>,
    field: FieldDescriptor,
    value: u32,
) -> Result<(), AllocError>
    ensures { OnOk result (out.new.items ≡ out.old.items ++ part_spelling (optional_number field.number (Some value))) }
{
    put_tagged_number(out, field, u64::from(value))
}

/// Written where it is present, also when zero.
pub fn put_optional_u64(
    out: &mut Vec<u8>,
    field: FieldDescriptor,
    value: Option<u64>,
) -> Result<(), AllocError>
    ensures { OnOk result (out.new.items ≡ out.old.items ++ part_spelling (optional_number field.number value)) }
{
    match value {
        None => Ok(()),
        Some(value) => put_tagged_number(out, field, value),
    }
}

fn put_slice(out: &mut Vec<u8>, field: FieldDescriptor, bytes: &[u8]) -> Result<(), AllocError>
    ensures { OnOk result (out.new.items ≡ out.old.items ++ part_spelling (plain_bytes field.number bytes.now)) }
{
    if bytes.is_empty() {
        return Ok(());
    }
    put_tagged_bytes(out, field, bytes)
}

/// Left out where it is empty.
pub fn put_bytes(out: &mut Vec<u8>, field: FieldDescriptor, bytes: &Bytes) -> Result<(), AllocError>
    ensures { OnOk result (out.new.items ≡ out.old.items ++ part_spelling (plain_bytes field.number bytes.now)) }
{
    put_slice(out, field, bytes.as_slice())
}

/// Left out where it is empty.
pub fn put_text(out: &mut Vec<u8>, field: FieldDescriptor, text: &ByteStr) -> Result<(), AllocError>
    ensures { OnOk result (out.new.items ≡ out.old.items ++ part_spelling (plain_bytes field.number text.now)) }
{
    put_slice(out, field, text.as_bytes().as_slice())
}

/// Written also where it is empty: as the bytes of a oneof are.
pub fn put_present_bytes(
    out: &mut Vec<u8>,
    field: FieldDescriptor,
    bytes: &Bytes,
) -> Result<(), AllocError>
    ensures { OnOk result (out.new.items ≡ out.old.items ++ part_spelling (optional_bytes field.number (Some bytes.now))) }
{
    put_tagged_bytes(out, field, bytes.as_slice())
}

/// Written also where it is empty: as the text of a oneof is.
pub fn put_present_text(
    out: &mut Vec<u8>,
    field: FieldDescriptor,
    text: &ByteStr,
) -> Result<(), AllocError>
    ensures { OnOk result (out.new.items ≡ out.old.items ++ part_spelling (optional_bytes field.number (Some text.now))) }
{
    put_tagged_bytes(out, field, text.as_bytes().as_slice())
}

/// Written where it is present, also when empty.
pub fn put_optional_text(
    out: &mut Vec<u8>,
    field: FieldDescriptor,
    text: &Option<ByteStr>,
) -> Result<(), AllocError>
    ensures { OnOk result (out.new.items ≡ out.old.items ++ part_spelling (optional_bytes field.number text.now)) }
{
    match text {
        None => Ok(()),
        Some(text) => put_tagged_bytes(out, field, text.as_bytes().as_slice()),
    }
}

/// Each text a field.
pub fn put_texts(
    out: &mut Vec<u8>,
    field: FieldDescriptor,
    texts: &Sequence<ByteStr>,
) -> Result<(), AllocError>
    ensures { OnOk result (out.new.items ≡ out.old.items ++ part_spelling (repeated_bytes field.number texts.now)) }
{
    for text in texts.as_slice() {
        put_tagged_bytes(out, field, text.as_bytes().as_slice())?;
    }
    Ok(())
}

/// Packed into one field, left out where there is no number.
pub fn put_numbers(
    alloc: Global,
    out: &mut Vec<u8>,
    field: FieldDescriptor,
    numbers: &Sequence<u32>,
) -> Result<(), AllocError>
    ensures { OnOk result (out.new.items ≡ out.old.items ++ part_spelling (packed field.number numbers.now)) }
{
    let mut packed = Vec::new(alloc);
    for number in numbers.as_slice() {
        put_varint(&mut packed, u64::from(*number))?;
    }
    put_slice(out, field, &packed)
}

/// Written also where all fields of the record have their defaults: its length, and then the record where it belongs.
#[tactic(auto, unfolding(crate::specs::Spelling::tagged))]
pub fn put_record<R: Record>(
    alloc: Global,
    out: &mut Vec<u8>,
    field: FieldDescriptor,
    one: &R,
) -> Result<(), AllocError>
    ensures { OnOk result (out.new.items ≡ out.old.items ++ part_spelling (optional_bytes field.number (Some (payload_of (R.parts one.now))))) }
{
    put_length(out, field, one.payload_len())?;
    one.spell(alloc, out)
}

/// Written where it is present.
pub fn put_optional_record<R: Record>(
    alloc: Global,
    out: &mut Vec<u8>,
    field: FieldDescriptor,
    one: &Option<R>,
) -> Result<(), AllocError>
    ensures { OnOk result (out.new.items ≡ out.old.items ++ part_spelling (optional_bytes field.number (option_map (λ r. payload_of (R.parts r)) one.now))) }
{
    match one {
        None => Ok(()),
        Some(one) => put_record(alloc, out, field, one),
    }
}

/// Each record a field.
pub fn put_records<R: Record>(
    alloc: Global,
    out: &mut Vec<u8>,
    field: FieldDescriptor,
    all: &Sequence<R>,
) -> Result<(), AllocError>
    ensures { OnOk result (out.new.items ≡ out.old.items ++ part_spelling (repeated_bytes field.number (map (λ r. payload_of (R.parts r)) all.now))) }
{
    for one in all.as_slice() {
        put_record(alloc, out, field, one)?;
    }
    Ok(())
}
