//! One field of a record, selected from a payload.

ghost use Rattle.std.specs.Prelude.{◌≡◌, [], Some, IfNone, ◌++◌, ◌%◌, ◌^◌, ℕ, List, map, OnOk, option_map, IfOk, IfSome, IsUtf8};
ghost use Rattle.protocol_wire.specs.Fields.{fields, varints};
ghost use Rattle.protocol_wire.specs.ComingFields.{coming};
ghost use Rattle.protocol_wire.specs.Sound.{AreTexts};
ghost use Rattle.protocol_wire.specs.Selection.{run, is_run as the_is_run, variant_of, is_among, among, last_number as the_last_number, last_bytes as the_last_bytes, values, u64 as the_u64, u32 as the_u32, bool as the_bool, text as the_text, numbers as the_numbers, texts as the_texts, optional_text, optional_u32, optional_u64};

use crate::varint::varint_at;
use crate::{FieldDescriptor, Fields, Payload, Scanned};
use bytes::{ByteStr, Bytes};
use sequence::Sequence;
use std::alloc::{AllocError, Global};

/// The last number of this field.
#[tactic(auto, unfolding(crate::specs::Selection::last_number))]
fn last_number(all: Fields<'_>, field: FieldDescriptor) -> Option<u64>
    ensures { result ≡ the_last_number field.number (coming all.entry) }
{
    let mut last = None;
    for found in all {
        if found.number == field.number {
            if let Scanned::Varint(number) = found.value {
                last = Some(number);
            }
        }
    }
    last
}

/// The last bytes of this field.
#[tactic(auto, unfolding(crate::specs::Selection::last_bytes))]
fn last_bytes<'a>(all: Fields<'a>, field: FieldDescriptor) -> Option<&'a [u8]>
    ensures bytes { option_map (λ b. b.now) result ≡ the_last_bytes field.number (coming all.entry) }
    ensures text { AreTexts (values field.number (coming all.entry)) → IfSome result (λ b. IsUtf8 b.now) }
{
    let mut last = None;
    for found in all {
        if found.number == field.number {
            if let Scanned::Bytes(bytes) = found.value {
                last = Some(bytes);
            }
        }
    }
    last
}

/// The low 32 bits of the last number of this field, if there is one.
pub(crate) fn low_number(all: Fields<'_>, field: FieldDescriptor) -> Option<u32>
    ensures { result ≡ optional_u32 field.number (coming all.entry) }
{
    let number = last_number(all, field)?;
    Some((number % (1 << 32)) as u32)
}

/// A copy of the last bytes of this field, if there are any.
pub(crate) fn copied_bytes(
    alloc: Global,
    all: Fields<'_>,
    field: FieldDescriptor,
) -> Result<Option<Bytes>, AllocError>
    ensures { IfOk result (λ b. b ≡ optional_text field.number (coming all.entry)) }
{
    match last_bytes(all, field) {
        None => Ok(None),
        Some(bytes) => Ok(Some(Bytes::copy_from_slice(alloc, bytes)?)),
    }
}

/// A copy of the last text of this field, if there is one.
pub(crate) fn copied_text(
    alloc: Global,
    all: Fields<'_>,
    field: FieldDescriptor,
) -> Result<Option<ByteStr>, AllocError>
    requires { AreTexts (values field.number (coming all)) }
    ensures { IfOk result (λ b. b ≡ optional_text field.number (coming all.entry)) }
{
    match last_bytes(all, field) {
        None => Ok(None),
        Some(bytes) => Ok(Some(ByteStr::from_known_utf8(Bytes::copy_from_slice(alloc, bytes)?))),
    }
}

/// The last number of this field; 0 where there is none.
pub fn u64_at(payload: &Payload<'_>, field: FieldDescriptor) -> u64
    ensures { result ≡ the_u64 field.number (fields payload.now) }
{
    last_number(payload.fields(), field).unwrap_or(0)
}

/// The low 32 bits of the last number of this field; 0 where there is none.
pub fn u32_at(payload: &Payload<'_>, field: FieldDescriptor) -> u32
    ensures { result ≡ the_u32 field.number (fields payload.now) }
{
    (u64_at(payload, field) % (1 << 32)) as u32
}

/// The last number of this field, if there is one.
pub fn optional_u64_at(payload: &Payload<'_>, field: FieldDescriptor) -> Option<u64>
    ensures { result ≡ optional_u64 field.number (fields payload.now) }
{
    last_number(payload.fields(), field)
}

/// Whether the last number of this field isn't 0; false where there is none.
pub fn bool_at(payload: &Payload<'_>, field: FieldDescriptor) -> bool
    ensures { result ≡ the_bool field.number (fields payload.now) }
{
    u64_at(payload, field) != 0
}

/// A copy of the last bytes of this field; empty where there are none.
pub fn bytes_at(
    alloc: Global,
    payload: &Payload<'_>,
    field: FieldDescriptor,
) -> Result<Bytes, AllocError>
    ensures { IfOk result (λ b. b ≡ the_text field.number (fields payload.now)) }
{
    match last_bytes(payload.fields(), field) {
        None => Ok(Bytes::new()),
        Some(bytes) => Bytes::copy_from_slice(alloc, bytes),
    }
}

/// A copy of the last text of this field; empty where there is none.
pub fn text_at(
    alloc: Global,
    payload: &Payload<'_>,
    field: FieldDescriptor,
) -> Result<ByteStr, AllocError>
    requires { AreTexts (values field.number (fields payload.now)) }
    ensures { IfOk result (λ b. b ≡ the_text field.number (fields payload.now)) }
{
    match last_bytes(payload.fields(), field) {
        None => Ok(ByteStr::new()),
        Some(bytes) => Ok(ByteStr::from_known_utf8(Bytes::copy_from_slice(alloc, bytes)?)),
    }
}

/// A copy of the last text of this field, if there is one.
pub fn optional_text_at(
    alloc: Global,
    payload: &Payload<'_>,
    field: FieldDescriptor,
) -> Result<Option<ByteStr>, AllocError>
    requires { AreTexts (values field.number (fields payload.now)) }
    ensures { IfOk result (λ b. b ≡ optional_text field.number (fields payload.now)) }
{
    copied_text(alloc, payload.fields(), field)
}

/// A copy of each text of this field, in their order.
#[tactic(auto, unfolding(crate::specs::Selection::texts))]
pub fn texts_at(
    alloc: Global,
    payload: &Payload<'_>,
    field: FieldDescriptor,
) -> Result<Sequence<ByteStr>, AllocError>
    requires { AreTexts (values field.number (fields payload.now)) }
    ensures { IfOk result (λ b. b ≡ the_texts field.number (fields payload.now)) }
{
    let mut texts = Sequence::new(alloc);
    for found in payload.fields() {
        if found.number == field.number {
            if let Scanned::Bytes(bytes) = found.value {
                texts.push(ByteStr::from_known_utf8(Bytes::copy_from_slice(alloc, bytes)?))?;
            }
        }
    }
    Ok(texts)
}

fn push_varints(numbers: &mut Sequence<u32>, bytes: &[u8]) -> Result<(), AllocError>
    ensures { OnOk result (numbers.new ≡ numbers.old ++ map (λ n. n % 2 ^ 32) (varints bytes.now)) }
{
    let mut rest = bytes;
    while let Some((number, after)) = varint_at(rest) {
        numbers.push((number % (1 << 32)) as u32)?;
        rest = after;
    }
    Ok(())
}

/// The low 32 bits of each number of this field, packed or not, in their order.
#[tactic(auto, unfolding(crate::specs::Selection::numbers))]
pub fn numbers_at(
    alloc: Global,
    payload: &Payload<'_>,
    field: FieldDescriptor,
) -> Result<Sequence<u32>, AllocError>
    ensures { IfOk result (λ b. b ≡ the_numbers field.number (fields payload.now)) }
{
    let mut numbers = Sequence::new(alloc);
    for found in payload.fields() {
        if found.number == field.number {
            match found.value {
                Scanned::Varint(number) => numbers.push((number % (1 << 32)) as u32)?,
                Scanned::Bytes(bytes) => push_varints(&mut numbers, bytes)?,
                Scanned::Fixed => {}
            }
        }
    }
    Ok(numbers)
}

fn is_run(found: Option<(u32, Fields<'_>)>, number: u32) -> bool
    ensures { result ≡ the_is_run (option_map (λ x. (x.0, [])) found.entry) number }
{
    match found {
        None => false,
        Some((of, _)) => of == number,
    }
}

fn is_variant(variants: &[u32], number: u32) -> bool
    ensures { result ≡ is_among variants.now number }
{
    for variant in variants {
        if *variant == number {
            return true;
        }
    }
    false
}

/// Which of the variants of a oneof stands, and the fields from its last run on.
pub(crate) fn run_at<'a>(all: Fields<'a>, variants: &[u32]) -> Option<(u32, Fields<'a>)>
    ensures none { IfNone result (run variants.now (coming all.entry) ≡ []) }
    ensures variant { IfSome result (λ r. variant_of (run variants.now (coming all.entry)) ≡ Some r.0) }
    ensures rest { IfSome result (λ r. among variants.now (coming r.1) ≡ run variants.now (coming all.entry)) }
{
    let mut found: Option<(u32, Fields<'a>)> = None;
    let mut rest = all;
    while let Some((field, after)) = rest.split_first() {
        if is_variant(variants, field.number) && !is_run(found, field.number) {
            found = Some((field.number, rest));
        }
        rest = after;
    }
    found
}
