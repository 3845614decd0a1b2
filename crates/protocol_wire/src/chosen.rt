//! What stands of a oneof: of its fields the last run of one of them.

ghost use Rattle.std.specs.Prelude.{◌≡◌, ◌-◌, [], true, IfOk};
ghost use Rattle.protocol_wire.specs.Fields.{fields};
ghost use Rattle.protocol_wire.specs.ComingFields.{coming};
ghost use Rattle.protocol_wire.specs.Check.{payload_fault};
ghost use Rattle.protocol_wire.specs.Sound.{AreTexts, AreSound};
ghost use Rattle.protocol_wire.specs.Selection.{values, is_among, among, run, optional_u32, optional_text, optional_record};

use crate::record::joined_record;
use crate::select::{copied_bytes, copied_text, low_number, run_at};
use crate::{FieldDescriptor, Fields, Payload, Record};
use bytes::{ByteStr, Bytes};
use std::alloc::{AllocError, Global};

/// Whether there is no field with this number. So it is with each variant of a oneof but one, mostly: that is seen before a run is
/// looked for.
fn lacks(all: Fields<'_>, field: FieldDescriptor) -> bool
    ensures { (result ≡ true) → values field.number (coming all.entry) ≡ [] }
{
    for found in all {
        if found.number == field.number {
            return false;
        }
    }
    true
}

/// The fields from the last run of one of these on; none where there is no such field.
fn last_run_at<'a>(payload: &'a Payload<'_>, variants: &[u32]) -> Fields<'a>
    ensures { among variants.now (coming result) ≡ run variants.now (fields payload.now) }
{
    match run_at(payload.fields(), variants) {
        None => Fields {
            listed: &[],
            rest: &[],
        },
        Some((_, rest)) => rest,
    }
}

/// The low 32 bits of the number of this field, where it is the one of the oneof that stands.
pub fn chosen_u32_at(payload: &Payload<'_>, variants: &[u32], field: FieldDescriptor) -> Option<u32>
    requires { is_among variants.now field.number ≡ true }
    ensures { result ≡ optional_u32 field.number (run variants.now (fields payload.now)) }
{
    if lacks(payload.fields(), field) {
        None
    } else {
        low_number(last_run_at(payload, variants), field)
    }
}

/// A copy of the bytes of this field, where it is the one of the oneof that stands.
pub fn chosen_bytes_at(
    alloc: Global,
    payload: &Payload<'_>,
    variants: &[u32],
    field: FieldDescriptor,
) -> Result<Option<Bytes>, AllocError>
    requires { is_among variants.now field.number ≡ true }
    ensures { IfOk result (λ b. b ≡ optional_text field.number (run variants.now (fields payload.now))) }
{
    if lacks(payload.fields(), field) {
        Ok(None)
    } else {
        copied_bytes(alloc, last_run_at(payload, variants), field)
    }
}

/// A copy of the text of this field, where it is the one of the oneof that stands.
pub fn chosen_text_at(
    alloc: Global,
    payload: &Payload<'_>,
    variants: &[u32],
    field: FieldDescriptor,
) -> Result<Option<ByteStr>, AllocError>
    requires { (is_among variants.now field.number ≡ true) × AreTexts (values field.number (fields payload.now)) }
    ensures { IfOk result (λ b. b ≡ optional_text field.number (run variants.now (fields payload.now))) }
{
    if lacks(payload.fields(), field) {
        Ok(None)
    } else {
        copied_text(alloc, last_run_at(payload, variants), field)
    }
}

/// The record of this field, of all payloads in the run, where it is the one of the oneof that stands, in a record where so
/// many levels are left.
pub fn chosen_record_at<R: Record>(
    alloc: Global,
    payload: &Payload<'_>,
    variants: &[u32],
    field: FieldDescriptor,
    levels: u32,
) -> Result<Option<R>, AllocError>
    requires { (is_among variants.now field.number ≡ true) × AreSound (payload_fault (levels - 1) R.record_type) (values field.number (fields payload.now)) }
    ensures { IfOk result (λ r. r ≡ optional_record (R.of (levels - 1)) field.number (run variants.now (fields payload.now))) }
{
    if lacks(payload.fields(), field) {
        Ok(None)
    } else {
        joined_record(alloc, last_run_at(payload, variants), field, levels)
    }
}
