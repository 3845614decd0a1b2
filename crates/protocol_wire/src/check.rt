//! Whether a payload is one of a record.

ghost use Rattle.std.specs.Prelude.{◌≡◌, ◌+◌, ◌<◌};
ghost use Rattle.std.specs.Str.{is_utf8};
ghost use Rattle.protocol_wire.specs.Check.{worse as the_worse, bad_unless as the_bad_unless, field_fault, payload_fault};
ghost use Rattle.protocol_wire.specs.Fields.{are_varints as the_are_varints};
ghost use Rattle.protocol_wire.specs.CodeFields.{field as seen};

use crate::varint::varint_at;
use crate::{Payload, Scanned, ScannedField};
use protocol_table::table::{FieldDescriptor, Kind, RecordType, fields_of, kind_of};
use std::str;

/// Why a payload is refused.
#[derive(Clone, Copy, Debug, PartialEq, Eq)]
pub enum Fault {
    /// It isn't fields alone, or a known field has another wire type, or a text isn't UTF-8.
    BadPayload,
    /// Nothing is bad, but a record stands more than a hundred levels below the payload.
    TooDeep,
}

fn worse(a: Option<Fault>, b: Option<Fault>) -> Option<Fault>
    ensures { result ≡ the_worse a b }
{
    match a {
        None => b,
        Some(Fault::BadPayload) => Some(Fault::BadPayload),
        Some(Fault::TooDeep) => match b {
            None => Some(Fault::TooDeep),
            Some(fault) => Some(fault),
        },
    }
}

fn bad_unless(good: bool) -> Option<Fault>
    ensures { result ≡ the_bad_unless good }
{
    if good { None } else { Some(Fault::BadPayload) }
}

fn are_varints(bytes: &[u8]) -> bool
    ensures { result ≡ the_are_varints bytes.now }
{
    let mut rest = bytes;
    while let Some((_, after)) = varint_at(rest) {
        rest = after;
    }
    rest.is_empty()
}

fn is_text(bytes: &[u8]) -> bool
    ensures { result ≡ is_utf8 bytes.now }
{
    for byte in bytes {
        if *byte >= 128 {
            return match str::from_utf8(bytes) {
                Ok(_) => true,
                Err(_) => false,
            };
        }
    }
    true
}

#[cycle(check)]
fn fault_of_field(fields: &[FieldDescriptor], field: ScannedField<'_>, levels: u32) -> Option<Fault>
    ensures { result ≡ field_fault (payload_fault levels) fields.now (seen field.entry) }
{
    match kind_of(fields, field.number) {
        None => None,
        Some(kind) => match (kind, field.value) {
            (Kind::Number | Kind::Numbers, Scanned::Varint(_)) => None,
            (Kind::Numbers, Scanned::Bytes(bytes)) => bad_unless(are_varints(bytes)),
            (Kind::Bytes, Scanned::Bytes(_)) => None,
            (Kind::Text, Scanned::Bytes(bytes)) => bad_unless(is_text(bytes)),
            (Kind::Record(record), Scanned::Bytes(bytes)) => {
                fault_in(record, &Payload::new(bytes), levels)
            }
            (_, _) => Some(Fault::BadPayload),
        },
    }
}

/// What is wrong with a payload of the record, where so many levels are left. What is listed of it is looked at in the list.
#[cycle(check)]
pub fn fault_in(of: RecordType, payload: &Payload<'_>, levels: u32) -> Option<Fault>
    ensures { result ≡ payload_fault levels of payload.now }
{
    if levels == 0 {
        return Some(Fault::TooDeep);
    }
    let fields = fields_of(of);
    let mut fault = None;
    let mut left = payload.fields();
    while let Some((field, after)) = left.split_first() {
        fault = worse(fault, fault_of_field(fields, field, levels - 1));
        left = after;
    }
    worse(fault, bad_unless(left.rest.is_empty()))
}
