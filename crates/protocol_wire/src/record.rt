//! Records, and records in records.

ghost use Rattle.std.specs.Prelude.{◌≡◌, ◌++◌, ◌-◌, ◌^◌, ◌<◌, ℕ, List, [], ◌∷◌, None, IfNone, IfSome, IfOk, IfErr, OnOk, OnErr, length, option_map};
ghost use Rattle.protocol_wire.specs.Wire.{Field};
ghost use Rattle.protocol_wire.specs.Fields.{fields};
ghost use Rattle.protocol_wire.specs.ComingFields.{coming};
ghost use Rattle.protocol_wire.specs.Check.{payload_fault};
ghost use Rattle.protocol_wire.specs.Parts.{Part, payload_of};
ghost use Rattle.protocol_wire.specs.Lengths.{counted_bytes, fitting};
ghost use Rattle.protocol_wire.specs.Sound.{AreSound};
ghost use Rattle.protocol_wire.specs.Selection.{values, texts, joined_bytes as the_joined_bytes, optional_record, records};
ghost use Rattle.protocol_wire.specs.DecodingAnswers.{Decodes, IsRead, ErrIs};
ghost use Rattle.protocol_table.specs.declared.table.RecordType.{RecordType as RecordTypes};

use crate::{Fault, FieldDescriptor, Fields, Payload, Scanned, empty_room, fault_in};
use protocol_table::table::{RecordType, fields_of};
use sequence::Sequence;
use std::alloc::{AllocError, Global};

/// The payload is level 0, and a record in it one level below its holder: a hundred levels below the payload.
pub const LEVELS: u32 = 101;

/// A record: how it is checked, read from fields and spelled.
pub trait Record: Drop + Sized {
    ghost record_type: { RecordTypes };

    // What fields stand for, where so many levels are left.
    ghost of: { ℕ → List Field → Self };

    // The canonical spelling, field by field.
    ghost parts: { Self → List Part };

    // Whether each number is within its type, each text is UTF-8, and so many levels are enough.
    ghost fits: { ℕ → Self → Type 0 };

    /// Which record of the table it is.
    fn record_type() -> RecordType
        ensures { result ≡ record_type };

    /// The record that a payload is with which nothing is wrong, where so many levels are left.
    fn select(alloc: Global, payload: &Payload<'_>, levels: u32) -> Result<Self, AllocError>
        requires { payload_fault levels record_type payload.now ≡ None }
        ensures { IfOk result (λ r. r ≡ of levels (fields payload.now)) };

    /// Puts the canonical spelling behind what is written already. After an `Err` a part of it may stand there.
    fn spell(&self, alloc: Global, out: &mut Vec<u8>) -> Result<(), AllocError>
        ensures { OnOk result (out.new.items ≡ out.old.items ++ payload_of (parts self.now)) };

    /// How long the canonical spelling is; a length that 64 bits don't hold is given as their last. It takes no memory.
    fn payload_len(&self) -> u64
        ensures { result ≡ counted_bytes 0 (payload_of (parts self.now)) };

    // The canonical payload is read again, to the same value.
    ghost reads: { (levels : ℕ) (r : Self) → fits levels r → length (payload_of (parts r)) < 2 ^ 64 → IsRead levels record_type of (payload_of (parts r)) r };
}

/// The record that bytes within a record are, where so many levels are left. They are listed, so that each field is selected with
/// no further look at them; where the record has one field at most, a list would cost more than the one look.
fn select_within<R: Record>(alloc: Global, bytes: &[u8], levels: u32) -> Result<R, AllocError>
    requires { payload_fault levels R.record_type bytes.now ≡ None }
    ensures { IfOk result (λ r. r ≡ R.of levels (fields bytes.now)) }
{
    if fields_of(R::record_type()).len() < 2 {
        return R::select(alloc, &Payload::new(bytes), levels);
    }
    let mut room = empty_room();
    R::select(alloc, &Payload::listed_in(bytes, &mut room), levels)
}

/// The records of this field, in a record where so many levels are left.
#[tactic(auto, unfolding(crate::specs::Selection::texts))]
pub fn records_at<R: Record>(
    alloc: Global,
    payload: &Payload<'_>,
    field: FieldDescriptor,
    levels: u32,
) -> Result<Sequence<R>, AllocError>
    requires { AreSound (payload_fault (levels - 1) R.record_type) (values field.number (fields payload.now)) }
    ensures { IfOk result (λ rs. rs ≡ records (R.of (levels - 1)) field.number (fields payload.now)) }
{
    let below = levels.saturating_sub(1);
    let mut all = Sequence::new(alloc);
    for found in payload.fields() {
        if found.number == field.number {
            if let Scanned::Bytes(bytes) = found.value {
                all.push(select_within(alloc, bytes, below)?)?;
            }
        }
    }
    Ok(all)
}

/// The bytes of the first field with this number that has any, and the fields after it.
#[tactic(auto, unfolding(crate::specs::Selection::texts))]
fn next_bytes<'a>(all: Fields<'a>, field: FieldDescriptor) -> Option<(&'a [u8], Fields<'a>)>
    ensures none { IfNone result (texts field.number (coming all.entry) ≡ []) }
    ensures some { IfSome result (λ x. texts field.number (coming all.entry) ≡ x.0.now ∷ texts field.number (coming x.1)) }
{
    let mut rest = all;
    while let Some((found, after)) = rest.split_first() {
        if found.number == field.number {
            if let Scanned::Bytes(bytes) = found.value {
                return Some((bytes, after));
            }
        }
        rest = after;
    }
    None
}

/// The payload of this field, where there is one alone.
fn sole_bytes<'a>(all: Fields<'a>, field: FieldDescriptor) -> Option<&'a [u8]>
    ensures { IfSome result (λ b. texts field.number (coming all.entry) ≡ b.now ∷ []) }
{
    let (first, rest) = next_bytes(all, field)?;
    match next_bytes(rest, field) {
        None => Some(first),
        Some(_) => None,
    }
}

/// The payloads of this field, one after the other, if there is one.
#[tactic(auto, unfolding(crate::specs::Selection::texts))]
fn joined_bytes(
    alloc: Global,
    from: Fields<'_>,
    field: FieldDescriptor,
) -> Result<Option<Vec<u8>>, AllocError>
    ensures { IfOk result (λ j. option_map (λ v. v.items) j ≡ the_joined_bytes (texts field.number (coming from.entry))) }
{
    let mut is_present = false;
    let mut all = Vec::new(alloc);
    for found in from {
        if found.number == field.number {
            if let Scanned::Bytes(bytes) = found.value {
                is_present = true;
                all.extend_from_slice(bytes)?;
            }
        }
    }
    if is_present { Ok(Some(all)) } else { Ok(None) }
}

/// The record of this field, in a record where so many levels are left, of all payloads with it, if there is one. A payload that
/// is there alone is read where it stands.
pub(crate) fn joined_record<R: Record>(
    alloc: Global,
    all: Fields<'_>,
    field: FieldDescriptor,
    levels: u32,
) -> Result<Option<R>, AllocError>
    requires { AreSound (payload_fault (levels - 1) R.record_type) (values field.number (coming all)) }
    ensures { IfOk result (λ r. r ≡ optional_record (R.of (levels - 1)) field.number (coming all.entry)) }
{
    let below = levels.saturating_sub(1);
    if let Some(bytes) = sole_bytes(all, field) {
        return Ok(Some(select_within(alloc, bytes, below)?));
    }
    match joined_bytes(alloc, all, field)? {
        None => Ok(None),
        Some(bytes) => Ok(Some(select_within(alloc, bytes.as_slice(), below)?)),
    }
}

/// The record of this field, in a record where so many levels are left, of all payloads with it, if there is one.
pub fn optional_record_at<R: Record>(
    alloc: Global,
    payload: &Payload<'_>,
    field: FieldDescriptor,
    levels: u32,
) -> Result<Option<R>, AllocError>
    requires { AreSound (payload_fault (levels - 1) R.record_type) (values field.number (fields payload.now)) }
    ensures { IfOk result (λ r. r ≡ optional_record (R.of (levels - 1)) field.number (fields payload.now)) }
{
    joined_record(alloc, payload.fields(), field, levels)
}

/// Why a payload gave no record.
#[derive(Debug, Drop)]
pub enum DecodeError {
    /// An allocation was refused.
    Memory,
    /// The payload is none of the record.
    Fault(Fault),
}

impl From<AllocError> for DecodeError {
    ghost use Rattle.protocol_wire.specs.declared.record.DecodeError.TheVariants.{Memory};
    ghost use Rattle.std.specs.Prelude.{◌≡◌};

    ghost from_gives = { λ _ e. e ≡ Memory };

    fn from(_e: AllocError) -> DecodeError {
        DecodeError::Memory
    }
}

/// The record that a payload is.
pub fn decode<R: Record>(alloc: Global, payload: &[u8]) -> Result<R, DecodeError>
    // Accepted are the payloads with which nothing is wrong, to their meaning.
    ensures { Decodes R.record_type R.of payload.now result }
{
    let mut room = empty_room();
    let listed = Payload::listed_in(payload, &mut room);
    match fault_in(R::record_type(), &listed, LEVELS) {
        Some(fault) => Err(DecodeError::Fault(fault)),
        None => Ok(R::select(alloc, &listed, LEVELS)?),
    }
}

/// The canonical payload of a record: each field in ascending order of numbers, defaults of plain fields left out.
pub fn encode<R: Record>(alloc: Global, one: &R) -> Result<Vec<u8>, AllocError>
    ensures { IfOk result (λ v. v.items ≡ payload_of (R.parts one.now)) }
{
    let mut out = Vec::new(alloc);
    one.spell(alloc, &mut out)?;
    Ok(out)
}

/// The length of the canonical payload, where it fits 32 bits. It takes no memory.
#[tactic(auto, using(crate::proofs::Lengths::fitting_counted))]
pub fn encoded_len<R: Record>(one: &R) -> Option<u32>
    ensures { result ≡ fitting (length (payload_of (R.parts one.now))) }
{
    let len = one.payload_len();
    if len < 1 << 32 {
        Some(len as u32)
    } else {
        None
    }
}

/// Merges a payload into a record. An `Err` changes nothing.
pub fn merge<R: Record>(alloc: Global, one: &mut R, payload: &[u8]) -> Result<(), DecodeError>
    ensures ok { OnOk result (IsRead LEVELS R.record_type R.of (payload_of (R.parts one.old) ++ payload.now) one.new) }
    ensures fault { IfErr result (λ e. ErrIs e (payload_fault LEVELS R.record_type (payload_of (R.parts one.old) ++ payload.now))) }
    ensures err { OnErr result (one.new ≡ one.old) }
{
    let mut all = Vec::new(alloc);
    one.spell(alloc, &mut all)?;
    all.extend_from_slice(payload)?;
    let merged = decode(alloc, &all)?;
    *one = merged;
    Ok(())
}

/// What is encoded is decoded again, to the same value: where each number is within its type, each text is UTF-8, no record
/// stands more than a hundred levels below the payload, and the payload is shorter than 2^64 bytes.
pub fn decode_of_encoded<R: Record>()
    ensures { (r : R) → R.fits LEVELS r → length (payload_of (R.parts r)) < 2 ^ 64 → IsRead LEVELS R.record_type R.of (payload_of (R.parts r)) r }
{}
