ghost use Rattle.std.specs.Prelude.{◌≡◌, ◌++◌, OnOk, IfOk};
ghost use Rattle.protocol_wire.specs.Fields.{fields};
ghost use Rattle.protocol_wire.specs.Selection.{texts as the_texts};
ghost use Rattle.protocol_wire.specs.Parts.{part_spelling, repeated_bytes};
ghost use Rattle.protocol_wire.specs.Lengths.{counted_bytes};

use bytes::Bytes;
use protocol_wire::table::state_keys::KEYS;
use protocol_wire::{
    FieldDescriptor, Payload, Record, RecordType, Scanned, len_present_bytes, put_tagged_bytes,
};
use sequence::Sequence;
use std::alloc::{AllocError, Global};

/// Keys of the object's state.
#[derive(Debug, Drop)]
pub struct StateKeys {
    pub keys: Sequence<Bytes>,
}

impl Record for StateKeys {
    ghost use Rattle.protocol_records.specs.StateKeys.{state_keys_of, state_keys_parts, StateKeysFits};
    ghost use Rattle.protocol_records.specs.ReadBack.{state_keys_reads};
    ghost use Rattle.protocol_table.specs.declared.table.RecordType.TheVariants.{StateKeys as state_keys_type};

    ghost record_type = { state_keys_type };

    ghost of = { state_keys_of };

    ghost parts = { state_keys_parts };

    ghost fits = { StateKeysFits };

    fn record_type() -> RecordType {
        RecordType::StateKeys
    }

    fn select(alloc: Global, payload: &Payload<'_>, levels: u32) -> Result<Self, AllocError> {
        Ok(StateKeys {
            keys: repeated_bytes_at(alloc, payload, KEYS)?,
        })
    }

    fn spell(&self, alloc: Global, out: &mut Vec<u8>) -> Result<(), AllocError> {
        put_repeated_bytes(out, KEYS, &self.keys)?;
        Ok(())
    }

    fn payload_len(&self) -> u64 {
        len_repeated_bytes(0, KEYS, &self.keys)
    }

    ghost reads = { state_keys_reads };
}

/// A copy of the bytes of each field with this number, in their order.
#[tactic(auto, unfolding(protocol_wire::specs::Selection::texts))]
fn repeated_bytes_at(
    alloc: Global,
    payload: &Payload<'_>,
    field: FieldDescriptor,
) -> Result<Sequence<Bytes>, AllocError>
    ensures { IfOk result (λ b. b ≡ the_texts field.number (fields payload.now)) }
{
    let mut all = Sequence::new(alloc);
    for found in payload.fields() {
        if found.number == field.number {
            if let Scanned::Bytes(bytes) = found.value {
                all.push(Bytes::copy_from_slice(alloc, bytes)?)?;
            }
        }
    }
    Ok(all)
}

/// Each of them a field.
fn put_repeated_bytes(
    out: &mut Vec<u8>,
    field: FieldDescriptor,
    all: &Sequence<Bytes>,
) -> Result<(), AllocError>
    ensures { OnOk result (out.new.items ≡ out.old.items ++ part_spelling (repeated_bytes field.number all.now)) }
{
    for bytes in all.as_slice() {
        put_tagged_bytes(out, field, bytes.as_slice())?;
    }
    Ok(())
}

/// Each of them a field.
#[tactic(auto, using(protocol_wire::proofs::Lengths::counted_more))]
fn len_repeated_bytes(before: u64, field: FieldDescriptor, all: &Sequence<Bytes>) -> u64
    ensures { result ≡ counted_bytes before (part_spelling (repeated_bytes field.number all.now)) }
{
    let mut len = before;
    for bytes in all.as_slice() {
        len = len_present_bytes(len, field, bytes);
    }
    len
}
