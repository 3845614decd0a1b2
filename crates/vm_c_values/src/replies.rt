// What C is told, as bytes.
ghost use Rattle.std.specs.Prelude.{◌≡◌, IfOk};
ghost use Rattle.protocol_wire.specs.Parts.{payload_of};
ghost use Rattle.vm_c_values.specs.Replies.{kind_of, part_of, reply_of};

use bytes::{ByteStr, Bytes};
use journal_model::{Input, Value};
use protocol_records::StateKeys;
use protocol_stream::to_failure_record;
use protocol_wire::{Record, encode};
use sequence::Sequence;
use std::alloc::{AllocError, Global};

// The payload of a record.
fn payload<R: Record + Drop>(alloc: Global, one: R) -> Result<Bytes, AllocError>
    ensures { IfOk result (λ bytes. bytes ≡ payload_of (R.parts one)) }
{
    Ok(Bytes::from_vec(encode(alloc, &one)?)?)
}

// Texts as the bytes that they are. They share their memory.
fn to_bytes(alloc: Global, texts: &[ByteStr]) -> Result<Sequence<Bytes>, AllocError>
    ensures { IfOk result (λ keys. keys ≡ texts.now) }
{
    let mut keys = Sequence::new(alloc);
    for text in texts {
        keys.push(text.clone()?.into_bytes())?;
    }
    Ok(keys)
}

fn state_keys(alloc: Global, texts: Sequence<ByteStr>) -> Result<StateKeys, AllocError>
    ensures { IfOk result (λ made. made.keys ≡ texts) }
{
    Ok(StateKeys {
        keys: to_bytes(alloc, texts.as_slice())?,
    })
}

/// Of which kind what has come is: 0 nothing, 1 void, 2 a value, 3 a failure, 4 keys, 5 an invocation's id.
pub fn kind_of(taken: &Option<Value>) -> u32
    ensures { result ≡ kind_of taken.now }
{
    match taken {
        None => 0,
        Some(Value::Void) => 1,
        Some(Value::Success(_)) => 2,
        Some(Value::Failure(_)) => 3,
        Some(Value::StateKeys(_)) => 4,
        Some(Value::InvocationId(_)) => 5,
    }
}

/// The bytes of what has come, where it has some: of a failure the payload of a `Failure`, of keys that of a `StateKeys`.
pub fn reply_of(alloc: Global, taken: Option<Value>) -> Result<Bytes, AllocError>
    ensures { IfOk result (λ bytes. bytes ≡ reply_of taken) }
{
    match taken {
        None | Some(Value::Void) => Ok(Bytes::new()),
        Some(Value::Success(bytes)) => Ok(bytes),
        Some(Value::InvocationId(id)) => Ok(id.into_bytes()),
        Some(Value::Failure(failure)) => payload(alloc, to_failure_record(alloc, failure)?),
        Some(Value::StateKeys(texts)) => payload(alloc, state_keys(alloc, texts)?),
    }
}

fn text_or_none(part: &Option<ByteStr>) -> Result<Option<Bytes>, AllocError>
    ensures { IfOk result (λ copied. copied ≡ part.now) }
{
    match part {
        None => Ok(None),
        Some(text) => Ok(Some(text.clone()?.into_bytes())),
    }
}

fn header_name(input: &Input, index: usize) -> Result<Option<Bytes>, AllocError>
    ensures { IfOk result (λ copied. copied ≡ part_of input.now 6 index) }
{
    match input.headers.get(index) {
        Some(header) => Ok(Some(header.key.clone()?.into_bytes())),
        None => Ok(None),
    }
}

fn header_value(input: &Input, index: usize) -> Result<Option<Bytes>, AllocError>
    ensures { IfOk result (λ copied. copied ≡ part_of input.now 7 index) }
{
    match input.headers.get(index) {
        Some(header) => Ok(Some(header.value.clone()?.into_bytes())),
        None => Ok(None),
    }
}

/// A part of an input, where there is one: 0 its bytes, 1 the invocation's id, 2 its object's key, 3 the scope, 4 the limit key, 5 the
/// idempotency key, 6 and 7 the name and the value of the header of this index.
pub fn part_of(input: &Input, part: u32, index: usize) -> Result<Option<Bytes>, AllocError>
    ensures { IfOk result (λ copied. copied ≡ part_of input.now part index) }
{
    match part {
        0 => Ok(Some(input.input.clone()?)),
        1 => Ok(Some(input.invocation_id.clone()?.into_bytes())),
        2 => Ok(Some(input.key.clone()?.into_bytes())),
        3 => text_or_none(&input.scope),
        4 => text_or_none(&input.limit_key),
        5 => text_or_none(&input.idempotency_key),
        6 => header_name(input, index),
        7 => header_value(input, index),
        _ => Ok(None),
    }
}
