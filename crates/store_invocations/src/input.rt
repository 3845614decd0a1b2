//! The input of a new invocation, as its first entry.

ghost use Rattle.std.specs.Prelude.{◌≡◌, map, IfOk, IfErr};
ghost use Rattle.journal_model.specs.Spelling.{input_payload};
ghost use Rattle.protocol_stream.specs.Records.{header_record, input_record};
ghost use Rattle.store_invocations.specs.NewInvocations.{input_tests};
ghost use Rattle.store_invocations.specs.Rows.{Decides};
ghost use Rattle.store_refusals.specs.Causes.{IsUnasked};

use bytes::{ByteStr, Bytes};
use journal_model::NewInvocation;
use protocol_records::{Header, InputCommandMessage, Value};
use protocol_wire::encode;
use sequence::Sequence;
use std::alloc::{AllocError, Global};
use store_refusals::{Cause, Refusal};

fn header_record_of(header: &journal_model::Header) -> Result<Header, AllocError>
    ensures { IfOk result (λ one. one ≡ header_record header.now) }
{
    Ok(Header {
        key: header.key.clone()?,
        value: header.value.clone()?,
    })
}

fn header_records(
    alloc: Global,
    headers: &Sequence<journal_model::Header>,
) -> Result<Sequence<Header>, AllocError>
    ensures { IfOk result (λ records. records ≡ map header_record headers.now) }
{
    let mut records = Sequence::new(alloc);
    for header in headers.as_slice() {
        records.push(header_record_of(header)?)?;
    }
    Ok(records)
}

fn input_record_of(alloc: Global, new: &NewInvocation) -> Result<InputCommandMessage, AllocError>
    ensures { IfOk result (λ input. input ≡ input_record new.now.headers new.now.input) }
{
    Ok(InputCommandMessage {
        headers: header_records(alloc, &new.headers)?,
        name: ByteStr::new(),
        value: Some(Value {
            content: new.input.clone()?,
        }),
    })
}

fn spelled_input(alloc: Global, new: &NewInvocation) -> Result<Vec<u8>, AllocError>
    ensures { IfOk result (λ payload. payload.items ≡ input_payload new.now.headers new.now.input) }
{
    let input = input_record_of(alloc, new)?;
    let spelled = encode(alloc, &input);
    drop(input);
    let payload = spelled?;
    Ok(payload)
}

/// The payload of an invocation's input, if its length fits 32 bits.
pub(crate) fn payload_of_input(alloc: Global, new: &NewInvocation) -> Result<Bytes, Refusal>
    ensures decided { Decides (input_tests new.now) (λ payload. payload ≡ input_payload new.now.headers new.now.input) result }
    ensures unasked { IfErr result IsUnasked }
{
    let payload = spelled_input(alloc, new)?;
    if payload.len() > u32::MAX as usize {
        return Err(Refusal::Cause(Cause::PayloadTooLong));
    }
    let bytes = Bytes::from_vec(payload)?;
    Ok(bytes)
}
