// What a handler is given.
ghost use Rattle.std.specs.Prelude.{◌≡◌, map, IfOk};
ghost use Rattle.protocol_stream.specs.Records.{header_told};
ghost use Rattle.vm_feeding.specs.Input.{content_of, random_seed, where_scoped, input_given};

use bytes::{ByteStr, Bytes};
use journal_model::{Header, Input};
use protocol_records::{InputCommandMessage, StartMessage, Value};
use protocol_stream::to_headers;
use protocol_types::Feature;
use sequence::Sequence;
use std::alloc::{AllocError, Global};

fn content_of(value: Option<Value>) -> Bytes
    ensures { result ≡ content_of value }
{
    match value {
        None => Bytes::new(),
        Some(value) => value.content,
    }
}

fn where_scoped(version: u32, text: &Option<ByteStr>) -> Result<Option<ByteStr>, AllocError>
    ensures { IfOk result (λ taken. taken ≡ where_scoped version text.now) }
{
    if Feature::Scope.is_later_than(version) {
        return Ok(None);
    }
    match text {
        None => Ok(None),
        Some(text) => Ok(Some(text.clone()?)),
    }
}

fn random_seed(version: u32, fallback: u64, seed: u64) -> u64
    ensures { result ≡ random_seed version fallback seed }
{
    if Feature::RandomSeed.is_later_than(version) {
        return fallback;
    }
    seed
}

// The headers of an input, and its value.
fn taken(
    alloc: Global,
    message: InputCommandMessage,
) -> Result<(Sequence<Header>, Bytes), AllocError>
    ensures { IfOk result (λ taken. (taken.0 ≡ map header_told message.headers) × (taken.1 ≡ content_of message.value)) }
{
    let InputCommandMessage {
        headers,
        name,
        value,
    } = message;
    drop(name);
    let input = content_of(value);
    Ok((to_headers(alloc, headers)?, input))
}

// The names of an invocation and of its object.
fn names(start: &StartMessage) -> Result<(ByteStr, ByteStr), AllocError>
    ensures { IfOk result (λ names. (names.0 ≡ start.now.debug_id) × (names.1 ≡ start.now.key)) }
{
    let id = start.debug_id.clone()?;
    Ok((id, start.key.clone()?))
}

// The scope, the limit key and the idempotency key, which the version that brought scopes has, and all later ones.
fn keys(
    version: u32,
    start: &StartMessage,
) -> Result<(Option<ByteStr>, Option<ByteStr>, Option<ByteStr>), AllocError>
    ensures { IfOk result (λ keys. (keys.0 ≡ where_scoped version start.now.scope)
        × (keys.1 ≡ where_scoped version start.now.limit_key)
        × (keys.2 ≡ where_scoped version start.now.idempotency_key)) }
{
    let scope = where_scoped(version, &start.scope)?;
    let limit_key = where_scoped(version, &start.limit_key)?;
    Ok((
        scope,
        limit_key,
        where_scoped(version, &start.idempotency_key)?,
    ))
}

/// What a handler is given: the invocation's part from its start, the rest from the input's own message. A value that is absent
/// is read as empty; before the version that brings one, the seed is the options', and before the version that brings scopes there
/// is no scope, limit key or idempotency key.
///
/// Memory is asked for the headers, and for copies of the texts, which share their bytes.
pub fn input_of(
    alloc: Global,
    version: u32,
    fallback_random_seed: u64,
    start: &StartMessage,
    message: InputCommandMessage,
) -> Result<Input, AllocError>
    ensures { IfOk result (λ input. input ≡ input_given version fallback_random_seed start.now message) }
{
    let (headers, input) = taken(alloc, message)?;
    let (invocation_id, key) = names(start)?;
    let (scope, limit_key, idempotency_key) = keys(version, start)?;
    Ok(Input {
        invocation_id,
        key,
        random_seed: random_seed(version, fallback_random_seed, start.random_seed),
        headers,
        input,
        scope,
        limit_key,
        idempotency_key,
    })
}
