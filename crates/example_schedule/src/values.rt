//! The values that the handlers make and read.
ghost use Rattle.std.specs.Prelude.{◌≡◌, IfOk};
ghost use Rattle.example_schedule.specs.Values as values;

use durable_schedule::{
    AttachInvocationTarget, ByteStr, Bytes, NonEmptyValue, PayloadOptions, Sequence, Target,
};
use std::alloc::{AllocError, Global};

/// A card with one stamp more. Where there was none, it is the first.
pub fn stamped(alloc: Global, before: &Option<Bytes>) -> Result<Bytes, AllocError>
    ensures { IfOk result (λ card. card ≡ values.stamped before.now) }
{
    let mut card = Vec::new(alloc);
    if let Some(stamps) = before {
        card.extend_from_slice(stamps.as_slice())?;
    }
    card.push(b'*')?;
    Ok(Bytes::from_vec(card)?)
}

/// The handler `h` of the service `s`.
#[tactic(auto, unfolding(crate::specs::Values::service))]
pub fn service(alloc: Global) -> Target
    ensures { result ≡ values.service }
{
    Target {
        service: ByteStr::from_static("s"),
        handler: ByteStr::from_static("h"),
        key: None,
        idempotency_key: None,
        scope: None,
        limit_key: None,
        headers: Sequence::new(alloc),
    }
}

/// The invocation `i`.
#[tactic(auto, unfolding(crate::specs::Values::other))]
pub fn other() -> AttachInvocationTarget
    ensures { result ≡ values.other }
{
    AttachInvocationTarget::InvocationId(ByteStr::from_static("i"))
}

#[tactic(auto, unfolding(crate::specs::Values::one))]
pub fn one() -> NonEmptyValue
    ensures { result ≡ values.one }
{
    NonEmptyValue::Success(Bytes::from_static(b"1"))
}

/// The same value has the same bytes in each attempt.
#[tactic(auto, unfolding(crate::specs::Values::options))]
pub fn options() -> PayloadOptions
    ensures { result ≡ values.options }
{
    PayloadOptions::stable_serialization()
}
