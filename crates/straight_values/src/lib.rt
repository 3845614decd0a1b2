//! Numbers, texts and moments in the inputs and the answers of handlers. Each function has a definition in `specs/Values.antt`, with
//! which the steps of a handler are written.
#![tactic(auto)]

ghost use Rattle.std.specs.Prelude.{◌≡◌, IfOk};
ghost use Rattle.straight_values.specs.Values as values;

use bytes::Bytes;
use journal_model::Moment;
use std::alloc::{AllocError, Global};

/// The number in the first eight bytes, the highest first; 0 where there are fewer. So an input holds a number.
pub fn number_in(bytes: &Bytes) -> u64
    ensures { result ≡ values.number_in bytes.now }
{
    match bytes.as_slice().split_first_chunk::<8>() {
        Some((word, _rest)) => u64::from_be_bytes(*word),
        None => 0,
    }
}

/// The number in a value that was read of an object's state; 0 where there is none.
pub fn count_of(value: &Option<Bytes>) -> u64
    ensures { result ≡ values.count_of value.now }
{
    match value {
        Some(bytes) => number_in(bytes),
        None => 0,
    }
}

/// A number as eight bytes, the highest first, as `number_in` reads it.
pub fn bytes_of(alloc: Global, number: u64) -> Result<Bytes, AllocError>
    ensures { IfOk result (λ bytes. bytes ≡ values.bytes_of number) }
{
    Ok(Bytes::copy_from_slice(alloc, &number.to_be_bytes())?)
}

/// A number as text, in decimal digits.
pub fn text_of(alloc: Global, number: u64) -> Result<Bytes, AllocError>
    ensures { IfOk result (λ text. text ≡ values.text_of number) }
{
    Ok(Bytes::from_string(format!(in alloc; "{number}")?)?)
}

/// So many milliseconds behind the moment that an input begins with, which is in milliseconds too: the latest moment that a number can
/// tell where that is beyond it.
pub fn later(input: &Bytes, millis: u64) -> Moment
    ensures { result ≡ values.later input.now millis }
{
    Moment::from_millis(number_in(input).saturating_add(millis))
}
