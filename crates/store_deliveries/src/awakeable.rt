//! The text of an awakeable, as it is read.

ghost use Rattle.std.specs.Prelude.{◌≡◌, ◌≤◌, length, option_map, take, IfNone, IfOk, IfSome, IsUtf8};
ghost use Rattle.base64.specs.Engines.{url_safe_no_pad};
ghost use Rattle.base64.specs.GeneralPurpose.{decode_of};
ghost use Rattle.store_deliveries.specs.Awakeables.{awakeable_read, if_decoded, named_in, named_told, signal_in};

use crate::row::kept_bytes;
use base64::DecodeAllocError;
use base64::engine::general_purpose::URL_SAFE_NO_PAD;
use bytes::{ByteStr, Bytes};
use std::alloc::{AllocError, Global};

/// How each of these texts begins.
const PREFIX: &[u8] = b"sign_1";

/// An awakeable, by its invocation and the number of its signal.
#[derive(Debug, Drop)]
pub(crate) struct NamedAwakeable {
    pub(crate) invocation: ByteStr,
    pub(crate) signal: u32,
}

/// The number of four bytes, the highest first.
fn signal_in(bytes: &[u8]) -> u32
    requires { length bytes.now ≡ 4 }
    ensures { result ≡ signal_in bytes.now }
{
    let high = u32::from(bytes[0]) * 256 + u32::from(bytes[1]);
    let low = u32::from(bytes[2]) * 256 + u32::from(bytes[3]);
    high * 65_536 + low
}

/// The first bytes.
fn front_of(named: &Bytes, at: usize) -> Result<Bytes, AllocError>
    requires { at ≤ length named.now }
    ensures { IfOk result (λ front. front ≡ take at named.now) }
{
    named.slice(..at)
}

/// Bytes as text, if they are.
fn text_in(bytes: Bytes) -> Option<ByteStr>
    ensures found { IfSome result (λ text. (text ≡ bytes) × IsUtf8 bytes) }
    ensures none { IfNone result (IsUtf8 bytes → ⊥) }
{
    match ByteStr::from_utf8(bytes) {
        Ok(text) => Some(text),
        Err(refused) => {
            drop(refused);
            None
        }
    }
}

/// The awakeable that these bytes name, if they name one.
fn named_in(named: &Bytes) -> Result<Option<NamedAwakeable>, AllocError>
    ensures { IfOk result (λ found. option_map named_told found ≡ named_in named.now) }
{
    let size = named.len();
    if size < 4 {
        return Ok(None);
    }
    let at = size - 4;
    let signal = signal_in(&named.as_slice()[at..]);
    let front = front_of(named, at)?;
    match text_in(front) {
        Some(invocation) => Ok(Some(NamedAwakeable { invocation, signal })),
        None => Ok(None),
    }
}

/// The awakeable that these symbols name, if they name one.
fn decoded_in(alloc: Global, symbols: &[u8]) -> Result<Option<NamedAwakeable>, AllocError>
    ensures { IfOk result (λ found. option_map named_told found ≡ if_decoded (decode_of url_safe_no_pad symbols.now)) }
{
    match URL_SAFE_NO_PAD.decode(alloc, symbols) {
        Ok(bytes) => {
            let named = kept_bytes(bytes)?;
            let found = named_in(&named);
            drop(named);
            found
        }
        Err(DecodeAllocError::DecodeError(_)) => Ok(None),
        Err(DecodeAllocError::OutOfMemory) => Err(AllocError),
    }
}

fn bytes_of(text: &ByteStr) -> &[u8]
    ensures { result.now ≡ text.now }
{
    text.as_bytes()
}

/// The awakeable that a text names, if it names one.
pub(crate) fn awakeable_in(
    alloc: Global,
    text: &ByteStr,
) -> Result<Option<NamedAwakeable>, AllocError>
    ensures { IfOk result (λ found. option_map named_told found ≡ awakeable_read text.now) }
{
    match bytes_of(text).strip_prefix(PREFIX) {
        Some(symbols) => decoded_in(alloc, symbols),
        None => Ok(None),
    }
}
