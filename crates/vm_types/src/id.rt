// The text that names an awakeable.
ghost use Rattle.std.specs.Prelude.{◌≡◌, ◌++◌, IfOk, OnOk};
ghost use Rattle.std.specs.String.{string_bytes};
ghost use Rattle.journal_model.specs.Awakeable.{awakeable_id, base64url, four_bytes};

use base64::engine::general_purpose::URL_SAFE_NO_PAD;
use bytes::{ByteStr, Bytes};
use std::alloc::{AllocError, Global};

/// How each of these texts begins.
const PREFIX: &str = "sign_1";

// The bytes of the invocation, and behind them the number of the signal, its highest byte first.
fn named_bytes(alloc: Global, invocation: &[u8], signal: u32) -> Result<Vec<u8>, AllocError>
    ensures { IfOk result (λ named. named.items ≡ invocation.now ++ four_bytes signal) }
{
    let mut named = Vec::from_slice(alloc, invocation)?;
    named.extend_from_slice(&signal.to_be_bytes())?;
    Ok(named)
}

// Puts the symbols of these bytes behind a text.
fn put_symbols(text: &mut String, named: &[u8]) -> Result<(), AllocError>
    ensures { OnOk result (string_bytes text.new ≡ string_bytes text.old ++ base64url named.now) }
{
    URL_SAFE_NO_PAD.encode_string(named, text)
}

/// The text that names the awakeable of this signal of an invocation: `sign_1`, and behind it, in base64url without padding, the
/// invocation's id and the number of the signal, its highest byte first.
pub fn awakeable_id(alloc: Global, invocation: &Bytes, signal: u32) -> Result<ByteStr, AllocError>
    ensures { IfOk result (λ text. text ≡ awakeable_id invocation.now signal) }
{
    let named = named_bytes(alloc, invocation.as_slice(), signal)?;
    let mut text = String::from_str(alloc, PREFIX)?;
    put_symbols(&mut text, named.as_slice())?;
    ByteStr::from_string(text)
}
