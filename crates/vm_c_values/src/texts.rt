// Bytes and texts of a host, copied.
ghost use Rattle.std.specs.Prelude.{◌≡◌, ◌==◌, length, IfOk, IfErr, IsUtf8};
ghost use Rattle.vm_c_values.specs.Arguments.{Reads};
ghost use Rattle.vm_c_values.specs.Records.{given};
ghost use Rattle.vm_c_values.specs.declared.not_done.Unread.TheVariants.{Memory};

use crate::Unread;
use bytes::{ByteStr, Bytes};
use std::alloc::Global;

/// Bytes of a host, copied.
pub fn copied_bytes(alloc: Global, source: &[u8]) -> Result<Bytes, Unread>
    ensures ok { IfOk result (λ copied. copied ≡ source.now) }
    ensures err { IfErr result (λ why. why ≡ Memory) }
{
    Ok(Bytes::copy_from_slice(alloc, source)?)
}

/// A text of a host, copied, where it is one.
pub fn copied_text(alloc: Global, source: &[u8]) -> Result<ByteStr, Unread>
    ensures { Reads (IsUtf8 source.now) (λ text. text ≡ source.now) result }
{
    match ByteStr::from_utf8(copied_bytes(alloc, source)?) {
        Ok(text) => Ok(text),
        Err(_) => Err(Unread::Malformed),
    }
}

/// A text that is not given where it is empty.
pub(crate) fn given(text: ByteStr) -> Option<ByteStr>
    ensures { result ≡ given text }
{
    if text.is_empty() { None } else { Some(text) }
}
