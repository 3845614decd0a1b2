//! Numbers and texts fit: a type says so of each value of it, and here it is said where a proof asks for it. Nothing is changed.
ghost use Rattle.std.specs.Prelude.{◌<◌, ◌^◌, IsUtf8};

use bytes::ByteStr;

/// A number of 32 bits is one.
pub fn short_fits(number: u32)
    ensures { number < 2 ^ 32 }
{
    let _ = number;
}

/// A number of 64 bits is one.
pub fn long_fits(number: u64)
    ensures { number < 2 ^ 64 }
{
    let _ = number;
}

/// A text is UTF-8.
pub fn text_fits(text: &ByteStr)
    ensures { IsUtf8 text.now }
{
    let _ = text.as_bytes();
}
