// What a call is given beside what it does, and may leave out.
ghost use Rattle.std.specs.Prelude.{◌≡◌, ◌||◌, [], unwrap_or};

use bytes::ByteStr;
use journal_model::PayloadOptions;

/// A text, or an empty one where none is given.
pub fn or_empty(text: Option<ByteStr>) -> ByteStr
    ensures { result ≡ unwrap_or text [] }
{
    match text {
        Some(text) => text,
        None => ByteStr::new(),
    }
}

/// Whether other bytes of a payload stand: where the machine's checks are off for them, or the call's options say so.
pub fn ignores(checks_off: bool, options: PayloadOptions) -> bool
    ensures { result ≡ (checks_off || options.unstable_serialization) }
{
    checks_off || options.unstable_serialization
}
