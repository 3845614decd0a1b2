// Keys of an object's state.
ghost use Rattle.std.specs.Prelude.{◌≡◌, [], ◌∷◌};
ghost use Rattle.std.specs.List.{list_all};
ghost use Rattle.std.specs.Str.{is_utf8};

use bytes::Bytes;
use std::str;

fn is_text(key: &Bytes) -> bool
    ensures { result ≡ is_utf8 key.now }
{
    match str::from_utf8(key.as_slice()) {
        Ok(_) => true,
        Err(_) => false,
    }
}

/// Of a command that names this key alone.
pub(crate) fn is_key_text(key: &Bytes) -> bool
    ensures { result ≡ list_all is_utf8 (key.now ∷ []) }
{
    is_text(key)
}

/// Of one that names these.
pub(crate) fn are_text(keys: &[Bytes]) -> bool
    ensures { result ≡ list_all is_utf8 keys.now }
{
    for key in keys {
        if !is_text(key) {
            return false;
        }
    }
    true
}
