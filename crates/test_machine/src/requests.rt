//! The headers of requests: of version `0` none, of a number the content type of that version, of `unreadable` some that cannot be
//! read, and of any other word a content type of that text.
ghost use Rattle.std.specs.Prelude.{None};

use bytes::ByteStr;
use invocation_vm::HeaderMap;
use std::alloc::Global;
use test_rows::number;

/// Why no header of these can be read.
#[derive(Clone, Copy, Debug)]
pub struct NoText;

/// Headers of which none can be read.
pub struct Unreadable;

impl HeaderMap for Unreadable {
    type Error = NoText;

    ghost text_of = { λ headers name. None };

    ghost fails = { λ headers name error. Unit {0} };

    fn extract(&self, _name: &str) -> Result<Option<&str>, NoText> {
        Err(NoText)
    }
}

fn content_type(alloc: Global, word: &str) -> Option<ByteStr> {
    match number(word) {
        Some(version) => {
            let text = format!(in alloc; "application/vnd.restate.invocation.v{version}").ok()?;
            ByteStr::from_string(text).ok()
        }
        None => ByteStr::copy_from_str(alloc, word).ok(),
    }
}

/// The headers that can be read.
pub fn headers(alloc: Global, word: &str) -> Option<Vec<(ByteStr, ByteStr)>> {
    let mut headers = Vec::new(alloc);
    if word != "0" {
        let value = content_type(alloc, word)?;
        headers
            .push((ByteStr::from_static("content-type"), value))
            .ok()?;
    }
    Some(headers)
}
