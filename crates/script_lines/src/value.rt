//! The word of a value that is brought: `void`, `v:TEXT`, `f:CODE:TEXT` or `id:TEXT`. Behind a colon a text may be empty.

ghost use Rattle.std.specs.Prelude.{◌≡◌, ◌==◌, ◌<◌, None, Some, IfSome, MatchOption, length};
ghost use Rattle.std.specs.List.{position};
ghost use Rattle.script_lines.specs.LineReader.{Gives, at_colon, coded_of, line_value_of, value_in};

use crate::word::{LineError, parse_printable, parse_u16};
use bytes::{ByteStr, Bytes};
use std::alloc::Global;

/// What is brought for a request.
#[derive(Drop)]
pub enum LineValue {
    /// That it has come is all.
    Void,
    Value(Bytes),
    Failure { code: u16, message: ByteStr },
    /// The id of the invocation that a call has begun.
    InvocationId(ByteStr),
}

/// The place of the first colon.
fn place_of_colon(bytes: &[u8]) -> Option<usize>
    ensures place { result ≡ position (λ byte. byte == 58) bytes.now }
    ensures within { IfSome result (λ place. place < length bytes.now) }
{
    bytes.iter().position(|byte| *byte == b':')
}

/// What stands before the first colon, and behind it.
pub(crate) fn split_at_colon(bytes: &[u8]) -> Option<(&[u8], &[u8])>
    ensures { MatchOption result (at_colon bytes.now ≡ None) (λ parts. at_colon bytes.now ≡ Some (parts.0.now, parts.1.now)) }
{
    let Some(place) = place_of_colon(bytes) else {
        return None;
    };
    Some((&bytes[..place], &bytes[place + 1..]))
}

/// A code, and the text behind the colon.
#[tactic(auto, unfolding(crate::specs::LineReader::coded_of, crate::specs::LineReader::then_read))]
pub(crate) fn parse_coded(alloc: Global, bytes: &[u8]) -> Result<(u16, ByteStr), LineError>
    ensures { Gives result (coded_of bytes.now) }
{
    let Some((code, message)) = split_at_colon(bytes) else {
        return Err(LineError::NotUnderstood);
    };
    let code = parse_u16(code).ok_or(LineError::NotUnderstood)?;
    let message = parse_printable(alloc, message)?;
    Ok((code, message))
}

/// The value of a kind, spelled behind the colon.
#[tactic(auto, unfolding(crate::specs::LineReader::value_in, crate::specs::LineReader::then_read))]
fn parse_kind(alloc: Global, kind: &[u8], text: &[u8]) -> Result<LineValue, LineError>
    ensures { Gives result (value_in kind.now text.now) }
{
    if kind == b"v".as_slice() {
        let text = parse_printable(alloc, text)?;
        Ok(LineValue::Value(text.into_bytes()))
    } else if kind == b"f".as_slice() {
        let (code, message) = parse_coded(alloc, text)?;
        Ok(LineValue::Failure { code, message })
    } else if kind == b"id".as_slice() {
        let id = parse_printable(alloc, text)?;
        Ok(LineValue::InvocationId(id))
    } else {
        Err(LineError::NotUnderstood)
    }
}

/// The value that a word spells.
#[tactic(auto, unfolding(crate::specs::LineReader::line_value_of, crate::specs::LineReader::then_read))]
pub fn parse_value(alloc: Global, word: &[u8]) -> Result<LineValue, LineError>
    ensures { Gives result (line_value_of word.now) }
{
    if word == b"void".as_slice() {
        return Ok(LineValue::Void);
    }
    let Some((kind, text)) = split_at_colon(word) else {
        return Err(LineError::NotUnderstood);
    };
    parse_kind(alloc, kind, text)
}
