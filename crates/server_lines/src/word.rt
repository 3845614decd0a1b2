//! The words of a request: bytes and texts with escapes, bytes as digits, values and signals.

ghost use Rattle.std.specs.Prelude.{◌≡◌, ◌==◌, ◌<◌, None, Some, IfSome, MatchOption, length};
ghost use Rattle.std.specs.List.{position};
ghost use Rattle.script_lines.specs.LineReader.{Gives, at_colon};
ghost use Rattle.server_lines.specs.Word.{text_word};
ghost use Rattle.server_lines.specs.WordReader.{word_bytes_of, digits_of, failure_of, key_of, name_of, number_key_of, tail_of, text_in, text_of, unescaped, value_of_kind, word_value_of};

use bytes::{ByteStr, Bytes};
use hex::FromHexError;
use journal_model::{Failure, NotificationResult, SignalKey};
use percent_encoding::{AsciiSet, CONTROLS, ascii_set, percent_decode, percent_encode};
use script_lines::word::{LineError, parse_printable, parse_u32};
use sequence::Sequence;
use std::alloc::Global;
use std::fmt;

/// The ASCII bytes that are printed as escapes: controls, the space, `#` and `%`. So are all bytes that are not ASCII.
pub const ESCAPED: AsciiSet = ascii_set!(CONTROLS.add(b' ').add(b'#').add(b'%'));

/// The bytes that printable ones spell, which may be none: `%XX` is the byte XX, each other its own.
#[tactic(auto, unfolding(crate::specs::WordReader::unescaped, script_lines::specs::LineReader::then_read))]
pub fn parse_escaped(alloc: Global, bytes: &[u8]) -> Result<Bytes, LineError>
    ensures { Gives result (unescaped bytes.now) }
{
    let printable = parse_printable(alloc, bytes)?;
    let mut out = Vec::new(alloc);
    percent_decode(printable.as_bytes()).append_to(&mut out)?;
    match Bytes::from_vec(out) {
        Ok(bytes) => Ok(bytes),
        Err(_) => Err(LineError::Memory),
    }
}

/// The bytes that a word spells; `-` alone is none.
#[tactic(auto, unfolding(crate::specs::WordReader::word_bytes_of))]
pub fn parse_bytes(alloc: Global, word: &[u8]) -> Result<Bytes, LineError>
    ensures { Gives result (word_bytes_of word.now) }
{
    if word == b"-".as_slice() {
        return Ok(Bytes::new());
    }
    if word.is_empty() {
        return Err(LineError::NotUnderstood);
    }
    parse_escaped(alloc, word)
}

/// Bytes as a text, where they are one.
#[tactic(auto, unfolding(crate::specs::WordReader::text_in))]
fn parse_utf8(bytes: Bytes) -> Result<ByteStr, LineError>
    ensures { Gives result (text_in bytes) }
{
    match ByteStr::from_utf8(bytes) {
        Ok(text) => Ok(text),
        Err(_) => Err(LineError::NotUnderstood),
    }
}

/// The text that a word spells.
#[tactic(auto, unfolding(crate::specs::WordReader::text_of, script_lines::specs::LineReader::then_read))]
pub fn parse_text(alloc: Global, word: &[u8]) -> Result<ByteStr, LineError>
    ensures { Gives result (text_of word.now) }
{
    let bytes = parse_bytes(alloc, word)?;
    parse_utf8(bytes)
}

/// The text that stands behind a colon.
#[tactic(auto, unfolding(crate::specs::WordReader::tail_of, script_lines::specs::LineReader::then_read))]
pub fn parse_tail(alloc: Global, bytes: &[u8]) -> Result<ByteStr, LineError>
    ensures { Gives result (tail_of bytes.now) }
{
    let bytes = parse_escaped(alloc, bytes)?;
    parse_utf8(bytes)
}

/// The bytes that hexadecimal digits spell; `-` alone is none.
#[tactic(auto, unfolding(crate::specs::WordReader::digits_of))]
pub fn parse_digits(alloc: Global, word: &[u8]) -> Result<Bytes, LineError>
    ensures { Gives result (digits_of word.now) }
{
    if word == b"-".as_slice() {
        return Ok(Bytes::new());
    }
    if word.is_empty() {
        return Err(LineError::NotUnderstood);
    }
    match hex::decode(alloc, word) {
        Ok(bytes) => match Bytes::from_vec(bytes) {
            Ok(bytes) => Ok(bytes),
            Err(_) => Err(LineError::Memory),
        },
        Err(FromHexError::OutOfMemory) => Err(LineError::Memory),
        Err(_) => Err(LineError::NotUnderstood),
    }
}

/// The place of the first colon.
fn place_of_colon(bytes: &[u8]) -> Option<usize>
    ensures place { result ≡ position (λ byte. byte == 58) bytes.now }
    ensures within { IfSome result (λ place. place < length bytes.now) }
{
    bytes.iter().position(|byte| *byte == b':')
}

/// What stands before the first colon, and behind it.
pub fn split_at_colon(bytes: &[u8]) -> Option<(&[u8], &[u8])>
    ensures { MatchOption result (at_colon bytes.now ≡ None) (λ parts. at_colon bytes.now ≡ Some (parts.0.now, parts.1.now)) }
{
    let Some(place) = place_of_colon(bytes) else {
        return None;
    };
    Some((&bytes[..place], &bytes[place + 1..]))
}

/// A code and a message, with a colon between them.
#[tactic(auto, unfolding(crate::specs::WordReader::failure_of, script_lines::specs::LineReader::then_read))]
fn parse_failure(alloc: Global, bytes: &[u8]) -> Result<NotificationResult, LineError>
    ensures { Gives result (failure_of bytes.now) }
{
    let Some((code, message)) = split_at_colon(bytes) else {
        return Err(LineError::NotUnderstood);
    };
    let code = parse_u32(code).ok_or(LineError::NotUnderstood)?;
    let message = parse_tail(alloc, message)?;
    Ok(NotificationResult::Failure(Failure {
        code,
        message,
        metadata: Sequence::new(alloc),
    }))
}

/// The value of a kind, spelled behind the colon.
#[tactic(auto, unfolding(crate::specs::WordReader::value_of_kind, script_lines::specs::LineReader::then_read))]
fn parse_kind(alloc: Global, kind: &[u8], text: &[u8]) -> Result<NotificationResult, LineError>
    ensures { Gives result (value_of_kind kind.now text.now) }
{
    if kind == b"v".as_slice() {
        let bytes = parse_escaped(alloc, text)?;
        Ok(NotificationResult::Value(bytes))
    } else if kind == b"f".as_slice() {
        parse_failure(alloc, text)
    } else if kind == b"id".as_slice() {
        let id = parse_tail(alloc, text)?;
        Ok(NotificationResult::InvocationId(id))
    } else {
        Err(LineError::NotUnderstood)
    }
}

/// The value that a word spells: `void`, `v:BYTES`, `f:CODE:TEXT` or `id:TEXT`.
#[tactic(auto, unfolding(crate::specs::WordReader::word_value_of, script_lines::specs::LineReader::then_read))]
pub fn parse_value(alloc: Global, word: &[u8]) -> Result<NotificationResult, LineError>
    ensures { Gives result (word_value_of word.now) }
{
    if word == b"void".as_slice() {
        return Ok(NotificationResult::Void);
    }
    let Some((kind, text)) = split_at_colon(word) else {
        return Err(LineError::NotUnderstood);
    };
    parse_kind(alloc, kind, text)
}

#[tactic(auto, unfolding(crate::specs::WordReader::number_key_of, script_lines::specs::LineReader::then_read))]
fn parse_number_key(digits: &[u8]) -> Result<SignalKey, LineError>
    ensures { Gives result (number_key_of digits.now) }
{
    let number = parse_u32(digits).ok_or(LineError::NotUnderstood)?;
    Ok(SignalKey::ByIndex(number))
}

#[tactic(auto, unfolding(crate::specs::WordReader::name_of, script_lines::specs::LineReader::then_read))]
fn parse_name(alloc: Global, word: &[u8]) -> Result<SignalKey, LineError>
    ensures { Gives result (name_of word.now) }
{
    let name = parse_text(alloc, word)?;
    Ok(SignalKey::ByName(name))
}

/// The signal that a word spells: `#N` for its number, or else its name.
#[tactic(auto, unfolding(crate::specs::WordReader::key_of))]
pub fn parse_key(alloc: Global, word: &[u8]) -> Result<SignalKey, LineError>
    ensures { Gives result (key_of word.now) }
{
    match word {
        [b'#', digits @ ..] => parse_number_key(digits),
        _ => parse_name(alloc, word),
    }
}

/// Bytes as a word: each byte that needs it as an escape, and `-` for none.
#[derive(Clone, Copy)]
pub struct Word<'a>(pub &'a [u8]);

impl fmt::Display for Word<'_> {
    ghost output = { λ word. Some (text_word word.0.now) };

    fn fmt<W: fmt::Write>(&self, f: &mut fmt::Formatter<W>) -> fmt::Result {
        if self.0.is_empty() {
            return write!(f, "-");
        }
        if self.0 == b"-".as_slice() {
            return write!(f, "%2D");
        }
        let escaped = percent_encode(self.0, ESCAPED);
        write!(f, "{escaped}")
    }
}
