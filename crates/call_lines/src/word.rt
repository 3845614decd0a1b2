//! The words of calls: what may be left out, moments, failures with pairs, and values.

ghost use Rattle.std.specs.Prelude.{◌≡◌, map};
ghost use Rattle.script_lines.specs.LineReader.{Gives};
ghost use Rattle.call_lines.specs.WordReader.{failure_of, moment_of, name_of, name_or_empty_of, optional_of, pair_read, pairs_of, success_of, time_of, told_of, value_in, value_of};

use bytes::ByteStr;
use journal_model::{Moment, NonEmptyValue, TerminalFailure};
use script_lines::word::{LineError, parse_u16, parse_u64};
use sequence::Sequence;
use server_lines::word::{parse_escaped, parse_tail, parse_text, split_at_colon};
use std::alloc::Global;

/// The text that is given: `none`, or `t:TEXT`.
#[tactic(auto, unfolding(crate::specs::WordReader::optional_of, script_lines::specs::LineReader::then_read))]
pub fn parse_optional(alloc: Global, word: &[u8]) -> Result<Option<ByteStr>, LineError>
    ensures { Gives result (optional_of word.now) }
{
    if word == b"none".as_slice() {
        return Ok(None);
    }
    let Some((kind, text)) = split_at_colon(word) else {
        return Err(LineError::NotUnderstood);
    };
    if kind == b"t".as_slice() {
        let text = parse_tail(alloc, text)?;
        Ok(Some(text))
    } else {
        Err(LineError::NotUnderstood)
    }
}

/// A name as the last word, which may be left out.
#[tactic(auto, unfolding(crate::specs::WordReader::name_of, script_lines::specs::LineReader::then_read))]
pub fn parse_name(alloc: Global, words: &[&[u8]]) -> Result<Option<ByteStr>, LineError>
    ensures { Gives result (name_of (map (λ word. word.now) words.now)) }
{
    match words {
        [] => Ok(None),
        [word] => {
            let name = parse_text(alloc, word)?;
            Ok(Some(name))
        }
        _ => Err(LineError::NotUnderstood),
    }
}

/// The same, where the name that is left out is empty.
#[tactic(auto, unfolding(crate::specs::WordReader::name_or_empty_of))]
pub fn parse_name_or_empty(alloc: Global, words: &[&[u8]]) -> Result<ByteStr, LineError>
    ensures { Gives result (name_or_empty_of (map (λ word. word.now) words.now)) }
{
    match words {
        [] => Ok(ByteStr::new()),
        [word] => parse_text(alloc, word),
        _ => Err(LineError::NotUnderstood),
    }
}

/// The moment of so many milliseconds.
#[tactic(auto, unfolding(crate::specs::WordReader::moment_of, script_lines::specs::LineReader::then_read))]
pub fn parse_moment(word: &[u8]) -> Option<Moment>
    ensures { result ≡ moment_of word.now }
{
    let millis = parse_u64(word)?;
    Some(Moment::from_millis(millis))
}

/// The moment, or `now` for none.
#[tactic(auto, unfolding(crate::specs::WordReader::time_of, script_lines::specs::LineReader::then_read))]
pub fn parse_time(word: &[u8]) -> Option<Option<Moment>>
    ensures { result ≡ time_of word.now }
{
    if word == b"now".as_slice() {
        return Some(None);
    }
    let moment = parse_moment(word)?;
    Some(Some(moment))
}

/// Two texts.
#[tactic(auto, unfolding(crate::specs::WordReader::pair_read, script_lines::specs::LineReader::then_read))]
pub fn parse_pair(alloc: Global, key: &[u8], value: &[u8]) -> Result<(ByteStr, ByteStr), LineError>
    ensures { Gives result (pair_read key.now value.now) }
{
    let key = parse_text(alloc, key)?;
    let value = parse_text(alloc, value)?;
    Ok((key, value))
}

/// The pairs that words spell, each by its name and its value.
pub fn parse_pairs(
    alloc: Global,
    words: &[&[u8]],
) -> Result<Sequence<(ByteStr, ByteStr)>, LineError>
    ensures { Gives result (pairs_of (map (λ word. word.now) words.now)) }
{
    let mut pairs = Sequence::new(alloc);
    let mut left = words;
    while let [key, value, others @ ..] = left {
        let pair = parse_pair(alloc, key, value)?;
        pairs.push(pair)?;
        left = others;
    }
    if left.is_empty() {
        Ok(pairs)
    } else {
        Err(LineError::NotUnderstood)
    }
}

/// A code and a message, with a colon between them.
#[tactic(auto, unfolding(crate::specs::WordReader::told_of, script_lines::specs::LineReader::then_read))]
pub fn parse_told(alloc: Global, text: &[u8]) -> Result<(u16, ByteStr), LineError>
    ensures { Gives result (told_of text.now) }
{
    let Some((code, message)) = split_at_colon(text) else {
        return Err(LineError::NotUnderstood);
    };
    let code = parse_u16(code).ok_or(LineError::NotUnderstood)?;
    let message = parse_tail(alloc, message)?;
    Ok((code, message))
}

/// A failure: `CODE:TEXT` with its pairs.
#[tactic(auto, unfolding(crate::specs::WordReader::failure_of, script_lines::specs::LineReader::then_read))]
pub fn parse_failure(
    alloc: Global,
    text: &[u8],
    pairs: &[&[u8]],
) -> Result<TerminalFailure, LineError>
    ensures { Gives result (failure_of text.now (map (λ word. word.now) pairs.now)) }
{
    let (code, message) = parse_told(alloc, text)?;
    let metadata = parse_pairs(alloc, pairs)?;
    Ok(TerminalFailure {
        code,
        message,
        metadata,
    })
}

#[tactic(auto, unfolding(crate::specs::WordReader::success_of, script_lines::specs::LineReader::then_read))]
fn parse_success(alloc: Global, text: &[u8], pairs: &[&[u8]]) -> Result<NonEmptyValue, LineError>
    ensures { Gives result (success_of text.now (map (λ word. word.now) pairs.now)) }
{
    match pairs {
        [] => {
            let bytes = parse_escaped(alloc, text)?;
            Ok(NonEmptyValue::Success(bytes))
        }
        _ => Err(LineError::NotUnderstood),
    }
}

/// The value of a kind, spelled behind the colon.
#[tactic(auto, unfolding(crate::specs::WordReader::value_in, script_lines::specs::LineReader::then_read))]
fn parse_kind(
    alloc: Global,
    kind: &[u8],
    text: &[u8],
    pairs: &[&[u8]],
) -> Result<NonEmptyValue, LineError>
    ensures { Gives result (value_in kind.now text.now (map (λ word. word.now) pairs.now)) }
{
    if kind == b"v".as_slice() {
        parse_success(alloc, text, pairs)
    } else if kind == b"f".as_slice() {
        let failure = parse_failure(alloc, text, pairs)?;
        Ok(NonEmptyValue::Failure(failure))
    } else {
        Err(LineError::NotUnderstood)
    }
}

/// The value that the last words spell: `v:BYTES`, or `f:CODE:TEXT [NAME VALUE]..`.
#[tactic(auto, unfolding(crate::specs::WordReader::value_of, script_lines::specs::LineReader::then_read))]
pub fn parse_value(alloc: Global, words: &[&[u8]]) -> Result<NonEmptyValue, LineError>
    ensures { Gives result (value_of (map (λ word. word.now) words.now)) }
{
    let [word, pairs @ ..] = words else {
        return Err(LineError::NotUnderstood);
    };
    let Some((kind, text)) = split_at_colon(word) else {
        return Err(LineError::NotUnderstood);
    };
    parse_kind(alloc, kind, text, pairs)
}
