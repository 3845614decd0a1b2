//! The word of how the body of a run ends: `ok:TEXT`, `fail:CODE:TEXT` or `retry:CODE:TEXT`. Behind the last colon a text may be empty.

ghost use Rattle.script_lines.specs.LineReader.{Gives, outcome_in, outcome_of};

use crate::value::{parse_coded, split_at_colon};
use crate::word::{LineError, parse_printable};
use bytes::{ByteStr, Bytes};
use std::alloc::Global;

/// How the body of a run ends.
#[derive(Drop)]
pub enum LineOutcome {
    /// With this value.
    Success(Bytes),
    /// With a failure for good.
    Failure { code: u16, message: ByteStr },
    /// With an error after which it is executed again.
    Retry { code: u16, message: ByteStr },
}

/// The outcome of a kind, spelled behind the colon.
#[tactic(auto, unfolding(crate::specs::LineReader::outcome_in, crate::specs::LineReader::then_read))]
fn parse_kind(alloc: Global, kind: &[u8], text: &[u8]) -> Result<LineOutcome, LineError>
    ensures { Gives result (outcome_in kind.now text.now) }
{
    if kind == b"ok".as_slice() {
        let text = parse_printable(alloc, text)?;
        Ok(LineOutcome::Success(text.into_bytes()))
    } else if kind == b"fail".as_slice() {
        let (code, message) = parse_coded(alloc, text)?;
        Ok(LineOutcome::Failure { code, message })
    } else if kind == b"retry".as_slice() {
        let (code, message) = parse_coded(alloc, text)?;
        Ok(LineOutcome::Retry { code, message })
    } else {
        Err(LineError::NotUnderstood)
    }
}

/// The outcome that a word spells.
#[tactic(auto, unfolding(crate::specs::LineReader::outcome_of, crate::specs::LineReader::then_read))]
pub fn parse_outcome(alloc: Global, word: &[u8]) -> Result<LineOutcome, LineError>
    ensures { Gives result (outcome_of word.now) }
{
    let Some((kind, text)) = split_at_colon(word) else {
        return Err(LineError::NotUnderstood);
    };
    parse_kind(alloc, kind, text)
}
