//! The words of how the body of a run has ended.

ghost use Rattle.std.specs.Prelude.{map};
ghost use Rattle.script_lines.specs.LineReader.{Gives};
ghost use Rattle.call_lines.specs.OutcomeReader.{brought_of, outcome_in, outcome_of, retry_of};

use crate::policy::{SaidPolicy, parse_policy};
use crate::word::{parse_failure, parse_told};
use bytes::{ByteStr, Bytes};
use journal_model::TerminalFailure;
use script_lines::word::{LineError, parse_u64};
use server_lines::word::{parse_escaped, split_at_colon};
use std::alloc::Global;

/// How the body of a run has ended.
#[derive(Drop)]
pub enum SaidOutcome {
    /// With this value.
    Success(Bytes),
    /// With a failure for good.
    Failure(TerminalFailure),
    /// With an error after which it is executed again, where the policy says so.
    Retry {
        code: u16,
        message: ByteStr,
        /// How long it took, in milliseconds.
        millis: u64,
        policy: SaidPolicy,
    },
}

#[tactic(auto, unfolding(crate::specs::OutcomeReader::brought_of, script_lines::specs::LineReader::then_read))]
fn parse_brought(alloc: Global, text: &[u8], others: &[&[u8]]) -> Result<SaidOutcome, LineError>
    ensures { Gives result (brought_of text.now (map (λ word. word.now) others.now)) }
{
    match others {
        [] => {
            let bytes = parse_escaped(alloc, text)?;
            Ok(SaidOutcome::Success(bytes))
        }
        _ => Err(LineError::NotUnderstood),
    }
}

#[tactic(auto, unfolding(crate::specs::OutcomeReader::retry_of, script_lines::specs::LineReader::then_read))]
fn parse_retry(alloc: Global, text: &[u8], others: &[&[u8]]) -> Result<SaidOutcome, LineError>
    ensures { Gives result (retry_of text.now (map (λ word. word.now) others.now)) }
{
    let [millis, policy @ ..] = others else {
        return Err(LineError::NotUnderstood);
    };
    let millis = parse_u64(millis).ok_or(LineError::NotUnderstood)?;
    let policy = parse_policy(policy).ok_or(LineError::NotUnderstood)?;
    let (code, message) = parse_told(alloc, text)?;
    Ok(SaidOutcome::Retry {
        code,
        message,
        millis,
        policy,
    })
}

/// The outcome of a kind, spelled behind the colon.
#[tactic(auto, unfolding(crate::specs::OutcomeReader::outcome_in, script_lines::specs::LineReader::then_read))]
fn parse_kind(
    alloc: Global,
    kind: &[u8],
    text: &[u8],
    others: &[&[u8]],
) -> Result<SaidOutcome, LineError>
    ensures { Gives result (outcome_in kind.now text.now (map (λ word. word.now) others.now)) }
{
    if kind == b"ok".as_slice() {
        parse_brought(alloc, text, others)
    } else if kind == b"fail".as_slice() {
        let failure = parse_failure(alloc, text, others)?;
        Ok(SaidOutcome::Failure(failure))
    } else if kind == b"retry".as_slice() {
        parse_retry(alloc, text, others)
    } else {
        Err(LineError::NotUnderstood)
    }
}

/// The outcome that the last words spell: `ok:BYTES`, `fail:CODE:TEXT [NAME VALUE]..` or `retry:CODE:TEXT MS POLICY`.
#[tactic(auto, unfolding(crate::specs::OutcomeReader::outcome_of, script_lines::specs::LineReader::then_read))]
pub fn parse_outcome(alloc: Global, words: &[&[u8]]) -> Result<SaidOutcome, LineError>
    ensures { Gives result (outcome_of (map (λ word. word.now) words.now)) }
{
    let [word, others @ ..] = words else {
        return Err(LineError::NotUnderstood);
    };
    let Some((kind, text)) = split_at_colon(word) else {
        return Err(LineError::NotUnderstood);
    };
    parse_kind(alloc, kind, text, others)
}
