//! The word of a signal: `#N` for its number, or else its name.

ghost use Rattle.std.specs.Prelude.{◌≡◌};
ghost use Rattle.script_lines.specs.LineReader.{Gives, signal_number_of, named_target_of, target_of};

use crate::word::{LineError, parse_text, parse_u32};
use journal_model::SignalKey;
use std::alloc::Global;

/// The number behind a `#`.
#[tactic(auto, unfolding(crate::specs::LineReader::signal_number_of))]
fn signal_number(word: &[u8]) -> Option<u32>
    ensures { result ≡ signal_number_of word.now }
{
    match word {
        [b'#', number @ ..] => parse_u32(number),
        _ => None,
    }
}

#[tactic(auto, unfolding(crate::specs::LineReader::named_target_of, crate::specs::LineReader::then_read))]
fn parse_name(alloc: Global, word: &[u8]) -> Result<SignalKey, LineError>
    ensures { Gives result (named_target_of word.now) }
{
    let name = parse_text(alloc, word)?;
    Ok(SignalKey::ByName(name))
}

/// The signal that a word spells.
#[tactic(auto, unfolding(crate::specs::LineReader::target_of, crate::specs::LineReader::target_from))]
pub fn parse_target(alloc: Global, word: &[u8]) -> Result<SignalKey, LineError>
    ensures { Gives result (target_of word.now) }
{
    match signal_number(word) {
        Some(number) => Ok(SignalKey::ByIndex(number)),
        None => parse_name(alloc, word),
    }
}
