//! The words of a policy: whether the body of a run that has failed is executed again.

ghost use Rattle.std.specs.Prelude.{◌≡◌, map};
ghost use Rattle.call_lines.specs.OutcomeReader.{bounds_of, exponential_of, fixed_delay_of, given_32, given_64, pauses_of, plain_policy_of, policy_of};

use script_lines::word::{parse_u32, parse_u64};

/// Until when it is executed again, where there is such a bound, and what becomes of the invocation then.
#[derive(Clone, Copy)]
pub struct SaidBounds {
    pub attempts: Option<u32>,
    /// So long all attempts may take together, in milliseconds.
    pub millis: Option<u64>,
    /// Whether it is paused, and does not fail.
    pub pauses: bool,
}

/// Whether, and after how many milliseconds.
#[derive(Clone, Copy)]
pub enum SaidPolicy {
    /// Always, after an interval that is chosen for it.
    Always,
    /// Never: its error is its outcome.
    Never,
    /// Each time after the same interval; where none is given it is chosen.
    FixedDelay {
        interval: Option<u64>,
        bounds: SaidBounds,
    },
    /// After intervals, each of them the one before times a factor. The denominator is not 0.
    Exponential {
        initial: u64,
        numerator: u32,
        denominator: u32,
        /// No interval is longer.
        most: Option<u64>,
        bounds: SaidBounds,
    },
}

/// A number, or `none`.
#[tactic(auto, unfolding(crate::specs::OutcomeReader::given_64, script_lines::specs::LineReader::then_read))]
fn parse_given_64(word: &[u8]) -> Option<Option<u64>>
    ensures { result ≡ given_64 word.now }
{
    if word == b"none".as_slice() {
        return Some(None);
    }
    let number = parse_u64(word)?;
    Some(Some(number))
}

#[tactic(auto, unfolding(crate::specs::OutcomeReader::given_32, script_lines::specs::LineReader::then_read))]
fn parse_given_32(word: &[u8]) -> Option<Option<u32>>
    ensures { result ≡ given_32 word.now }
{
    if word == b"none".as_slice() {
        return Some(None);
    }
    let number = parse_u32(word)?;
    Some(Some(number))
}

#[tactic(auto, unfolding(crate::specs::OutcomeReader::pauses_of))]
fn parse_pauses(word: &[u8]) -> Option<bool>
    ensures { result ≡ pauses_of word.now }
{
    if word == b"fail".as_slice() {
        Some(false)
    } else if word == b"pause".as_slice() {
        Some(true)
    } else {
        None
    }
}

#[tactic(auto, unfolding(crate::specs::OutcomeReader::bounds_of, script_lines::specs::LineReader::then_read))]
fn parse_bounds(words: &[&[u8]]) -> Option<SaidBounds>
    ensures { result ≡ bounds_of (map (λ word. word.now) words.now) }
{
    let [attempts, millis, pauses] = words else {
        return None;
    };
    let attempts = parse_given_32(attempts)?;
    let millis = parse_given_64(millis)?;
    let pauses = parse_pauses(pauses)?;
    Some(SaidBounds {
        attempts,
        millis,
        pauses,
    })
}

#[tactic(auto, unfolding(crate::specs::OutcomeReader::fixed_delay_of, script_lines::specs::LineReader::then_read))]
fn parse_fixed_delay(words: &[&[u8]]) -> Option<SaidPolicy>
    ensures { result ≡ fixed_delay_of (map (λ word. word.now) words.now) }
{
    let [interval, bounds @ ..] = words else {
        return None;
    };
    let interval = parse_given_64(interval)?;
    let bounds = parse_bounds(bounds)?;
    Some(SaidPolicy::FixedDelay { interval, bounds })
}

#[tactic(auto, unfolding(crate::specs::OutcomeReader::exponential_of, script_lines::specs::LineReader::then_read))]
fn parse_exponential(words: &[&[u8]]) -> Option<SaidPolicy>
    ensures { result ≡ exponential_of (map (λ word. word.now) words.now) }
{
    let [initial, numerator, denominator, most, bounds @ ..] = words else {
        return None;
    };
    let initial = parse_u64(initial)?;
    let numerator = parse_u32(numerator)?;
    let denominator = parse_u32(denominator)?;
    let most = parse_given_64(most)?;
    let bounds = parse_bounds(bounds)?;
    if denominator == 0 {
        return None;
    }
    Some(SaidPolicy::Exponential {
        initial,
        numerator,
        denominator,
        most,
        bounds,
    })
}

#[tactic(auto, unfolding(crate::specs::OutcomeReader::plain_policy_of))]
fn parse_plain(word: &[u8], others: &[&[u8]]) -> Option<SaidPolicy>
    ensures { result ≡ plain_policy_of word.now (map (λ word. word.now) others.now) }
{
    match others {
        [] if word == b"always".as_slice() => Some(SaidPolicy::Always),
        [] if word == b"never".as_slice() => Some(SaidPolicy::Never),
        _ => None,
    }
}

/// The policy that the last words spell: `always`, `never`, `fixed-delay MS|none BOUNDS` or `exponential MS N N MS|none BOUNDS`. BOUNDS are
/// `N|none MS|none fail|pause`.
#[tactic(auto, unfolding(crate::specs::OutcomeReader::policy_of))]
pub fn parse_policy(words: &[&[u8]]) -> Option<SaidPolicy>
    ensures { result ≡ policy_of (map (λ word. word.now) words.now) }
{
    let [word, others @ ..] = words else {
        return None;
    };
    if *word == b"fixed-delay".as_slice() {
        parse_fixed_delay(others)
    } else if *word == b"exponential".as_slice() {
        parse_exponential(others)
    } else {
        parse_plain(word, others)
    }
}
