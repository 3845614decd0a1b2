// The texts of errors with types of their own, each written by one function.
ghost use Rattle.std.specs.Fmt.{WritesOnOk};
ghost use Rattle.protocol_errors.specs.Texts.{unavailable_text, unexpected_state_text, invoking_text, bad_key_text, from_index_text, feature_text};

use protocol_stream::{MessageType, Version};
use std::fmt;

/// Writes that nothing recorded is left for a command of this type.
#[tactic(auto, unfolding(crate::specs::Texts::unavailable_text))]
pub(crate) fn write_unavailable<W: fmt::Write>(
    expected: MessageType,
    f: &mut fmt::Formatter<W>,
) -> fmt::Result
    ensures { WritesOnOk W.write_str_gives f.old result (unavailable_text expected) f.new }
{
    write!(
        f,
        "The execution replay ended unexpectedly. Expecting to read '{expected}' from the recorded journal, but the buffered messages were already drained."
    )
}

/// Writes in which state a call came.
#[tactic(auto, unfolding(crate::specs::Texts::unexpected_state_text))]
pub(crate) fn write_unexpected_state<W: fmt::Write>(
    state: &str,
    f: &mut fmt::Formatter<W>,
) -> fmt::Result
    ensures { WritesOnOk W.write_str_gives f.old result (unexpected_state_text state.now) f.new }
{
    write!(f, "Unexpected state '{state}'")
}

/// Writes which call it was.
#[tactic(auto, unfolding(crate::specs::Texts::invoking_text))]
pub(crate) fn write_invoking<W: fmt::Write>(event: &str, f: &mut fmt::Formatter<W>) -> fmt::Result
    ensures { WritesOnOk W.write_str_gives f.old result (invoking_text event.now) f.new }
{
    write!(f, " when invoking '{event}'")
}

/// Writes that a state's key is no text, and what the library's error says of it, of which no contract tells the text.
#[tactic(auto, unfolding(crate::specs::Texts::bad_key_text))]
pub(crate) fn write_bad_key<W: fmt::Write>(
    len: Option<usize>,
    f: &mut fmt::Formatter<W>,
) -> fmt::Result
    ensures { WritesOnOk W.write_str_gives f.old result (bad_key_text len) f.new }
{
    match len {
        Some(len) => write!(
            f,
            "Cannot convert an eager state key into UTF-8 String: invalid utf-8 sequence of {len} bytes"
        ),
        None => f.write_str(
            "Cannot convert an eager state key into UTF-8 String: incomplete utf-8 byte sequence",
        ),
    }
}

/// Writes from which place on.
#[tactic(auto, unfolding(crate::specs::Texts::from_index_text))]
pub(crate) fn write_from_index<W: fmt::Write>(at: usize, f: &mut fmt::Formatter<W>) -> fmt::Result
    ensures { WritesOnOk W.write_str_gives f.old result (from_index_text at) f.new }
{
    write!(f, " from index {at}")
}

/// Writes that a feature came with a later version.
#[tactic(auto, unfolding(crate::specs::Texts::feature_text))]
pub(crate) fn write_feature<W: fmt::Write>(
    feature: &str,
    current: Version,
    minimum: Version,
    f: &mut fmt::Formatter<W>,
) -> fmt::Result
    ensures { WritesOnOk W.write_str_gives f.old result (feature_text feature.now current minimum) f.new }
{
    write!(
        f,
        "Feature '{feature}' is not supported by the negotiated protocol version '{current}', the minimum required version is '{minimum}'"
    )
}
