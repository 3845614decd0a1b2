//! Laws of types of commands, headers and streams. Each function does nothing: its contract is the law.

ghost use Rattle.protocol_stream.specs.CommandFacts.{RequestsTyped, RequestsHaveLines};
ghost use Rattle.protocol_stream.specs.Laws.{CommandTypesReadBack, CancellationsAreSignals, HeadersReadBack, FramesStandAlone, StreamsAreRead, StreamsCutAnywhere, DecodersAnswerItems, SleepsSpelled, OutputsSpelled, InputsSpelled, StartsSpelled, FuturesSpelled, AwaitingOnSpelled, FramesSpelled, TerminalFailuresReadBack};

/// Every type of a command but the cancellation is read back from the type of its message. The cancellation is read back
/// as the signal that it sends.
pub fn command_types_read_back()
    ensures commands { CommandTypesReadBack }
    ensures cancellation { CancellationsAreSignals }
{}

/// The line of a command, by the type of its message, is what the definitions of durable execution say of its requests: which
/// completions they ask for, by which notification each comes, what it may be given from outside, and what is kept.
pub fn commands_have_lines()
    ensures types { RequestsTyped }
    ensures lines { RequestsHaveLines }
{}

/// A header whose flag fits its type is read back from the number that it is written as.
pub fn headers_read_back()
    ensures { HeadersReadBack }
{}

/// A message is the item at the front of its bytes, whatever follows them, so no message begins another; and the
/// items of a stream of messages are these messages.
pub fn messages_read_back()
    ensures front { FramesStandAlone }
    ensures stream { StreamsAreRead }
{}

/// Cutting the same bytes into other pieces changes no item and no order: whatever calls were made on a decoder, and
/// whichever of them were refused memory, what it has answered is the items of the bytes that came, up to those of what
/// still waits.
pub fn streams_cut_anywhere()
    ensures cut { StreamsCutAnywhere }
    ensures decoder { DecodersAnswerItems }
{}

/// The canonical payload of a record, and the frame of a message that requests no acknowledgement, are those that the
/// definitions of durable execution give.
pub fn spelled_as_defined()
    ensures sleep { SleepsSpelled }
    ensures output { OutputsSpelled }
    ensures input { InputsSpelled }
    ensures start { StartsSpelled }
    ensures future { FuturesSpelled }
    ensures awaiting_on { AwaitingOnSpelled }
    ensures frame { FramesSpelled }
{}

/// A terminal failure that was turned into its record and back is unchanged.
pub fn terminal_failures_read_back()
    ensures { TerminalFailuresReadBack }
{}
