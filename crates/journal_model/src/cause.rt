//! Why an event is refused.

/// Why an event is refused after the accepted ones. Where several causes hold, the first of them here is answered.
///
/// Each stands behind the name by which it is printed.
#[derive(Clone, Copy, Debug, PartialEq, Eq)]
pub enum Cause {
    /// S1: the object has an open invocation.
    ObjectBusy,
    /// S2: the id or the object key is empty.
    EmptyName,
    /// S3: the id was used before.
    IdUsed,
    /// S4: no invocation has this id.
    UnknownInvocation,
    /// S5: the invocation is closed.
    InvocationClosed,
    /// S6: no recorded request waits for this completion.
    CompletionNotOpen,
    /// S7: the request takes its result from the store alone, or not of this kind.
    WrongKind,
    /// S8: the signals 0 and 2 to 16 are not for use.
    ReservedSignal,
    /// S9: the attempt is not the live one.
    AttemptNotLive,
    /// S10: the version of the protocol is not supported.
    UnsupportedVersion,
    /// S11: the payload is no record of its type, or lacks a field that the store requires.
    BrokenPayload,
    /// S12: the payload holds records in one another deeper than one hundred levels.
    NestedTooDeep,
    /// S13: the header is unknown, or frames of its type are not accepted.
    FrameNotAccepted,
    /// S14: the completion ids do not ascend from above every earlier one.
    BadCompletion,
    /// S15: the attempt suspended while its input was not closed.
    InputNotClosed,
    /// S16: bytes of the input were not handed out yet.
    InputRemains,
    /// S17: the input was closed before.
    InputAlreadyClosed,
    /// S18: a key of the state is no text.
    KeyNotText,
    /// S22: no run waits for this outcome.
    RunNotOpen,
    /// S23: no further place, or no further attempt, has a number.
    NumbersUsedUp,
    /// S24: the payload of a frame would pass 32 bits.
    PayloadTooLong,
}
