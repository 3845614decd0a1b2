// Whether an attempt is over once its frame was answered.
ghost use Rattle.std.specs.Prelude.{◌≡◌};
ghost use Rattle.journal_model.specs.Cause.{is_of_frame};
ghost use Rattle.store_steps.specs.PreparedFrames.{TellsFrameCause, TellsEnd, does_end, lies_in_frame};

use crate::frame::FrameReply;
use store_refusals::{Cause, Refusal};

impl FrameReply {
    /// Whether the frame was the last one of its attempt.
    pub fn ends_attempt(self) -> bool
        ensures value { result ≡ does_end self }
        ensures frame { TellsEnd self result }
    {
        match self {
            FrameReply::Recorded { .. } | FrameReply::Noted => false,
            FrameReply::Suspended | FrameReply::Failed | FrameReply::Ended => true,
        }
    }
}

/// Whether a cause lies in the frame itself.
fn is_of_frame(cause: Cause) -> bool
    ensures { result ≡ is_of_frame cause }
{
    match cause {
        Cause::BrokenPayload
        | Cause::NestedTooDeep
        | Cause::FrameNotAccepted
        | Cause::BadCompletion
        | Cause::InputNotClosed
        | Cause::KeyNotText
        | Cause::RunNotOpen => true,
        _ => false,
    }
}

/// Whether a refused frame ends its attempt. Of any other refusal the frame waits, and is taken once more.
pub fn refusal_ends_attempt(refusal: Refusal) -> bool
    ensures value { result ≡ lies_in_frame refusal }
    ensures cause { TellsFrameCause refusal result }
{
    match refusal {
        Refusal::Cause(cause) => is_of_frame(cause),
        Refusal::StatementRefused(_) | Refusal::OutOfMemory | Refusal::ForeignRow => false,
    }
}
