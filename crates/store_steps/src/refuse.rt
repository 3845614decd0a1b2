// Why a frame is refused.
ghost use Rattle.std.specs.Prelude.{◌≡◌, ◌+◌, ◌-◌, ◌^◌, nat_lt, not, true};
ghost use Rattle.journal_model.specs.Cause.{do_ascend};
ghost use Rattle.store_refusals.specs.RefusalConditions.{refusal_by};
ghost use Rattle.store_steps.specs.FrameAnswers.{answers_told, asked, tests_of_told};

use crate::frame::LiveFacts;
use store_frames::{AttemptFrame, RecordedCommand, StateUse};
use store_refusals::{Cause, Refusal};
use store_tables::Progress;

/// The greatest place.
const LAST_PLACE: u32 = 0xFFFF_FFFE;

/// How many answers the store gives to a command at once.
pub(crate) fn answers_to(state: &StateUse) -> u32
    ensures { result ≡ answers_told state.now }
{
    match state {
        StateUse::ReadValue { .. } | StateUse::ReadKeys => 1,
        StateUse::Nothing | StateUse::Put { .. } | StateUse::Remove { .. } | StateUse::RemoveAll =>
            0,
    }
}

/// Whether an invocation has places for a command and what the store answers to it.
fn has_places(progress: &Progress, command: &RecordedCommand) -> bool
    ensures { result ≡ not (nat_lt (2 ^ 32 - 2) (answers_told command.now.state + progress.now.entries)) }
{
    progress.entries <= LAST_PLACE - answers_to(&command.state)
}

/// Whether the completions that a command asks for ascend from above every earlier one.
fn do_completions_ascend(last: u32, first: Option<u32>, second: Option<u32>) -> bool
    ensures { result ≡ do_ascend last (asked first second) }
{
    match (first, second) {
        (None, _) => true,
        (Some(first), None) => last < first,
        (Some(first), Some(second)) => last < first && first < second,
    }
}

pub(crate) fn command_refusal(progress: &Progress, command: &RecordedCommand) -> Option<Refusal>
    ensures { result ≡ refusal_by (tests_of_told progress.now true (AttemptFrame.Command command.now)) }
{
    let last = progress.last_completion;
    if !do_completions_ascend(last, command.completion, command.second_completion) {
        Some(Refusal::Cause(Cause::BadCompletion))
    } else if !command.are_keys_text {
        Some(Refusal::Cause(Cause::KeyNotText))
    } else if !has_places(progress, command) {
        Some(Refusal::Cause(Cause::NumbersUsedUp))
    } else if command.payload.len() > u32::MAX as usize {
        Some(Refusal::Cause(Cause::PayloadTooLong))
    } else {
        None
    }
}

/// Why the frame of an attempt is refused, if it is. Of the outcome of a run this is asked elsewhere.
pub(crate) fn frame_refusal(
    progress: &Progress,
    attempt: LiveFacts,
    frame: &AttemptFrame,
) -> Option<Refusal>
    ensures { result ≡ refusal_by (tests_of_told progress.now attempt.is_input_closed frame.now) }
{
    match frame {
        AttemptFrame::Command(command) => command_refusal(progress, command),
        AttemptFrame::Suspension { .. } if !attempt.is_input_closed => {
            Some(Refusal::Cause(Cause::InputNotClosed))
        }
        AttemptFrame::Broken => Some(Refusal::Cause(Cause::BrokenPayload)),
        AttemptFrame::TooDeep => Some(Refusal::Cause(Cause::NestedTooDeep)),
        AttemptFrame::NotAccepted => Some(Refusal::Cause(Cause::FrameNotAccepted)),
        AttemptFrame::Suspension { .. }
        | AttemptFrame::AwaitingOn
        | AttemptFrame::Error { .. }
        | AttemptFrame::RunOutcome { .. }
        | AttemptFrame::End => None,
    }
}
