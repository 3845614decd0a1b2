// Taking a frame of a live attempt behind others of it that are not written yet.
ghost use Rattle.std.specs.Prelude.{◌≡◌, List, IfSome};
ghost use Rattle.sqlite.specs.Held.{state};
ghost use Rattle.sqlite.specs.State.{HasCleanDisk};
ghost use Rattle.journal_model.specs.Event.{Event};
ghost use Rattle.journal_model.specs.Cause.{IsAccepted};
ghost use Rattle.store_tables.specs.Looks.{OnlyAsks};
ghost use Rattle.store_invocations.specs.Rows.{IsRowOf, IsStoreOf};
ghost use Rattle.store_steps.specs.JoinedFrames.{HasArrivalsOf, IsMadeBehind, can_join};

use crate::frame::{LiveFacts, PreparedFrame};
use crate::prepare::{decide_by_row, wakes_at_once};
use crate::refuse::answers_to;
use bytes::ByteStr;
use sqlite::Alter;
use store_frames::AttemptFrame;
use store_tables::{InvocationRow, StoreTables};

/// Whether a frame can be decided on behind others of its attempt that are not written yet: something is written of it, and the store is to
/// answer no read.
fn can_join(frame: &AttemptFrame) -> bool
    ensures { result ≡ can_join frame.now }
{
    match frame {
        AttemptFrame::Command(command) => answers_to(&command.state) == 0,
        AttemptFrame::Suspension { .. } | AttemptFrame::Error { .. } | AttemptFrame::End => true,
        AttemptFrame::RunOutcome { .. }
        | AttemptFrame::AwaitingOn
        | AttemptFrame::Broken
        | AttemptFrame::TooDeep
        | AttemptFrame::NotAccepted => false,
    }
}

/// Makes ready what is written of a frame of the live attempt behind others of it that are not written yet, by the row that these leave.
/// Nothing where the frame is refused, for whatever reason, or hangs on more of the database than the arrivals: then it is taken alone.
pub fn prepare_joined<S: Alter>(
    tables: &mut StoreTables<S>,
    id: &ByteStr,
    row: InvocationRow,
    attempt: LiveFacts,
    frame: AttemptFrame,
) -> Option<PreparedFrame>
    ensures made { HasCleanDisk (state S.Store tables.new) → (events later : List Event) → IsStoreOf events (state S.Store tables.old) → IsAccepted later → HasArrivalsOf events later id.now → IsRowOf later id.now row
        → IfSome result (IsMadeBehind later id.now attempt frame) }
    ensures looks { OnlyAsks S.Store tables.old tables.new }
{
    if !can_join(&frame) {
        drop(row);
        drop(frame);
        return None;
    }
    match wakes_at_once(tables, id, &row, attempt, &frame) {
        Ok(is_awake) => match decide_by_row(tables.alloc(), id, row, attempt, is_awake, frame) {
            Ok(made) => Some(made),
            Err(_) => None,
        },
        Err(_) => {
            drop(row);
            drop(frame);
            None
        }
    }
}
