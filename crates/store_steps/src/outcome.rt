//! Outcomes of runs: one is recorded as any arrival is, and the attempt that proposed it is told.

ghost use Rattle.std.specs.Prelude.{◌≡◌, List, IfErr};
ghost use Rattle.sqlite.specs.Held.{state};
ghost use Rattle.sqlite.specs.State.{HasCleanDisk};
ghost use Rattle.journal_model.specs.Event.{Event};
ghost use Rattle.protocol_types.specs.Version.{version_number};
ghost use Rattle.store_frames.specs.declared.frame.AttemptFrame.{AttemptFrame};
ghost use Rattle.store_tables.specs.Looks.{OnlyAsks};
ghost use Rattle.store_invocations.specs.Rows.{IsRowOf, IsStoreOf};
ghost use Rattle.store_steps.specs.declared.frame.LiveFacts.{LiveFacts};
ghost use Rattle.store_steps.specs.Reads.{acknowledged_if};
ghost use Rattle.store_steps.specs.PreparedFrames.{TakesAttemptFrame};
ghost use Rattle.store_refusals.specs.Causes.{TellsCause};

use crate::frame::{FrameReply, PreparedFrame};
use bytes::ByteStr;
use journal_model::NotificationResult;
use protocol_stream::{Feature, Version};
use sqlite::Alter;
use store_arrivals::{PreparedArrival, prepare_outcome};
use store_refusals::Refusal;
use store_tables::{InvocationRow, StoreTables};

/// The completion of a run, where an attempt of this version that asks for it is told only that its outcome came.
fn acknowledged_by(version: Version, completion: u32, is_asked: bool) -> Option<u32>
    ensures { result ≡ acknowledged_if (version_number version) completion is_asked }
{
    if is_asked && Feature::Acknowledgement.is_in(version.number()) {
        Some(completion)
    } else {
        None
    }
}

/// Decides on the outcome of a run, by the row of its invocation: whether the run waits for it, and what is written then.
pub(crate) fn outcome_by_row<S: Alter>(
    tables: &mut StoreTables<S>,
    id: &ByteStr,
    row: InvocationRow,
    completion: u32,
    brought: NotificationResult,
    is_acknowledged: bool,
) -> Result<PreparedFrame, Refusal>
    ensures prepared { HasCleanDisk (state S.Store tables.new) → (events : List Event) → IsStoreOf events (state S.Store tables.old) → IsRowOf events id.now row
        → (attempt : LiveFacts) → TakesAttemptFrame events id.now attempt (AttemptFrame.RunOutcome completion brought is_acknowledged) result }
    ensures looks { OnlyAsks S.Store tables.old tables.new }
    ensures cause { IfErr result (TellsCause (state S.Store tables.old) (state S.Store tables.new)) }
{
    let acknowledged = acknowledged_by(row.version, completion, is_acknowledged);
    match prepare_outcome(tables, row, id, completion, brought) {
        Ok(PreparedArrival { writes, place }) => Ok(PreparedFrame {
            writes,
            reply: FrameReply::Recorded { place },
            acknowledged,
        }),
        Err(why) => Err(why),
    }
}
