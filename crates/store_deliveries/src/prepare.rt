//! The row of a frame's request, written beside it.

ghost use Rattle.std.specs.Prelude.{◌≡◌, ℕ, suc, ◌++◌, ◌^◌, ◌-◌, nat_le, ◌∷◌, [], List, IfErr, IfOk};
ghost use Rattle.sqlite.specs.Held.{state};
ghost use Rattle.sqlite.specs.State.{HasCleanDisk};
ghost use Rattle.journal_model.specs.Event.{Event, Frame};
ghost use Rattle.journal_model.specs.declared.cause.Cause.TheVariants.{NumbersUsedUp};
ghost use Rattle.delivery_laws.specs.Outbox.{Outbox};
ghost use Rattle.store_tables.specs.Looks.{OnlyAsks};
ghost use Rattle.store_refusals.specs.Causes.{TellsCause};
ghost use Rattle.store_invocations.specs.Rows.{Decides, IsStoreOf};
ghost use Rattle.store_steps.specs.PreparedFrames.{IsFrameTaken};
ghost use Rattle.store_deliveries.specs.PreparedRows.{AddsRows, is_asking_type, place_asked, put_writes};
ghost use Rattle.store_deliveries.specs.StoredOutbox.{HasOutbox};

use crate::owed::given_number;
use crate::row::{OwedMessage, add_row};
use bytes::ByteStr;
use protocol_types::MessageType;
use sqlite::Alter;
use std::alloc::{AllocError, Global};
use store_refusals::{Cause, Refusal};
use store_steps::PreparedFrame;
use store_tables::{StoreTables, Write};

fn is_asking(kind: MessageType) -> bool
    ensures { result ≡ is_asking_type kind }
{
    matches!(
        kind,
        MessageType::SendSignalCommand | MessageType::CompleteAwakeableCommand
    )
}

/// The place of the entry that is written first, where its request asks something of another invocation.
fn place_asked(writes: &[Write]) -> Option<u32>
    ensures { result ≡ place_asked writes.now }
{
    match writes.first() {
        Some(Write::AddEntry(entry)) => {
            if is_asking(entry.kind) {
                Some(entry.place)
            } else {
                None
            }
        }
        _ => None,
    }
}

/// The number of the next message, if one is left.
fn next_number<S: Alter>(tables: &mut StoreTables<S>) -> Result<u64, Refusal>
    ensures decided { HasCleanDisk (state S.Store tables.new) → (events : List Event) (outbox : Outbox) → IsStoreOf events (state S.Store tables.old) → HasOutbox events outbox (state S.Store tables.old)
        → Decides ((nat_le (2 ^ 64 - 1) outbox.given, NumbersUsedUp) ∷ []) (λ number. number ≡ suc outbox.given) result }
    ensures looks { OnlyAsks S.Store tables.old tables.new }
    ensures cause { IfErr result (TellsCause (state S.Store tables.old) (state S.Store tables.new)) }
{
    let given = given_number(tables)?;
    if given == u64::MAX {
        return Err(Refusal::Cause(Cause::NumbersUsedUp));
    }
    Ok(given + 1)
}

/// What a frame writes, and its row behind.
fn with_row(
    alloc: Global,
    id: &ByteStr,
    place: u32,
    number: u64,
    mut writes: Vec<Write>,
) -> Result<Vec<Write>, AllocError>
    ensures { IfOk result (λ all. all.items ≡ writes.items ++ put_writes (record { number = number; sender = id.now; place = place })) }
{
    let message = OwedMessage {
        number,
        sender: id.clone()?,
        place,
    };
    let added = add_row(alloc, &message, &mut writes);
    drop(message);
    added?;
    Ok(writes)
}

fn add_row_at<S: Alter>(
    tables: &mut StoreTables<S>,
    id: &ByteStr,
    place: u32,
    writes: Vec<Write>,
) -> Result<Vec<Write>, Refusal>
    ensures decided { HasCleanDisk (state S.Store tables.new) → (events : List Event) (outbox : Outbox) → IsStoreOf events (state S.Store tables.old) → HasOutbox events outbox (state S.Store tables.old)
        → Decides ((nat_le (2 ^ 64 - 1) outbox.given, NumbersUsedUp) ∷ []) (λ all. all.items ≡ writes.items ++ put_writes (record { number = suc outbox.given; sender = id.now; place = place })) result }
    ensures looks { OnlyAsks S.Store tables.old tables.new }
    ensures cause { IfErr result (TellsCause (state S.Store tables.old) (state S.Store tables.new)) }
{
    match next_number(tables) {
        Ok(number) => {
            let all = with_row(tables.alloc(), id, place, number, writes)?;
            Ok(all)
        }
        Err(why) => {
            drop(writes);
            Err(why)
        }
    }
}

/// What was made ready of a frame, and the row of its request, where that asks something of another invocation.
pub fn add_rows<S: Alter>(
    tables: &mut StoreTables<S>,
    id: &ByteStr,
    made: PreparedFrame,
) -> Result<PreparedFrame, Refusal>
    ensures added { HasCleanDisk (state S.Store tables.new) → (events : List Event) (outbox : Outbox) (number : ℕ) (frame : Frame) → IsStoreOf events (state S.Store tables.old)
        → HasOutbox events outbox (state S.Store tables.old) → IsFrameTaken events id.now number frame made → AddsRows events outbox (Event.Move id.now number frame) made result }
    ensures looks { OnlyAsks S.Store tables.old tables.new }
    ensures cause { IfErr result (TellsCause (state S.Store tables.old) (state S.Store tables.new)) }
{
    let PreparedFrame {
        writes,
        reply,
        acknowledged,
    } = made;
    match place_asked(writes.as_slice()) {
        Some(place) => {
            let writes = add_row_at(tables, id, place, writes)?;
            Ok(PreparedFrame {
                writes,
                reply,
                acknowledged,
            })
        }
        None => Ok(PreparedFrame {
            writes,
            reply,
            acknowledged,
        }),
    }
}
