//! How far an invocation is once an attempt of it is begun.

ghost use Rattle.std.specs.Prelude.{◌≡◌, [], ◌∷◌, ◌+◌, ◌<◌, ◌≤◌, ◌^◌, IfOk};
ghost use Rattle.store_invocations.specs.BegunAttempts.{begun_at};
ghost use Rattle.store_tables.specs.declared.row.Write.TheVariants.{SetProgress};

use std::alloc::{AllocError, Global};
use store_live::copied_row;
use store_tables::{InvocationRow, Progress, Write};

/// The progress with one attempt more, which was begun at this moment: nothing of its input was handed to it yet, and it may go on.
fn begun_progress(mut progress: Progress, now: u64) -> Progress
    requires room { progress.attempts + 1 < 2 ^ 32 }
    ensures { progress.attempts_since_entry ≤ progress.attempts → result ≡ begun_at now progress }
{
    if progress.attempts_since_entry == 0 {
        progress.first_moment = now;
    }
    progress.attempts += 1;
    progress.attempts_since_entry = progress.attempts_since_entry.saturating_add(1);
    progress.handed = None;
    progress.heard = None;
    progress.is_awake = true;
    drop(progress.suspension.take());
    progress
}

/// What is written of it.
fn begun_writes(alloc: Global, row: InvocationRow, now: u64) -> Result<Vec<Write>, AllocError>
    requires room { row.progress.attempts + 1 < 2 ^ 32 }
    ensures { row.progress.attempts_since_entry ≤ row.progress.attempts → IfOk result (λ writes. writes.items ≡ SetProgress row.id (begun_at now row.progress) ∷ []) }
{
    let InvocationRow {
        id,
        object,
        progress,
        ..
    } = row;
    drop(object);
    let progress = begun_progress(progress, now);
    let mut writes = Vec::new(alloc);
    writes.push(Write::SetProgress { id, progress })?;
    Ok(writes)
}

/// What is written of it, and the row as it was.
pub(crate) fn begun_row(
    alloc: Global,
    row: InvocationRow,
    now: u64,
) -> Result<(Vec<Write>, InvocationRow), AllocError>
    requires room { row.progress.attempts + 1 < 2 ^ 32 }
    ensures writes { row.progress.attempts_since_entry ≤ row.progress.attempts → IfOk result (λ begun. begun.0.items ≡ SetProgress row.id (begun_at now row.progress) ∷ []) }
    ensures row { IfOk result (λ begun. begun.1 ≡ row) }
{
    match copied_row(&row) {
        Ok(kept) => match begun_writes(alloc, row, now) {
            Ok(writes) => Ok((writes, kept)),
            Err(refused) => {
                drop(kept);
                Err(refused)
            }
        },
        Err(refused) => {
            drop(row);
            Err(refused)
        }
    }
}
