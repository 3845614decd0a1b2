//! Copies of the row of an invocation. Of its texts the bytes are shared.
ghost use Rattle.std.specs.Prelude.{◌≡◌, IfOk};

use bytes::{ByteStr, Bytes};
use std::alloc::AllocError;
use store_tables::{InvocationRow, LastError, Progress};

fn copied_text(text: &Option<ByteStr>) -> Result<Option<ByteStr>, AllocError>
    ensures { IfOk result (λ copy. copy ≡ text.now) }
{
    match text {
        Some(text) => Ok(Some(text.clone()?)),
        None => Ok(None),
    }
}

fn copied_bytes(bytes: &Option<Bytes>) -> Result<Option<Bytes>, AllocError>
    ensures { IfOk result (λ copy. copy ≡ bytes.now) }
{
    match bytes {
        Some(bytes) => Ok(Some(bytes.clone()?)),
        None => Ok(None),
    }
}

fn copied_error(error: &Option<LastError>) -> Result<Option<LastError>, AllocError>
    ensures { IfOk result (λ copy. copy ≡ error.now) }
{
    match error {
        Some(error) => Ok(Some(LastError {
            code: error.code,
            behavior: error.behavior,
            delay: error.delay,
            message: error.message.clone()?,
        })),
        None => Ok(None),
    }
}

fn copied_progress(progress: &Progress) -> Result<Progress, AllocError>
    ensures { IfOk result (λ copy. copy ≡ progress.now) }
{
    Ok(Progress {
        open_object: copied_text(&progress.open_object)?,
        suspension: copied_bytes(&progress.suspension)?,
        handed: progress.handed,
        closing: progress.closing,
        answer: copied_bytes(&progress.answer)?,
        last_error: copied_error(&progress.last_error)?,
        attempts: progress.attempts,
        attempts_since_entry: progress.attempts_since_entry,
        first_moment: progress.first_moment,
        last_completion: progress.last_completion,
        entries: progress.entries,
        heard: progress.heard,
        arrivals: progress.arrivals,
        is_awake: progress.is_awake,
    })
}

/// A copy of a row.
pub fn copied_row(row: &InvocationRow) -> Result<InvocationRow, AllocError>
    ensures { IfOk result (λ copy. copy ≡ row.now) }
{
    Ok(InvocationRow {
        id: row.id.clone()?,
        object: row.object.clone()?,
        version: row.version,
        seed: row.seed,
        is_whole: row.is_whole,
        progress: copied_progress(&row.progress)?,
    })
}
