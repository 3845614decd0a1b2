//! The texts of answers, each with its line feed.
ghost use Rattle.std.specs.Prelude.{◌≡◌, ◌≤◌, map, option_map, IfOk, Some, string_bytes};
ghost use Rattle.script_lines.specs.Text.{reply_text};
ghost use Rattle.server_lines.specs.Reply.{not_understood_text, output_line};
ghost use Rattle.store_refusals.specs.Names.{refusal_name_of};
ghost use Rattle.journal_store.specs.OutputAcceptance.{accepted_told};
ghost use Rattle.store_server.specs.RequestAnswers.{answer_text, attempt_line, done_line, handed_line, line_of, place_line, refusal_line, taken_frame, taken_line, ticked_line};

use bytes::Bytes;
use journal_store::{Accepted, BegunAttempt, FrameReply, Refusal};
use script_lines::text::LineReply;
use server_lines::reply::{BegunReply, InputReply, NotUnderstoodReply, OutputReply, TakenFrame};
use std::alloc::{AllocError, Global};

fn reply_line(alloc: Global, reply: LineReply) -> Result<String, AllocError>
    ensures { IfOk result (λ text. string_bytes text ≡ line_of (reply_text reply)) }
{
    format!(in alloc; "{reply}\n")
}

/// A refusal is told by its name.
pub(crate) fn refused(alloc: Global, refusal: Refusal) -> Result<String, AllocError>
    ensures { IfOk result (λ text. string_bytes text ≡ refusal_line refusal) }
{
    reply_line(alloc, LineReply::Refused(refusal.name()))
}

pub(crate) fn done(alloc: Global, told: Result<(), Refusal>) -> Result<String, AllocError>
    ensures { IfOk result (λ text. string_bytes text ≡ answer_text done_line told) }
{
    match told {
        Ok(()) => reply_line(alloc, LineReply::Done),
        Err(refusal) => refused(alloc, refusal),
    }
}

pub(crate) fn placed(alloc: Global, told: Result<u32, Refusal>) -> Result<String, AllocError>
    ensures { IfOk result (λ text. string_bytes text ≡ answer_text place_line told) }
{
    match told {
        Ok(place) => reply_line(alloc, LineReply::Placed(place)),
        Err(refusal) => refused(alloc, refusal),
    }
}

pub(crate) fn ticked(alloc: Global, told: Result<u64, Refusal>) -> Result<String, AllocError>
    ensures { IfOk result (λ text. string_bytes text ≡ answer_text ticked_line told) }
{
    match told {
        Ok(sleeps) => reply_line(alloc, LineReply::Ticked(sleeps)),
        Err(refusal) => refused(alloc, refusal),
    }
}

fn begun_line(alloc: Global, begun: &BegunAttempt) -> Result<String, AllocError>
    ensures { IfOk result (λ text. string_bytes text ≡ attempt_line begun.now) }
{
    let reply = BegunReply {
        attempt: begun.number,
        content_type: begun.version.content_type(),
        start: begun.start.as_slice(),
    };
    format!(in alloc; "{reply}\n")
}

pub(crate) fn begun(
    alloc: Global,
    told: Result<BegunAttempt, Refusal>,
) -> Result<String, AllocError>
    ensures { IfOk result (λ text. string_bytes text ≡ answer_text attempt_line told) }
{
    match told {
        Ok(begun) => {
            let text = begun_line(alloc, &begun);
            drop(begun);
            text
        }
        Err(refusal) => refused(alloc, refusal),
    }
}

fn input_line(alloc: Global, bytes: &[u8]) -> Result<String, AllocError>
    ensures { IfOk result (λ text. string_bytes text ≡ handed_line bytes.now) }
{
    let reply = InputReply(bytes);
    format!(in alloc; "{reply}\n")
}

pub(crate) fn handed(alloc: Global, told: Result<Bytes, Refusal>) -> Result<String, AllocError>
    ensures { IfOk result (λ text. string_bytes text ≡ answer_text handed_line told) }
{
    match told {
        Ok(bytes) => {
            let text = input_line(alloc, bytes.as_slice());
            drop(bytes);
            text
        }
        Err(refusal) => refused(alloc, refusal),
    }
}

fn taken_frame(reply: FrameReply) -> TakenFrame
    ensures { result ≡ taken_frame reply }
{
    match reply {
        FrameReply::Recorded { place } => TakenFrame::Recorded(place),
        FrameReply::Noted => TakenFrame::Noted,
        FrameReply::Suspended => TakenFrame::Suspended,
        FrameReply::Failed => TakenFrame::Failed,
        FrameReply::Ended => TakenFrame::Ended,
    }
}

fn taken_frames(alloc: Global, replies: &[FrameReply]) -> Result<Vec<TakenFrame>, AllocError>
    ensures { IfOk result (λ frames. frames.items ≡ map taken_frame replies.now) }
{
    let mut frames = Vec::with_capacity(alloc, replies.len())?;
    for reply in replies {
        frames.push(taken_frame(*reply))?;
    }
    Ok(frames)
}

fn refusal_name(refusal: Option<Refusal>) -> Option<&'static str>
    ensures { option_map (λ name. name.now) result ≡ option_map refusal_name_of refusal }
{
    match refusal {
        Some(refusal) => Some(refusal.name()),
        None => None,
    }
}

fn output_line(
    alloc: Global,
    frames: &[TakenFrame],
    refusal: Option<Refusal>,
) -> Result<String, AllocError>
    ensures { IfOk result (λ text. string_bytes text ≡ line_of (output_line frames.now (option_map refusal_name_of refusal))) }
{
    let reply = OutputReply {
        frames,
        refusal: refusal_name(refusal),
    };
    format!(in alloc; "{reply}\n")
}

fn accepted_line(alloc: Global, accepted: Accepted) -> Result<String, AllocError>
    ensures { IfOk result (λ text. string_bytes text ≡ taken_line (accepted.replies.items, accepted.refusal)) }
{
    let Accepted { replies, refusal } = accepted;
    let frames = taken_frames(alloc, replies.as_slice());
    drop(replies);
    match frames {
        Ok(frames) => {
            let text = output_line(alloc, frames.as_slice(), refusal);
            drop(frames);
            text
        }
        Err(error) => Err(error),
    }
}

pub(crate) fn accepted(alloc: Global, told: Result<Accepted, Refusal>) -> Result<String, AllocError>
    ensures { IfOk result (λ text. string_bytes text ≡ answer_text taken_line (accepted_told told)) }
{
    match told {
        Ok(accepted) => accepted_line(alloc, accepted),
        Err(refusal) => refused(alloc, refusal),
    }
}

pub(crate) fn not_understood(alloc: Global) -> Result<String, AllocError>
    ensures { IfOk result (λ text. string_bytes text ≡ line_of not_understood_text) }
{
    let reply = NotUnderstoodReply;
    format!(in alloc; "{reply}\n")
}
