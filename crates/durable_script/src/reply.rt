//! What a line prints for a reply of the scheduler.
ghost use Rattle.std.specs.Prelude.{◌≡◌, ◌∷◌, [], ◌++◌, IfOk, string_bytes};
ghost use Rattle.script_lines.specs.Text.{reply_text};
ghost use Rattle.durable_script.specs.ReplyTexts.{word_of, printed};

use durable_schedule::{Reply, Turn};
use script_lines::text::{LastTurn, LineReply};
use std::alloc::{AllocError, Global};

/// What the last of a line's turns came to.
fn last_turn(turn: &Turn) -> LastTurn
    ensures { result ≡ word_of turn.now }
{
    match turn {
        Turn::Answered => LastTurn::Answered,
        Turn::RanBody => LastTurn::Ran,
        Turn::Waiting => LastTurn::Waiting,
        Turn::Suspended => LastTurn::Suspended,
        Turn::Ended => LastTurn::Ended,
        Turn::Failed(error) => LastTurn::Failed(error.code()),
    }
}

/// What a line came to: its last reply, and how many turns it took.
pub(crate) fn line_reply(turns: u32, reply: &Reply) -> LineReply
    ensures { reply_text result ≡ printed turns reply.now }
{
    match reply {
        Reply::Done => LineReply::Done,
        Reply::Placed(place) => LineReply::Placed(*place),
        Reply::Ticked(sleeps) => LineReply::Ticked(*sleeps),
        Reply::Begun(attempt) => LineReply::Begun(*attempt),
        Reply::Fed {
            bytes,
            refusal: None,
        } => LineReply::Fed(*bytes),
        Reply::Fed {
            refusal: Some(refusal),
            ..
        } => LineReply::Refused(refusal.name()),
        Reply::Turned(turn) => LineReply::Turned {
            count: turns,
            last: last_turn(turn),
        },
        Reply::Moved {
            bytes,
            frames,
            refusal: None,
        } => LineReply::Moved {
            bytes: *bytes,
            frames: *frames,
            refusal: None,
        },
        Reply::Moved {
            bytes,
            frames,
            refusal: Some(refusal),
        } => LineReply::Moved {
            bytes: *bytes,
            frames: *frames,
            refusal: Some(refusal.name()),
        },
        Reply::Refused(refusal) => LineReply::Refused(refusal.name()),
    }
}

/// The text of a line's reply, with its line feed.
pub(crate) fn reply_line(alloc: Global, reply: LineReply) -> Result<String, AllocError>
    ensures { IfOk result (λ text. string_bytes text ≡ reply_text reply ++ 10 ∷ []) }
{
    format!(in alloc; "{reply}\n")
}
