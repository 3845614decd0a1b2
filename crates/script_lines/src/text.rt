//! What the lines of a script print, each without its line feed.

ghost use Rattle.std.specs.Prelude.{◌≡◌, Some};
ghost use Rattle.std.specs.Int.{to_be_bytes, w16};

use bytes::ByteStr;
use protocol_types::HexByte;
use std::fmt;

/// Bytes as hexadecimal digits in lower case, and a dash where there are none.
#[derive(Clone, Copy)]
pub struct Hex<'a>(pub &'a [u8]);

impl fmt::Display for Hex<'_> {
    ghost use Rattle.script_lines.specs.Text.{hex_text};

    ghost output = { λ hex. Some (hex_text hex.0.now) };

    fn fmt<W: fmt::Write>(&self, f: &mut fmt::Formatter<W>) -> fmt::Result {
        if self.0.is_empty() {
            return write!(f, "-");
        }
        for byte in self.0 {
            let digits = HexByte(*byte);
            write!(f, "{digits}")?;
        }
        Ok(())
    }
}

/// What the last of a line's turns came to.
#[derive(Clone, Copy)]
pub enum LastTurn {
    /// A call was answered.
    Answered,
    /// The body of a run was executed.
    Ran,
    /// The attempt waits for input.
    Waiting,
    /// The attempt is suspended: it has told what it waits for.
    Suspended,
    /// The handler has ended.
    Ended,
    /// The attempt has failed, with this error code.
    Failed(u16),
}

impl fmt::Display for LastTurn {
    ghost use Rattle.script_lines.specs.Text.{turn_text};

    ghost output = { λ turn. Some (turn_text turn) };

    fn fmt<W: fmt::Write>(&self, f: &mut fmt::Formatter<W>) -> fmt::Result {
        match self {
            LastTurn::Answered => write!(f, "answered"),
            LastTurn::Ran => write!(f, "ran"),
            LastTurn::Waiting => write!(f, "waiting"),
            LastTurn::Suspended => write!(f, "suspended"),
            LastTurn::Ended => write!(f, "ended"),
            LastTurn::Failed(code) => write!(f, "failed {code}"),
        }
    }
}

/// What a line came to, but for `due`, `show` and `state`. A refusal goes by its printed name, as `S9`.
#[derive(Clone, Copy)]
pub enum LineReply {
    /// An invocation was made, an input closed, or an attempt stopped.
    Done,
    /// What was brought took this place of the journal.
    Placed(u32),
    /// So many sleeps are over.
    Ticked(u64),
    /// An attempt of this number was begun.
    Begun(u32),
    /// So many bytes were fed.
    Fed(usize),
    /// So many turns were taken.
    Turned {
        count: u32,
        last: LastTurn,
    },
    /// So many bytes were moved and so many frames taken, and why no further one was.
    Moved {
        bytes: usize,
        frames: usize,
        refusal: Option<&'static str>,
    },
    /// Nothing was done.
    Refused(&'static str),
}

impl fmt::Display for LineReply {
    ghost use Rattle.script_lines.specs.Text.{reply_text};

    ghost output = { λ reply. Some (reply_text reply) };

    fn fmt<W: fmt::Write>(&self, f: &mut fmt::Formatter<W>) -> fmt::Result {
        match self {
            LineReply::Done => write!(f, "ok"),
            LineReply::Placed(place) => write!(f, "place {place}"),
            LineReply::Ticked(sleeps) => write!(f, "done {sleeps}"),
            LineReply::Begun(attempt) => write!(f, "attempt {attempt}"),
            LineReply::Fed(bytes) => write!(f, "fed {bytes}"),
            LineReply::Turned { count, last } => write!(f, "turn {count} {last}"),
            LineReply::Moved {
                bytes,
                frames,
                refusal: None,
            } => write!(f, "moved {bytes} frames {frames}"),
            LineReply::Moved {
                bytes,
                frames,
                refusal: Some(name),
            } => { write!(f, "moved {bytes} frames {frames} refused {name}") }
            LineReply::Refused(name) => write!(f, "refused {name}"),
        }
    }
}

/// The lowest two bytes of a number, the higher one first.
fn low_bytes(number: u32) -> [u8; 2]
    ensures { result ≡ to_be_bytes w16 number }
{
    let [_, _, high, low] = number.to_be_bytes();
    [high, low]
}

/// A recorded request: its place, counted from 1, the number of its frame's type, which has sixteen bits, and its payload.
#[derive(Clone, Copy)]
pub struct ShownRequest<'a> {
    pub place: u32,
    pub ty: u32,
    pub payload: &'a [u8],
}

impl fmt::Display for ShownRequest<'_> {
    ghost use Rattle.script_lines.specs.Text.{request_text};

    ghost output = { λ request. Some (request_text request) };

    fn fmt<W: fmt::Write>(&self, f: &mut fmt::Formatter<W>) -> fmt::Result {
        let place = self.place;
        let ty = low_bytes(self.ty);
        let ty = Hex(&ty);
        let payload = Hex(self.payload);
        write!(f, "{place} request {ty} {payload}")
    }
}

/// The answer of an invocation.
#[derive(Clone, Copy)]
pub enum ShownAnswer<'a> {
    /// There is none.
    Missing,
    Value(&'a [u8]),
    Failure { code: u16, message: &'a [u8] },
}

impl fmt::Display for ShownAnswer<'_> {
    ghost use Rattle.script_lines.specs.Text.{answer_text};

    ghost output = { λ answer. Some (answer_text answer) };

    fn fmt<W: fmt::Write>(&self, f: &mut fmt::Formatter<W>) -> fmt::Result {
        match self {
            ShownAnswer::Missing => write!(f, "answer none"),
            ShownAnswer::Value(bytes) => {
                let bytes = Hex(bytes);
                write!(f, "answer value {bytes}")
            }
            ShownAnswer::Failure { code, message } => {
                let message = Hex(message);
                write!(f, "answer failure {code} {message}")
            }
        }
    }
}

/// Whether an invocation is open.
#[derive(Clone, Copy)]
pub struct ShownOpenness(pub bool);

impl fmt::Display for ShownOpenness {
    ghost use Rattle.script_lines.specs.Text.{open_text};

    ghost output = { λ shown. Some (open_text shown.0) };

    fn fmt<W: fmt::Write>(&self, f: &mut fmt::Formatter<W>) -> fmt::Result {
        if self.0 {
            write!(f, "open")
        } else {
            write!(f, "closed")
        }
    }
}

/// A value of an object's state.
#[derive(Clone, Copy)]
pub struct ShownState<'a> {
    pub key: &'a [u8],
    pub value: &'a [u8],
}

impl fmt::Display for ShownState<'_> {
    ghost use Rattle.script_lines.specs.Text.{state_text};

    ghost output = { λ state. Some (state_text state) };

    fn fmt<W: fmt::Write>(&self, f: &mut fmt::Formatter<W>) -> fmt::Result {
        let key = Hex(self.key);
        let value = Hex(self.value);
        write!(f, "state {key} {value}")
    }
}

/// Ids, each behind a space.
#[derive(Clone, Copy)]
struct FurtherIds<'a>(&'a [ByteStr]);

impl fmt::Display for FurtherIds<'_> {
    ghost use Rattle.script_lines.specs.Text.{further_ids};

    ghost output = { λ ids. Some (further_ids ids.0.now) };

    fn fmt<W: fmt::Write>(&self, f: &mut fmt::Formatter<W>) -> fmt::Result {
        for id in self.0 {
            write!(f, " {id}")?;
        }
        Ok(())
    }
}

/// The ids of invocations that are due.
#[derive(Clone, Copy)]
pub struct ShownDue<'a>(pub &'a [ByteStr]);

impl fmt::Display for ShownDue<'_> {
    ghost use Rattle.script_lines.specs.Text.{due_text};

    ghost output = { λ shown. Some (due_text shown) };

    fn fmt<W: fmt::Write>(&self, f: &mut fmt::Formatter<W>) -> fmt::Result {
        let ids = FurtherIds(self.0);
        write!(f, "due{ids}")
    }
}
