//! What the store's process answers, each without its line feed. `ok`, `place`, `done` and `refused` are a script's replies
//! (`script_lines::text::LineReply`), and so are the lines of `show` and `state`.

ghost use Rattle.std.specs.Prelude.{Some, option_map};
ghost use Rattle.server_lines.specs.Reply.{answer_word, begun_text, completions_text, due_text, error_text, frame_digits_text, frame_text, frames_text, input_text, invocation_text, next_text, not_understood_text, open_request_text, output_text, frame_refusal_text, status_word, words_text};

use crate::word::Word;
use bytes::ByteStr;
use script_lines::text::Hex;
use std::fmt;

/// An attempt was begun: its number, the content type that it is to speak, and its start frame.
#[derive(Clone, Copy)]
pub struct BegunReply<'a> {
    pub attempt: u32,
    pub content_type: &'a str,
    pub start: &'a [u8],
}

impl fmt::Display for BegunReply<'_> {
    ghost output = { λ reply. Some (begun_text reply) };

    fn fmt<W: fmt::Write>(&self, f: &mut fmt::Formatter<W>) -> fmt::Result {
        let attempt = self.attempt;
        let content_type = self.content_type;
        let start = Hex(self.start);
        write!(f, "attempt {attempt} {content_type} {start}")
    }
}

/// Bytes of an attempt's input; none where none remain now.
#[derive(Clone, Copy)]
pub struct InputReply<'a>(pub &'a [u8]);

impl fmt::Display for InputReply<'_> {
    ghost output = { λ reply. Some (input_text reply) };

    fn fmt<W: fmt::Write>(&self, f: &mut fmt::Formatter<W>) -> fmt::Result {
        let bytes = Hex(self.0);
        write!(f, "input {bytes}")
    }
}

/// What a frame of the output came to.
#[derive(Clone, Copy)]
pub enum TakenFrame {
    /// It is recorded at this place.
    Recorded(u32),
    /// Nothing is recorded of it.
    Noted,
    /// The attempt is over until what it waits for has come.
    Suspended,
    /// The attempt has failed.
    Failed,
    /// The invocation is over.
    Ended,
}

impl fmt::Display for TakenFrame {
    ghost output = { λ frame. Some (frame_text frame) };

    fn fmt<W: fmt::Write>(&self, f: &mut fmt::Formatter<W>) -> fmt::Result {
        match self {
            TakenFrame::Recorded(place) => write!(f, "{place}"),
            TakenFrame::Noted => write!(f, "noted"),
            TakenFrame::Suspended => write!(f, "suspended"),
            TakenFrame::Failed => write!(f, "failed"),
            TakenFrame::Ended => write!(f, "ended"),
        }
    }
}

/// Frames, each behind a space.
#[derive(Clone, Copy)]
struct FrameWords<'a>(&'a [TakenFrame]);

impl fmt::Display for FrameWords<'_> {
    ghost output = { λ frames. Some (frames_text frames.0.now) };

    fn fmt<W: fmt::Write>(&self, f: &mut fmt::Formatter<W>) -> fmt::Result {
        for frame in self.0 {
            write!(f, " {frame}")?;
        }
        Ok(())
    }
}

/// Why no further frame was taken, by its printed name, as `S9`; nothing where none is refused.
#[derive(Clone, Copy)]
struct FrameRefusal(Option<&'static str>);

impl fmt::Display for FrameRefusal {
    ghost output = { λ refusal. Some (frame_refusal_text (option_map (λ name. name.now) refusal.0)) };

    fn fmt<W: fmt::Write>(&self, f: &mut fmt::Formatter<W>) -> fmt::Result {
        match self.0 {
            Some(name) => write!(f, " refused {name}"),
            None => Ok(()),
        }
    }
}

/// The frames of the output that were taken, and why no further one was.
#[derive(Clone, Copy)]
pub struct OutputReply<'a> {
    pub frames: &'a [TakenFrame],
    pub refusal: Option<&'static str>,
}

impl fmt::Display for OutputReply<'_> {
    ghost output = { λ reply. Some (output_text reply) };

    fn fmt<W: fmt::Write>(&self, f: &mut fmt::Formatter<W>) -> fmt::Result {
        let frames = FrameWords(self.frames);
        let refusal = FrameRefusal(self.refusal);
        write!(f, "took{frames}{refusal}")
    }
}

/// Texts, each behind a space.
#[derive(Clone, Copy)]
pub struct FurtherWords<'a>(pub &'a [ByteStr]);

impl fmt::Display for FurtherWords<'_> {
    ghost output = { λ words. Some (words_text words.0.now) };

    fn fmt<W: fmt::Write>(&self, f: &mut fmt::Formatter<W>) -> fmt::Result {
        for text in self.0 {
            let word = Word(text.as_bytes());
            write!(f, " {word}")?;
        }
        Ok(())
    }
}

/// The ids of the invocations that are due.
#[derive(Clone, Copy)]
pub struct DueReply<'a>(pub &'a [ByteStr]);

impl fmt::Display for DueReply<'_> {
    ghost output = { λ reply. Some (due_text reply) };

    fn fmt<W: fmt::Write>(&self, f: &mut fmt::Formatter<W>) -> fmt::Result {
        let ids = FurtherWords(self.0);
        write!(f, "due{ids}")
    }
}

/// The moment, in milliseconds, at which the next sleep ends, if there is one.
#[derive(Clone, Copy)]
pub struct NextReply(pub Option<u64>);

impl fmt::Display for NextReply {
    ghost output = { λ reply. Some (next_text reply) };

    fn fmt<W: fmt::Write>(&self, f: &mut fmt::Formatter<W>) -> fmt::Result {
        match self.0 {
            Some(moment) => write!(f, "next {moment}"),
            None => write!(f, "next none"),
        }
    }
}

/// A number, or `none`.
#[derive(Clone, Copy)]
struct NumberWord(Option<u64>);

impl fmt::Display for NumberWord {
    ghost use Rattle.server_lines.specs.Reply.{number_text};

    ghost output = { λ number. Some (number_text number.0) };

    fn fmt<W: fmt::Write>(&self, f: &mut fmt::Formatter<W>) -> fmt::Result {
        match self.0 {
            Some(number) => write!(f, "{number}"),
            None => write!(f, "none"),
        }
    }
}

/// The last error that an attempt told.
#[derive(Clone, Copy)]
pub enum ErrorReply<'a> {
    Missing,
    Told {
        code: u32,
        /// The number of what is to be done, as it came.
        behavior: u32,
        /// Milliseconds.
        delay: Option<u64>,
        message: &'a [u8],
    },
}

impl fmt::Display for ErrorReply<'_> {
    ghost output = { λ reply. Some (error_text reply) };

    fn fmt<W: fmt::Write>(&self, f: &mut fmt::Formatter<W>) -> fmt::Result {
        match self {
            ErrorReply::Missing => write!(f, "error none"),
            ErrorReply::Told {
                code,
                behavior,
                delay,
                message,
            } => {
                let delay = NumberWord(*delay);
                let message = Word(message);
                write!(f, "error {code} {behavior} {delay} {message}")
            }
        }
    }
}

/// How an invocation stands.
#[derive(Clone, Copy)]
pub enum InvocationStatus {
    /// It is open, and an attempt of it is live.
    Live,
    /// It is open, and an attempt that is begun now may go on.
    Due,
    /// It is open, and waits for what has not come.
    Suspended,
    Ended,
    Failed,
}

impl fmt::Display for InvocationStatus {
    ghost output = { λ status. Some (status_word status) };

    fn fmt<W: fmt::Write>(&self, f: &mut fmt::Formatter<W>) -> fmt::Result {
        match self {
            InvocationStatus::Live => write!(f, "live"),
            InvocationStatus::Due => write!(f, "due"),
            InvocationStatus::Suspended => write!(f, "suspended"),
            InvocationStatus::Ended => write!(f, "ended"),
            InvocationStatus::Failed => write!(f, "failed"),
        }
    }
}

/// What an invocation answers, by its kind.
#[derive(Clone, Copy)]
pub enum AnswerKind {
    /// It is open, or has ended with no output.
    Missing,
    Value,
    Failure,
}

impl fmt::Display for AnswerKind {
    ghost output = { λ kind. Some (answer_word kind) };

    fn fmt<W: fmt::Write>(&self, f: &mut fmt::Formatter<W>) -> fmt::Result {
        match self {
            AnswerKind::Missing => write!(f, "none"),
            AnswerKind::Value => write!(f, "value"),
            AnswerKind::Failure => write!(f, "failure"),
        }
    }
}

/// An invocation, as it is known without its journal.
#[derive(Clone, Copy)]
pub struct InvocationReply<'a> {
    pub id: &'a [u8],
    pub object: &'a [u8],
    pub status: InvocationStatus,
    /// How many attempts were begun.
    pub attempts: u32,
    /// How many entries are recorded.
    pub entries: u32,
    pub answer: AnswerKind,
}

impl fmt::Display for InvocationReply<'_> {
    ghost output = { λ reply. Some (invocation_text reply) };

    fn fmt<W: fmt::Write>(&self, f: &mut fmt::Formatter<W>) -> fmt::Result {
        let id = Word(self.id);
        let object = Word(self.object);
        let status = self.status;
        let attempts = self.attempts;
        let entries = self.entries;
        let answer = self.answer;
        write!(
            f,
            "invocation {id} {object} {status} {attempts} {entries} {answer}"
        )
    }
}

/// A frame's type, as four hexadecimal digits, and its payload.
#[derive(Clone, Copy)]
struct FrameDigits<'a> {
    ty: u16,
    payload: &'a [u8],
}

#[tactic(auto, unfolding(crate::specs::Reply::frame_digits_text))]
impl fmt::Display for FrameDigits<'_> {
    ghost output = { λ frame. Some (frame_digits_text frame.ty frame.payload.now) };

    fn fmt<W: fmt::Write>(&self, f: &mut fmt::Formatter<W>) -> fmt::Result {
        let ty = self.ty.to_be_bytes();
        let ty = Hex(&ty);
        let payload = Hex(self.payload);
        write!(f, "{ty} {payload}")
    }
}

/// The number of a completion, or `none`.
#[derive(Clone, Copy)]
struct CompletionWord(Option<u32>);

impl fmt::Display for CompletionWord {
    ghost use Rattle.server_lines.specs.Reply.{number_text};

    ghost output = { λ number. Some (number_text number.0) };

    fn fmt<W: fmt::Write>(&self, f: &mut fmt::Formatter<W>) -> fmt::Result {
        match self.0 {
            Some(number) => write!(f, "{number}"),
            None => write!(f, "none"),
        }
    }
}

/// The completions that a request asks for, each unless it has come.
#[derive(Clone, Copy)]
struct OpenCompletions(Option<u32>, Option<u32>);

#[tactic(auto, unfolding(crate::specs::Reply::completions_text))]
impl fmt::Display for OpenCompletions {
    ghost output = { λ completions. Some (completions_text completions.0 completions.1) };

    fn fmt<W: fmt::Write>(&self, f: &mut fmt::Formatter<W>) -> fmt::Result {
        let first = CompletionWord(self.0);
        let second = CompletionWord(self.1);
        write!(f, "{first} {second}")
    }
}

/// What an open invocation has asked of others, of which a completion has not come.
#[derive(Clone, Copy)]
pub struct OpenRequestReply<'a> {
    pub id: &'a [u8],
    /// Where the request is recorded, counted from 1.
    pub place: u32,
    /// The number by which a result is brought; of a call's two the one that brings the id of what was called. None where it has come.
    pub completion: Option<u32>,
    /// The number that brings what a call came to. None where it has come, or is not asked for.
    pub second_completion: Option<u32>,
    /// The number of its frame's type.
    pub ty: u16,
    pub payload: &'a [u8],
}

impl fmt::Display for OpenRequestReply<'_> {
    ghost output = { λ reply. Some (open_request_text reply) };

    fn fmt<W: fmt::Write>(&self, f: &mut fmt::Formatter<W>) -> fmt::Result {
        let id = Word(self.id);
        let place = self.place;
        let completions = OpenCompletions(self.completion, self.second_completion);
        let frame = FrameDigits {
            ty: self.ty,
            payload: self.payload,
        };
        write!(f, "request {id} {place} {completions} {frame}")
    }
}

/// A line that spells no request.
#[derive(Clone, Copy)]
pub struct NotUnderstoodReply;

impl fmt::Display for NotUnderstoodReply {
    ghost output = { λ _. Some not_understood_text };

    fn fmt<W: fmt::Write>(&self, f: &mut fmt::Formatter<W>) -> fmt::Result {
        write!(f, "not understood")
    }
}
