//! What a client is answered, each without its line feed. `refused` and `ok` are a script's replies, and what requests are answered is
//! in `server_lines`.

ghost use Rattle.std.specs.Prelude.{Some};
ghost use Rattle.call_lines.specs.Reply.{answer_text, call_reply_text, handles_text, headers_text, pairs_text, value_text, yes_text};

use bytes::ByteStr;
use journal_model::{Answer, Header, Input, NotificationHandle, Value};
use server_lines::reply::FurtherWords;
use server_lines::word::Word;
use std::fmt;

/// Headers, each of their words behind a space.
#[derive(Clone, Copy)]
struct FurtherHeaders<'a>(&'a [Header]);

impl fmt::Display for FurtherHeaders<'_> {
    ghost output = { λ headers. Some (headers_text headers.0.now) };

    fn fmt<W: fmt::Write>(&self, f: &mut fmt::Formatter<W>) -> fmt::Result {
        for header in self.0 {
            let key = Word(header.key.as_bytes());
            let value = Word(header.value.as_bytes());
            write!(f, " {key} {value}")?;
        }
        Ok(())
    }
}

/// Pairs, each of their words behind a space.
#[derive(Clone, Copy)]
struct FurtherPairs<'a>(&'a [(ByteStr, ByteStr)]);

impl fmt::Display for FurtherPairs<'_> {
    ghost output = { λ pairs. Some (pairs_text pairs.0.now) };

    fn fmt<W: fmt::Write>(&self, f: &mut fmt::Formatter<W>) -> fmt::Result {
        for pair in self.0 {
            let key = Word(pair.0.as_bytes());
            let value = Word(pair.1.as_bytes());
            write!(f, " {key} {value}")?;
        }
        Ok(())
    }
}

/// Handles, each behind a space.
#[derive(Clone, Copy)]
struct FurtherHandles<'a>(&'a [NotificationHandle]);

impl fmt::Display for FurtherHandles<'_> {
    ghost output = { λ handles. Some (handles_text handles.0.now) };

    fn fmt<W: fmt::Write>(&self, f: &mut fmt::Formatter<W>) -> fmt::Result {
        for handle in self.0 {
            let number = handle.number();
            write!(f, " {number}")?;
        }
        Ok(())
    }
}

/// What was taken of a notification.
#[derive(Clone, Copy)]
struct TakenValue<'a>(&'a Value);

impl fmt::Display for TakenValue<'_> {
    ghost output = { λ taken. Some (value_text taken.0.now) };

    fn fmt<W: fmt::Write>(&self, f: &mut fmt::Formatter<W>) -> fmt::Result {
        match self.0 {
            Value::Void => write!(f, "void"),
            Value::Success(bytes) => {
                let bytes = Word(bytes.as_slice());
                write!(f, "value {bytes}")
            }
            Value::Failure(failure) => {
                let code = failure.code;
                let message = Word(failure.message.as_bytes());
                let pairs = FurtherPairs(failure.metadata.as_slice());
                write!(f, "failure {code} {message}{pairs}")
            }
            Value::StateKeys(keys) => {
                let keys = FurtherWords(keys.as_slice());
                write!(f, "keys{keys}")
            }
            Value::InvocationId(id) => {
                let id = Word(id.as_bytes());
                write!(f, "id {id}")
            }
        }
    }
}

#[derive(Clone, Copy)]
struct Yes(bool);

impl fmt::Display for Yes {
    ghost output = { λ yes. Some (yes_text yes.0) };

    fn fmt<W: fmt::Write>(&self, f: &mut fmt::Formatter<W>) -> fmt::Result {
        if self.0 {
            write!(f, "yes")
        } else {
            write!(f, "no")
        }
    }
}

/// What a call is answered.
#[derive(Clone, Copy)]
pub struct AnswerReply<'a>(pub &'a Answer);

impl fmt::Display for AnswerReply<'_> {
    ghost output = { λ reply. Some (answer_text reply.0.now) };

    fn fmt<W: fmt::Write>(&self, f: &mut fmt::Formatter<W>) -> fmt::Result {
        match self.0 {
            Answer::Handle(handle) => {
                let number = handle.number();
                write!(f, "handle {number}")
            }
            Answer::Handles {
                invocation_id_handle,
                result_handle,
            } => {
                let first = invocation_id_handle.number();
                let second = result_handle.number();
                write!(f, "handles {first} {second}")
            }
            Answer::Awakeable { id, handle } => {
                let id = Word(id.as_bytes());
                let number = handle.number();
                write!(f, "awakeable {id} {number}")
            }
            Answer::Done => write!(f, "done"),
            Answer::Completed(is_completed) => {
                let yes = Yes(*is_completed);
                write!(f, "completed {yes}")
            }
            Answer::Taken(Some(value)) => {
                let value = TakenValue(value);
                write!(f, "taken {value}")
            }
            Answer::Taken(None) => write!(f, "taken none"),
            Answer::Woken => write!(f, "woken"),
            Answer::Cancelled => write!(f, "cancelled"),
        }
    }
}

/// An attempt was begun, and has read its input.
#[derive(Clone, Copy)]
pub struct AttemptReply<'a> {
    pub attempt: u32,
    pub input: &'a Input,
}

impl fmt::Display for AttemptReply<'_> {
    ghost use Rattle.call_lines.specs.Reply.{attempt_text};

    ghost output = { λ reply. Some (attempt_text reply.attempt reply.input.now) };

    fn fmt<W: fmt::Write>(&self, f: &mut fmt::Formatter<W>) -> fmt::Result {
        let attempt = self.attempt;
        let key = Word(self.input.key.as_bytes());
        let seed = self.input.random_seed;
        let input = Word(self.input.input.as_slice());
        let headers = FurtherHeaders(self.input.headers.as_slice());
        write!(f, "attempt {attempt} {key} {seed} {input}{headers}")
    }
}

/// What else a line of an attempt is answered.
#[derive(Clone, Copy)]
pub enum CallReply<'a> {
    /// The bodies of these runs are to be executed, and the ends of them told, in any order. The await goes on with each.
    Executes(&'a [NotificationHandle]),
    /// The await goes on with the end of a body that is executed.
    Executing,
    /// Nothing more can come now.
    Waiting,
    /// The attempt is over until what it waits for has come.
    Suspended,
    /// The invocation is over.
    Ended,
    /// The attempt is over, with this error.
    Failed { code: u16, message: &'a [u8] },
    /// The attempt stands elsewhere, and nothing has changed.
    NotNow,
}

impl fmt::Display for CallReply<'_> {
    ghost output = { λ reply. Some (call_reply_text reply) };

    fn fmt<W: fmt::Write>(&self, f: &mut fmt::Formatter<W>) -> fmt::Result {
        match self {
            CallReply::Executes(handles) => {
                let handles = FurtherHandles(handles);
                write!(f, "execute{handles}")
            }
            CallReply::Executing => write!(f, "executing"),
            CallReply::Waiting => write!(f, "waiting"),
            CallReply::Suspended => write!(f, "suspended"),
            CallReply::Ended => write!(f, "ended"),
            CallReply::Failed { code, message } => {
                let message = Word(message);
                write!(f, "failed {code} {message}")
            }
            CallReply::NotNow => write!(f, "not now"),
        }
    }
}
