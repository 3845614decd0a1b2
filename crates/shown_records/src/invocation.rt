//! What is recorded of an invocation, as a line shows it.
ghost use Rattle.std.specs.Prelude.{◌≡◌, Some};
ghost use Rattle.script_lines.specs.Text.{answer_text};
ghost use Rattle.shown_records.specs.Invocation.{answer_line, shown_text};

use crate::entry::ShownEntry;
use journal_model::NonEmptyValue;
use script_lines::text::{ShownAnswer, ShownOpenness};
use std::fmt;

/// What is recorded of an invocation: everything that is asked for before a line is printed.
#[derive(Drop)]
pub struct ShownInvocation {
    pub entries: Vec<ShownEntry>,
    pub answer: Option<NonEmptyValue>,
    pub is_open: bool,
}

fn shown_answer(answer: &Option<NonEmptyValue>) -> ShownAnswer<'_>
    ensures { answer_text result ≡ answer_line answer.now }
{
    match answer {
        None => ShownAnswer::Missing,
        Some(NonEmptyValue::Success(bytes)) => ShownAnswer::Value(bytes.as_slice()),
        Some(NonEmptyValue::Failure(failure)) => ShownAnswer::Failure {
            code: failure.code,
            message: failure.message.as_bytes(),
        },
    }
}

impl fmt::Display for ShownInvocation {
    ghost output = { λ shown. Some (shown_text shown.entries.items shown.answer shown.is_open) };

    fn fmt<W: fmt::Write>(&self, f: &mut fmt::Formatter<W>) -> fmt::Result {
        for entry in &self.entries {
            write!(f, "{entry}")?;
        }
        let answer = shown_answer(&self.answer);
        let is_open = ShownOpenness(self.is_open);
        write!(f, "{answer}\n{is_open}\n")
    }
}
