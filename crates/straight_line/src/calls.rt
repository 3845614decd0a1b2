//! What a handler calls with, and the answer of its next call.
ghost use Rattle.std.specs.Prelude.{◌≡◌, ◌∷◌, [], MatchOption};
ghost use Rattle.straight_line.specs.Steps as steps;
ghost use Rattle.straight_line.specs.Calls as told;

use crate::stop::{Stop, Told};
use journal_model::{Answer, Call, NonEmptyValue, PayloadOptions};
use std::alloc::Global;
use std::marker::Model;

/// What a handler calls with. A contract sees the answers that are left.
#[derive(Drop)]
pub struct Calls<'a> {
    alloc: Global,
    answers: &'a [Answer],
}

impl<'a> Model for Calls<'a> {
    ghost use Rattle.std.specs.Prelude.{List};
    ghost use Rattle.journal_model.specs.declared.call.Answer.{Answer};

    ghost Value = { List Answer };

    ghost view = { λ calls. calls.answers.now };
}

impl<'a> Calls<'a> {
    pub fn new(alloc: Global, answers: &'a [Answer]) -> Calls<'a>
        ensures { result ≡ answers.now }
    {
        Calls { alloc, answers }
    }

    /// The allocator, for the values of a handler.
    pub fn alloc(&self) -> Global {
        self.alloc
    }

    /// Whether the next call has no answer yet.
    pub fn is_at_end(&self) -> bool
        ensures { result ≡ steps.is_at_end self.now }
    {
        self.answers.is_empty()
    }

    /// The answer of the next call, if it has one.
    pub(crate) fn next_answer(&mut self) -> Option<&'a Answer>
        ensures { MatchOption result ((self.old ≡ []) × (self.new ≡ [])) (λ answer. self.old ≡ answer.now ∷ self.new) }
    {
        match self.answers.split_first() {
            Some((answer, rest)) => {
                self.answers = rest;
                Some(answer)
            }
            None => None,
        }
    }

    /// Puts out a result of the invocation, as the end of a handler does. The last one counts.
    #[tactic(auto, unfolding(crate::specs::Calls::output))]
    pub fn output(&mut self, value: NonEmptyValue, options: PayloadOptions) -> Told<()>
        ensures { steps.Makes (told.output value options) self.old result self.new }
    {
        match self.next_answer() {
            Some(_) => Ok(()),
            None => Err(Stop::Call(Call::Output { value, options })),
        }
    }
}
