// An attempt that is held, and what is kept of it once it is over.
ghost use Rattle.std.specs.Prelude.{◌≡◌, ◌≤◌, length, IfErr, IfOk, IfSome};
ghost use Rattle.vm_attempt.specs.Attempt.{ClosesInput, Feeds};
ghost use Rattle.vm_attempt.specs.Output.{taken_of, Advances, Gathers, Shows};
ghost use Rattle.vm_attempt.specs.TurnOutcomes.{Turns};
ghost use Rattle.schedule_model.specs.Executing.{TurnsWith};
ghost use Rattle.schedule_model.specs.AttemptMemory.{attempt_kept, FailsAgain, IsKept};

use crate::effects::{Effects, turn_with};
use bytes::{ByteStr, Bytes};
use journal_model::Handler;
use protocol_errors::Error;
use std::alloc::{AllocError, AllocFailed, Global};
use std::marker::Model;
use std::mem::replace;
use std::snapshot::Snapshot;
use vm_attempt::{Attempt, Finish, RunOutcome, Turn, turn_again};
use vm_start::or_out_of_memory;

/// What memory has of an attempt.
#[derive(Drop)]
enum Kept<H> {
    Whole(Box<Attempt<H>>),
    /// It is over so, and its bytes were taken. Of the rest clauses alone know.
    Over(Finish, Snapshot<Attempt<H>>),
    /// Its machine has failed with this, and its bytes were taken; and whether its input was closed since.
    Failed {
        error: Box<Error>,
        is_closed: bool,
        seen: Snapshot<Attempt<H>>,
    },
}

/// An attempt that is held. Once it is over and its bytes were taken, memory has its last answer and nothing else of it.
///
/// Contracts see the attempt, also behind that: as it was then, or closed since, of which no call tells more than that answer. So none
/// says what memory has let go of.
#[derive(Drop)]
pub struct KeptAttempt<H> {
    kept: Kept<H>,
}

impl<H> Model for KeptAttempt<H> {
    ghost use Rattle.vm_attempt.specs.AttemptCode.{attempt_code};
    ghost use Rattle.vm_attempt.specs.declared.attempt.Attempt.{Attempt};
    ghost use Rattle.schedule_model.specs.AttemptMemory.{attempt_kept, IsKept};

    ghost Value = { Attempt H };

    ghost coded = { attempt_code H.code };

    ghost view = { λ a. attempt_kept a.kept };

    ghost invariant = { λ a. IsKept a.kept };
}

// How it is over, or what it has failed with, is all that is kept of it, if it is over and no byte waits.
fn over_alone<H: Handler>(alloc: Global, attempt: &mut Attempt<H>) -> Option<Kept<H>>
    ensures same { Gathers attempt.old attempt.new }
    ensures kept { IfSome result (λ kept. (attempt_kept kept ≡ attempt.new) × IsKept kept) }
{
    if let Some(finish) = attempt.finished() {
        return Some(Kept::Over(finish, Snapshot::of(attempt)));
    }
    match Box::new(alloc, attempt.failed()?) {
        Ok(error) => Some(Kept::Failed {
            error,
            is_closed: false,
            seen: Snapshot::of(attempt),
        }),
        Err(refused) => {
            drop(refused);
            None
        }
    }
}

// What each turn comes to of one that has failed with this.
fn failed_again(error: &Error) -> Turn
    ensures { FailsAgain error.now result }
{
    Turn::Failed(or_out_of_memory(error.clone()))
}

impl<H: Handler> KeptAttempt<H> {
    /// A whole attempt. Where there is no memory for keeping it, it is given back.
    pub fn new(
        alloc: Global,
        attempt: Attempt<H>,
    ) -> Result<KeptAttempt<H>, AllocFailed<Attempt<H>>>
        ensures ok { IfOk result (λ kept. kept ≡ attempt) }
        ensures value { IfErr result (λ refused. refused.value ≡ attempt) }
    {
        match Box::new(alloc, attempt) {
            Ok(attempt) => Ok(KeptAttempt {
                kept: Kept::Whole(attempt),
            }),
            Err(refused) => Err(refused),
        }
    }

    /// Bytes of its input come. Of one that is over there is no memory for them, and it reads no further.
    pub fn feed(&mut self, bytes: Bytes)
        ensures { Feeds bytes self.old self.new }
    {
        match &mut self.kept {
            Kept::Whole(attempt) => attempt.feed(bytes),
            Kept::Over(..) | Kept::Failed { .. } => drop(bytes),
        }
    }

    /// No more of its input comes.
    pub fn close_input(&mut self)
        ensures { ClosesInput self.old self.new }
    {
        match &mut self.kept {
            Kept::Whole(attempt) => attempt.close_input(),
            Kept::Over(..) => (),
            Kept::Failed { is_closed, .. } => *is_closed = true,
        }
    }

    /// One turn.
    pub fn turn(&mut self, outcome: RunOutcome) -> Turn
        ensures { Turns H.next_call outcome self.old result self.new }
    {
        match &mut self.kept {
            Kept::Whole(attempt) => attempt.turn(outcome),
            Kept::Over(finish, _) => {
                drop(outcome);
                turn_again(*finish)
            }
            Kept::Failed { error, .. } => {
                drop(outcome);
                failed_again(error)
            }
        }
    }

    /// One turn, whose body is executed when it is asked for.
    pub fn turn_with<E: Effects>(&mut self, id: &ByteStr, effects: &mut E) -> Turn
        ensures { TurnsWith E.executes H.next_call id.now self.old effects.old result self.new effects.new }
    {
        match &mut self.kept {
            Kept::Whole(attempt) => turn_with(attempt, id, effects),
            Kept::Over(finish, _) => turn_again(*finish),
            Kept::Failed { error, .. } => failed_again(error),
        }
    }

    /// The first bytes that were written and were not handed out, so many at most. They stay, also where memory is refused.
    pub fn first_output(&mut self, max: usize) -> Result<Bytes, AllocError>
        ensures { Shows max self.old result self.new }
    {
        match &mut self.kept {
            Kept::Whole(attempt) => attempt.first_output(max),
            Kept::Over(..) | Kept::Failed { .. } => Ok(Bytes::new()),
        }
    }

    // Has memory let go of all but its last answer, if it is over and no byte waits.
    fn let_go(&mut self)
    where
        H: Drop,
        ensures { Gathers self.old self.new }
    {
        let Kept::Whole(attempt) = &mut self.kept else {
            return;
        };
        let alloc = *Box::allocator(attempt);
        let Some(over) = over_alone(alloc, attempt) else {
            return;
        };
        drop(replace(&mut self.kept, over));
    }

    /// Lets the first bytes go, which `first_output` has shown. If it is over, and no byte waits then, memory keeps its last answer alone.
    pub fn advance_output(&mut self, count: usize)
    where
        H: Drop,
        requires { count ≤ length (taken_of self.old) }
        ensures { Advances count self.old self.new }
    {
        match &mut self.kept {
            Kept::Whole(attempt) => attempt.advance_output(count),
            Kept::Over(..) | Kept::Failed { .. } => (),
        }
        self.let_go();
    }
}
