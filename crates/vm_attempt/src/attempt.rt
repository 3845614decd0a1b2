// An attempt.
ghost use Rattle.std.specs.Prelude.{◌≡◌, ◌<◌, [], length, Some, None, IfOk, IfSome, OnOk};
ghost use Rattle.std.specs.Option.{option_copied};
ghost use Rattle.journal_model.specs.Run.{Handler as Function};
ghost use Rattle.vm_attempt.specs.RunNames.{is_handle, place_of, run_name};
ghost use Rattle.vm_start.specs.declared.phase.Phase.TheVariants.{Failed};
ghost use Rattle.vm_attempt.specs.Attempt.{IsBegun, has_stopped, Feeds, ClosesInput};
ghost use Rattle.vm_attempt.specs.Output.{output_of, Gathers, HasFront, Shows, LetsGo, TakesOutput};
ghost use Rattle.vm_attempt.specs.TurnOutcomes.{FinishesBy, TakesAnswer, RunsBody, TakesOutcome, CarriesCall, ReadsInput, ReadsOrAsks, Turns, StepIs, StaysAsked, IsAtOnce, AsksAs, AsksBy, AsksWhere, IsNextCall, EndsNone, RanNone};

use crate::header::ContentType;
use crate::output::{advance, first, join};
use crate::run_outcome::{RunOutcome, by_policy};
use crate::turn::{Finish, Step, Turn, ran_or_failed, turn_again};
use crate::typed::{call_is_typed, outcome_is_typed};
use bytes::{ByteStr, Bytes};
use journal_model::{Answer, Call, Handler, Input, NotificationHandle};
use protocol_errors::Error;
use protocol_types::Version;
use sequence::Sequence;
use std::alloc::{AllocError, Global};
use std::mem::replace;
use vm_core::{CallOutcome, CoreVM, VM, carry_out};
use vm_types::VMOptions;

/// A handler at work on an invocation: its machine, what it was answered, and what is to go out.
#[derive(Drop)]
pub struct Attempt<H> {
    alloc: Global,
    handler: H,
    vm: CoreVM,
    /// What the handler is given, once it was read.
    input: Option<Input>,
    /// What the handler was answered so far.
    answers: Sequence<Answer>,
    /// How the attempt is over, if not by an error of its machine.
    over: Option<Finish>,
    /// What was taken from the machine and was not handed out, in two pieces.
    front: Bytes,
    behind: Bytes,
}

// Whether an answer is this handle, and nothing else.
fn is_handle(answer: &Answer, handle: NotificationHandle) -> bool
    ensures { result ≡ is_handle handle answer.now }
{
    match answer {
        Answer::Handle(given) => *given == handle,
        _ => false,
    }
}

// The place of the first answer that is this handle.
fn place_of(handle: NotificationHandle, answers: &[Answer]) -> Option<usize>
    ensures place { result ≡ place_of handle answers.now }
    ensures within { IfSome result (λ place. place < length answers.now) }
{
    answers.iter().position(|answer| is_handle(answer, handle))
}

impl<H: Handler> Attempt<H> {
    /// An attempt that speaks this version, to which nothing has come yet.
    ///
    /// Where memory is refused, or the version is none that is spoken, there is none.
    pub fn new(
        alloc: Global,
        version: Version,
        options: VMOptions,
        handler: H,
    ) -> Result<Attempt<H>, Error>
    where
        H: Drop,
        ensures { IsBegun version options handler result }
    {
        match CoreVM::new(alloc, &ContentType(version), options) {
            Ok(vm) => Ok(Attempt {
                alloc,
                handler,
                vm,
                input: None,
                answers: Sequence::new(alloc),
                over: None,
                front: Bytes::new(),
                behind: Bytes::new(),
            }),
            Err(error) => {
                drop(handler);
                Err(error)
            }
        }
    }

    /// Bytes of its input come, in any cut. An attempt that is over takes none in.
    pub fn feed(&mut self, bytes: Bytes)
        ensures { Feeds bytes self.old self.new }
    {
        match self.over {
            Some(_) => drop(bytes),
            None => self.vm.notify_input(bytes),
        }
    }

    /// No more of its input comes.
    pub fn close_input(&mut self)
        ensures { ClosesInput self.old self.new }
    {
        match self.over {
            Some(_) => (),
            None => self.vm.notify_input_closed(),
        }
    }

    /// Whether its machine has failed, or was closed: no call is made of it any more.
    ///
    /// A machine that was refused memory for what has come has failed.
    pub fn has_stopped(&self) -> bool
        ensures { result ≡ has_stopped self.now.vm.state.phase }
    {
        match self.vm.is_ready_to_execute() {
            Ok(_) => false,
            Err(error) => {
                drop(error);
                true
            }
        }
    }

    // The attempt is over.
    fn finish(&mut self, finish: Finish) -> Turn
        ensures { FinishesBy finish self.old result self.new }
    {
        self.over = Some(finish);
        turn_again(finish)
    }

    // The handler is to be told an answer.
    fn take_answer(&mut self, answer: Answer) -> Turn
        ensures { TakesAnswer answer self.old result self.new }
    {
        match self.answers.push(answer) {
            Ok(()) => Turn::Answered,
            Err(_) => self.finish(Finish::OutOfMemory),
        }
    }

    // A call has come to this. The body that it asks for is not executed yet.
    fn come_to(&mut self, outcome: CallOutcome) -> Step
        ensures step { StepIs (λ ran turn after. TakesOutcome ran outcome self.old turn after) result self.new }
        ensures stays { StaysAsked result self.old self.new }
        ensures asks { AsksAs outcome result self.old self.new }
        ensures none { EndsNone result }
    {
        match outcome {
            CallOutcome::Answered(answer) => Step::Turned(self.take_answer(answer)),
            CallOutcome::Waiting => Step::Turned(Turn::Waiting),
            CallOutcome::Executes(handle) => Step::Asks(handle),
            CallOutcome::Suspended => Step::Turned(self.finish(Finish::Suspended)),
            CallOutcome::Ended => Step::Turned(self.finish(Finish::Ended)),
            CallOutcome::Failed(error) => Step::Turned(Turn::Failed(error)),
        }
    }

    // A call is carried out.
    fn carry(&mut self, call: Call) -> Step
        ensures step { StepIs (λ ran turn after. CarriesCall ran call self.old turn after) result self.new }
        ensures stays { StaysAsked result self.old self.new }
        ensures asks { AsksBy call result self.old self.new }
        ensures none { EndsNone result }
    {
        call_is_typed(&call);
        let outcome = carry_out(&mut self.vm, call);
        self.come_to(outcome)
    }

    // The input is read.
    fn read_input(&mut self) -> Turn
        ensures { ReadsInput self.old result self.new }
    {
        match self.vm.sys_input() {
            Ok(input) => {
                drop(self.input.replace(input));
                Turn::Answered
            }
            Err(error) => Turn::Failed(error),
        }
    }

    // What a turn comes to in which nothing is asked of the machine: the attempt is over, or has failed, or more has to come.
    fn turn_at_once(&self) -> Option<Turn>
        ensures at_once { IsAtOnce result self.now }
        ensures none { IfSome result RanNone }
    {
        if let Some(finish) = self.over {
            return Some(turn_again(finish));
        }
        match self.vm.is_ready_to_execute() {
            Ok(true) => None,
            Ok(false) => Some(Turn::Waiting),
            Err(error) => Some(Turn::Failed(error)),
        }
    }

    // The handler is asked for its next call, once the input was read.
    fn go_on(&mut self) -> Step
        ensures step { StepIs (λ ran turn after. ReadsOrAsks H.next_call ran self.old.input self.old turn after) result self.new }
        ensures stays { StaysAsked result self.old self.new }
        ensures asks { AsksWhere H.next_call result self.old self.new }
        ensures none { EndsNone result }
    {
        let next = match &self.input {
            None => return Step::Turned(self.read_input()),
            Some(input) => self.handler.next(input, self.answers.as_slice()),
        };
        match next {
            Ok(call) => self.carry(call),
            Err(_) => Step::Turned(self.finish(Finish::OutOfMemory)),
        }
    }

    /// One turn, as far as it goes without the body of a run: it reads the input once it has come with the journal, or asks the handler
    /// and carries its call out. Where that is an await for which the body of a run is to be executed, the turn is not over: `end_body`
    /// ends it, and until then nothing else is done with the attempt.
    ///
    /// An attempt that is over answers the same again. What it has failed with is copied for each answer; where memory is refused for
    /// the copy, the answer says so.
    pub fn turn_or_ask(&mut self) -> Step
        ensures step { StepIs (λ ran turn after. Turns H.next_call ran self.old turn after) result self.new }
        ensures stays { StaysAsked result self.old self.new }
        ensures asks { AsksWhere H.next_call result self.old self.new }
        ensures none { EndsNone result }
    {
        match self.turn_at_once() {
            Some(turn) => Step::Turned(turn),
            None => self.go_on(),
        }
    }

    // A call that comes from outside is carried out, once the input was read.
    fn relay_on(&mut self, call: Call) -> Step
        ensures step { (function : H → Function) → IsNextCall function call self.old → StepIs (λ ran turn after. ReadsOrAsks function ran self.old.input self.old turn after) result self.new }
        ensures stays { StaysAsked result self.old self.new }
        ensures asks { (function : H → Function) → IsNextCall function call self.old → AsksWhere function result self.old self.new }
        ensures none { EndsNone result }
    {
        match self.input {
            None => {
                drop(call);
                Step::Turned(self.read_input())
            }
            Some(_) => self.carry(call),
        }
    }

    /// The same with this call, which comes from outside: the handler is not asked. So it is what `turn_or_ask` does with every handler that
    /// makes this call next. Where no call is made, as while the input was not read, it is let go of.
    pub fn relay(&mut self, call: Call) -> Step
        ensures step { (function : H → Function) → IsNextCall function call self.old → StepIs (λ ran turn after. Turns function ran self.old turn after) result self.new }
        ensures stays { StaysAsked result self.old self.new }
        ensures asks { (function : H → Function) → IsNextCall function call self.old → AsksWhere function result self.old self.new }
        ensures none { EndsNone result }
    {
        match self.turn_at_once() {
            Some(turn) => {
                drop(call);
                Step::Turned(turn)
            }
            None => self.relay_on(call),
        }
    }

    /// The turn ends that has asked for the body of this run: the body has ended so, which is proposed. What becomes of an invocation
    /// whose body has failed its policy alone says, whatever its error asks for.
    pub fn end_body(&mut self, handle: NotificationHandle, ran: RunOutcome) -> Turn
        ensures { RunsBody ran handle self.old result self.new }
    {
        let ran = by_policy(ran);
        outcome_is_typed(&ran);
        let proposed = self
            .vm
            .propose_run_completion(handle, ran.result, ran.policy);
        ran_or_failed(proposed)
    }

    /// One turn: reads the input once it has come with the journal, or asks the handler and carries its call out.
    ///
    /// Where that is an await for which the body of a run is to be executed, the body has ended with the outcome that is given, and this is
    /// proposed. In any other turn the outcome is let go of.
    pub fn turn(&mut self, outcome: RunOutcome) -> Turn
        ensures { Turns H.next_call outcome self.old result self.new }
    {
        match self.turn_or_ask() {
            Step::Turned(turn) => {
                drop(outcome);
                turn
            }
            Step::Asks(handle) => self.end_body(handle, outcome),
        }
    }

    /// What the handler was given, once it was read.
    pub fn input(&self) -> Option<&Input>
        ensures { option_copied result ≡ self.now.input }
    {
        self.input.as_ref()
    }

    /// What the handler was answered so far, the first answer first.
    pub fn answers(&self) -> &[Answer]
        ensures { result.now ≡ self.now.answers }
    {
        self.answers.as_slice()
    }

    /// The name by which the handler has asked for the run of this handle: that of its call which this handle has answered. The handler is
    /// asked for that call again, so nothing is kept of it.
    pub fn name_of_run(&self, handle: NotificationHandle) -> Result<ByteStr, AllocError>
        ensures { IfOk result (λ name. name ≡ run_name H.next_call handle self.now) }
    {
        let Some(input) = &self.input else {
            return Ok(ByteStr::new());
        };
        let answers = self.answers.as_slice();
        let Some(place) = place_of(handle, answers) else {
            return Ok(ByteStr::new());
        };
        match self.handler.next(input, &answers[..place])? {
            Call::Run { name } => Ok(name),
            other => {
                drop(other);
                Ok(ByteStr::new())
            }
        }
    }

    // Has the front piece be all that waits and all that the machine has written, unless it has so many bytes already.
    fn gather(&mut self, count: usize) -> Result<(), AllocError>
        ensures same { Gathers self.old self.new }
        ensures front { OnOk result (HasFront count self.new) }
    {
        if count <= self.front.len() {
            return Ok(());
        }
        join(self.alloc, &mut self.front, &mut self.behind)?;
        let written = self.vm.take_output()?;
        drop(replace(&mut self.behind, written));
        join(self.alloc, &mut self.front, &mut self.behind)
    }

    /// The first bytes that were written and were not handed out, so many at most. They stay, also where memory is refused.
    ///
    /// They are shared with the piece that has them: pieces are joined only where the first is shorter, so each byte is copied twice at
    /// most, however few are asked for at a time.
    pub fn first_output(&mut self, max: usize) -> Result<Bytes, AllocError>
        ensures { Shows max self.old result self.new }
    {
        self.gather(max)?;
        first(&self.front, max)
    }

    /// Lets the first bytes go, which `first_output` has shown.
    pub fn advance_output(&mut self, count: usize)
        ensures { LetsGo count self.old self.new }
    {
        advance(&mut self.front, &mut self.behind, count);
    }

    /// How it is over, where no byte waits any more: all that it does from then on is to answer that in each turn.
    ///
    /// It is not told of an attempt whose machine has failed, nor where there is no memory for looking.
    pub fn finished(&mut self) -> Option<Finish>
        ensures same { Gathers self.old self.new }
        ensures over { IfSome result (λ finish. (self.new.over ≡ Some finish) × (output_of self.new ≡ [])) }
    {
        let finish = self.over?;
        match self.gather(1) {
            Ok(()) if self.front.is_empty() => Some(finish),
            _ => None,
        }
    }

    // A copy of what its machine has failed with, if it has, and there is memory for one.
    fn failure(&self) -> Option<Error>
        ensures { IfSome result (λ error. self.now.vm.state.phase ≡ Failed error) }
    {
        match self.vm.failure()?.clone() {
            Ok(error) => Some(error),
            Err(_) => None,
        }
    }

    /// What its machine has failed with, where no byte waits any more: all that it does from then on is to answer that in each turn.
    ///
    /// It is not told of an attempt that is over by another cause, nor where there is no memory for looking or for a copy.
    pub fn failed(&mut self) -> Option<Error>
        ensures same { Gathers self.old self.new }
        ensures failed { IfSome result (λ error. (self.new.over ≡ None) × (self.new.vm.state.phase ≡ Failed error) × (output_of self.new ≡ [])) }
    {
        if self.over.is_some() {
            return None;
        }
        match self.gather(1) {
            Ok(()) if self.front.is_empty() => self.failure(),
            _ => None,
        }
    }

    /// Hands out the first bytes, so many at most. Where memory is refused they all stay.
    pub fn take_output(&mut self, max: usize) -> Result<Bytes, AllocError>
        ensures { TakesOutput max self.old result self.new }
    {
        let bytes = self.first_output(max)?;
        self.advance_output(bytes.len());
        Ok(bytes)
    }
}
