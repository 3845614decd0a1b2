//! Built-in handlers, each a script of calls. `nap` of a script sleeps until 10 ms, `nap99` until 99.
use crate::script::{
    Place, ask_service, await_all_of_two, await_first_of_two, await_one, await_two_of_three,
    cancelled_output, choice_at, completed_at, default_options, output_at, output_ok, place_after,
    set_x, sleep_until, take_one,
};
use bytes::{ByteStr, Bytes};
use journal_model::call::{Answer, Call};
use journal_model::handler::{Handler, Input};
use std::alloc::{AllocError, Global};

/// Sleeps until a moment, awaits that, takes it, puts out `ok`, ends.
#[derive(Debug, Drop)]
pub struct Nap {
    pub alloc: Global,
    /// In milliseconds.
    pub until_ms: u64,
}

#[tactic(auto, using(crate::proofs::Scripts::past_script))]
impl Handler for Nap {
    ghost use Rattle.built_in_handlers.specs.Handlers.{nap_until};

    ghost next_call = { λ nap. nap_until nap.until_ms };

    fn next(&self, input: &Input, answers: &[Answer]) -> Result<Call, AllocError> {
        match place_after(answers) {
            Place::Cancelled => Ok(cancelled_output(self.alloc)),
            Place::Over => Ok(Call::End),
            Place::At(0) => Ok(sleep_until(self.until_ms, answers)),
            Place::At(1) => Ok(await_one(answers, 0)),
            Place::At(2) => Ok(take_one(answers, 0)),
            Place::At(3) => Ok(output_ok(answers)),
            Place::At(_) => Ok(Call::End),
        }
    }
}

/// Sleeps until 20 and until 10 ms, awaits the first of the two, puts out `1` if the first sleep is over, else `2`, ends.
#[derive(Debug, Drop)]
pub struct Race {
    pub alloc: Global,
}

#[tactic(auto, using(crate::proofs::Scripts::past_script))]
impl Handler for Race {
    ghost use Rattle.built_in_handlers.specs.Handlers.{race};

    ghost next_call = { λ handler. race };

    fn next(&self, input: &Input, answers: &[Answer]) -> Result<Call, AllocError> {
        match place_after(answers) {
            Place::Cancelled => Ok(cancelled_output(self.alloc)),
            Place::Over => Ok(Call::End),
            Place::At(0) => Ok(sleep_until(20, answers)),
            Place::At(1) => Ok(sleep_until(10, answers)),
            Place::At(2) => await_first_of_two(self.alloc, answers),
            Place::At(3) => Ok(completed_at(answers, 0)),
            Place::At(4) => Ok(choice_at(answers, 3)),
            Place::At(_) => Ok(Call::End),
        }
    }
}

/// Sleeps until 10 and until 20 ms, awaits both, puts out `ok`, ends.
#[derive(Debug, Drop)]
pub struct Both {
    pub alloc: Global,
}

#[tactic(auto, using(crate::proofs::Scripts::past_script))]
impl Handler for Both {
    ghost use Rattle.built_in_handlers.specs.Handlers.{both};

    ghost next_call = { λ handler. both };

    fn next(&self, input: &Input, answers: &[Answer]) -> Result<Call, AllocError> {
        match place_after(answers) {
            Place::Cancelled => Ok(cancelled_output(self.alloc)),
            Place::Over => Ok(Call::End),
            Place::At(0) => Ok(sleep_until(10, answers)),
            Place::At(1) => Ok(sleep_until(20, answers)),
            Place::At(2) => await_all_of_two(self.alloc, answers),
            Place::At(3) => Ok(output_ok(answers)),
            Place::At(_) => Ok(Call::End),
        }
    }
}

/// Calls handler `h` of the service `svc` with its input, awaits the result, takes it, puts it out, ends.
#[derive(Debug, Drop)]
pub struct Ask {
    pub alloc: Global,
}

#[tactic(auto, using(crate::proofs::Scripts::past_script))]
impl Handler for Ask {
    ghost use Rattle.built_in_handlers.specs.Handlers.{ask};

    ghost next_call = { λ handler. ask };

    fn next(&self, input: &Input, answers: &[Answer]) -> Result<Call, AllocError> {
        match place_after(answers) {
            Place::Cancelled => Ok(cancelled_output(self.alloc)),
            Place::Over => Ok(Call::End),
            Place::At(0) => ask_service(self.alloc, input, answers),
            Place::At(1) => Ok(await_one(answers, 0)),
            Place::At(2) => Ok(take_one(answers, 0)),
            Place::At(3) => output_at(self.alloc, answers, 2),
            Place::At(_) => Ok(Call::End),
        }
    }
}

/// Makes two such calls, awaits both results, puts out `ok`, ends.
#[derive(Debug, Drop)]
pub struct Pair {
    pub alloc: Global,
}

#[tactic(auto, using(crate::proofs::Scripts::past_script))]
impl Handler for Pair {
    ghost use Rattle.built_in_handlers.specs.Handlers.{pair};

    ghost next_call = { λ handler. pair };

    fn next(&self, input: &Input, answers: &[Answer]) -> Result<Call, AllocError> {
        match place_after(answers) {
            Place::Cancelled => Ok(cancelled_output(self.alloc)),
            Place::Over => Ok(Call::End),
            Place::At(0) => ask_service(self.alloc, input, answers),
            Place::At(1) => ask_service(self.alloc, input, answers),
            Place::At(2) => await_all_of_two(self.alloc, answers),
            Place::At(3) => Ok(output_ok(answers)),
            Place::At(_) => Ok(Call::End),
        }
    }
}

/// Sets `x` to `1` and then to `2`, puts out `ok`, ends.
#[derive(Debug, Drop)]
pub struct Twice {
    pub alloc: Global,
}

#[tactic(auto, using(crate::proofs::Scripts::past_script))]
impl Handler for Twice {
    ghost use Rattle.built_in_handlers.specs.Handlers.{twice};

    ghost next_call = { λ handler. twice };

    fn next(&self, input: &Input, answers: &[Answer]) -> Result<Call, AllocError> {
        match place_after(answers) {
            Place::Cancelled => Ok(cancelled_output(self.alloc)),
            Place::Over => Ok(Call::End),
            Place::At(0) => Ok(set_x(Bytes::from_static(b"1"), answers)),
            Place::At(1) => Ok(set_x(Bytes::from_static(b"2"), answers)),
            Place::At(2) => Ok(output_ok(answers)),
            Place::At(_) => Ok(Call::End),
        }
    }
}

/// Sets `x` to `1`, clears it, reads the keys, awaits them, takes them, puts them out, ends.
#[derive(Debug, Drop)]
pub struct Keys {
    pub alloc: Global,
}

#[tactic(auto, using(crate::proofs::Scripts::past_script))]
impl Handler for Keys {
    ghost use Rattle.built_in_handlers.specs.Handlers.{keys};

    ghost next_call = { λ handler. keys };

    fn next(&self, input: &Input, answers: &[Answer]) -> Result<Call, AllocError> {
        match place_after(answers) {
            Place::Cancelled => Ok(cancelled_output(self.alloc)),
            Place::Over => Ok(Call::End),
            Place::At(0) => Ok(set_x(Bytes::from_static(b"1"), answers)),
            Place::At(1) => Ok(Call::StateClear {
                key: ByteStr::from_static("x"),
                name: None,
            }),
            Place::At(2) => Ok(Call::StateGetKeys { name: None }),
            Place::At(3) => Ok(await_one(answers, 2)),
            Place::At(4) => Ok(take_one(answers, 2)),
            Place::At(5) => output_at(self.alloc, answers, 4),
            Place::At(_) => Ok(Call::End),
        }
    }
}

/// Reads `x`, awaits its value, takes it, puts it out, ends.
#[derive(Debug, Drop)]
pub struct Read {
    pub alloc: Global,
}

#[tactic(auto, using(crate::proofs::Scripts::past_script))]
impl Handler for Read {
    ghost use Rattle.built_in_handlers.specs.Handlers.{read};

    ghost next_call = { λ handler. read };

    fn next(&self, input: &Input, answers: &[Answer]) -> Result<Call, AllocError> {
        match place_after(answers) {
            Place::Cancelled => Ok(cancelled_output(self.alloc)),
            Place::Over => Ok(Call::End),
            Place::At(0) => Ok(Call::StateGet {
                key: ByteStr::from_static("x"),
                name: None,
                options: default_options(),
            }),
            Place::At(1) => Ok(await_one(answers, 0)),
            Place::At(2) => Ok(take_one(answers, 0)),
            Place::At(3) => output_at(self.alloc, answers, 2),
            Place::At(_) => Ok(Call::End),
        }
    }
}

/// Runs `r`, awaits its outcome, takes it, puts it out, ends.
#[derive(Debug, Drop)]
pub struct Effect {
    pub alloc: Global,
}

#[tactic(auto, using(crate::proofs::Scripts::past_script))]
impl Handler for Effect {
    ghost use Rattle.built_in_handlers.specs.Handlers.{effect};

    ghost next_call = { λ handler. effect };

    fn next(&self, input: &Input, answers: &[Answer]) -> Result<Call, AllocError> {
        match place_after(answers) {
            Place::Cancelled => Ok(cancelled_output(self.alloc)),
            Place::Over => Ok(Call::End),
            Place::At(0) => Ok(Call::Run {
                name: ByteStr::from_static("r"),
            }),
            Place::At(1) => Ok(await_one(answers, 0)),
            Place::At(2) => Ok(take_one(answers, 0)),
            Place::At(3) => output_at(self.alloc, answers, 2),
            Place::At(_) => Ok(Call::End),
        }
    }
}

/// Makes a handle of the signal `go`, awaits it, takes it, puts it out, ends.
#[derive(Debug, Drop)]
pub struct Go {
    pub alloc: Global,
}

#[tactic(auto, using(crate::proofs::Scripts::past_script))]
impl Handler for Go {
    ghost use Rattle.built_in_handlers.specs.Handlers.{go};

    ghost next_call = { λ handler. go };

    fn next(&self, input: &Input, answers: &[Answer]) -> Result<Call, AllocError> {
        match place_after(answers) {
            Place::Cancelled => Ok(cancelled_output(self.alloc)),
            Place::Over => Ok(Call::End),
            Place::At(0) => Ok(Call::Signal {
                name: ByteStr::from_static("go"),
            }),
            Place::At(1) => Ok(await_one(answers, 0)),
            Place::At(2) => Ok(take_one(answers, 0)),
            Place::At(3) => output_at(self.alloc, answers, 2),
            Place::At(_) => Ok(Call::End),
        }
    }
}

/// Makes an awakeable, awaits it, takes it, puts it out, ends.
#[derive(Debug, Drop)]
pub struct Hook {
    pub alloc: Global,
}

#[tactic(auto, using(crate::proofs::Scripts::past_script))]
impl Handler for Hook {
    ghost use Rattle.built_in_handlers.specs.Handlers.{hook};

    ghost next_call = { λ handler. hook };

    fn next(&self, input: &Input, answers: &[Answer]) -> Result<Call, AllocError> {
        match place_after(answers) {
            Place::Cancelled => Ok(cancelled_output(self.alloc)),
            Place::Over => Ok(Call::End),
            Place::At(0) => Ok(Call::Awakeable),
            Place::At(1) => Ok(await_one(answers, 0)),
            Place::At(2) => Ok(take_one(answers, 0)),
            Place::At(3) => output_at(self.alloc, answers, 2),
            Place::At(_) => Ok(Call::End),
        }
    }
}

/// Sleeps until 10, until 20 and until 30 ms, awaits that two of the three are over, puts out `ok`, ends.
#[derive(Debug, Drop)]
pub struct Quorum {
    pub alloc: Global,
}

#[tactic(auto, using(crate::proofs::Scripts::past_script))]
impl Handler for Quorum {
    ghost use Rattle.built_in_handlers.specs.Handlers.{quorum};

    ghost next_call = { λ handler. quorum };

    fn next(&self, input: &Input, answers: &[Answer]) -> Result<Call, AllocError> {
        match place_after(answers) {
            Place::Cancelled => Ok(cancelled_output(self.alloc)),
            Place::Over => Ok(Call::End),
            Place::At(0) => Ok(sleep_until(10, answers)),
            Place::At(1) => Ok(sleep_until(20, answers)),
            Place::At(2) => Ok(sleep_until(30, answers)),
            Place::At(3) => await_two_of_three(self.alloc, answers),
            Place::At(4) => Ok(output_ok(answers)),
            Place::At(_) => Ok(Call::End),
        }
    }
}
