//! Rows of a machine: each file that a word of the call names has a call a line, its name and its operands; printed is the row
//! and, behind ` = `, the answer. `new` begins another machine, `shown` prints it with `{:?}`, `tree` prints one of trees so, and
//! `debug` another value; `steps` drives a handler of these calls, `effect` one whose run ends so, and `retries` asks a policy. A row
//! that is not understood is printed with a `?`.
#![tactic(auto)]

mod answers;
mod asking;
mod awaits;
mod commands;
mod driven;
mod effects;
mod endings;
mod feeding;
pub mod names;
mod operands;
mod printed;
mod requests;
mod results;
mod runs;
mod state;
mod tables;
mod telling;

use invocation_vm::{CoreVM, VM};
use std::alloc::Global;
use std::fmt;
use std::mem::replace;
use std::process::ExitCode;
use test_rows::{Answers, run, told};

/// The machine that the rows of a file are about, where one was made.
#[derive(Drop)]
struct Machine<V> {
    vm: Option<V>,
}

/// What a call of the machine answers.
fn answer_of<V: VM>(alloc: Global, vm: &mut V, call: &str, operands: &[&str]) -> Option<String> {
    if let Some(told) = feeding::answer(alloc, vm, call, operands) {
        return Some(told);
    }
    if let Some(told) = state::answer(alloc, vm, call, operands) {
        return Some(told);
    }
    if let Some(told) = awaits::answer(alloc, vm, call, operands) {
        return Some(told);
    }
    if let Some(told) = commands::answer(alloc, vm, call, operands) {
        return Some(told);
    }
    if let Some(told) = telling::answer(alloc, vm, call, operands) {
        return Some(told);
    }
    if let Some(told) = runs::answer(alloc, vm, call, operands) {
        return Some(told);
    }
    asking::answer(alloc, vm, call, operands)
}

/// Another machine stands in the place, or none where it is refused.
fn begin<V: VM + Drop>(alloc: Global, vm: &mut Option<V>, operands: &[&str]) -> Option<String> {
    match feeding::begin::<V>(alloc, operands)? {
        Ok(made) => {
            drop(replace(vm, Some(made)));
            told(alloc, "ok")
        }
        Err(error) => {
            drop(replace(vm, None));
            answers::refused(alloc, error)
        }
    }
}

impl<V: VM + fmt::Debug + Drop> Answers for Machine<V> {
    fn begin() -> Self {
        Machine { vm: None }
    }

    fn answer(&mut self, alloc: Global, _file: &str, words: &[&str]) -> Option<String> {
        match words {
            ["new", operands @ ..] => begin(alloc, &mut self.vm, operands),
            ["resolve", operands @ ..] => tables::answer::<V>(alloc, operands),
            ["copies", operands @ ..] => results::answer(alloc, operands),
            ["steps", operands @ ..] => driven::answer(alloc, operands),
            ["effect", operands @ ..] => effects::answer(alloc, operands),
            ["retries", operands @ ..] => runs::retries(alloc, operands),
            ["tree", operands @ ..] => answers::debug(alloc, awaits::tree(alloc, operands, 0)?),
            ["debug", name, operands @ ..] => printed::answer(alloc, *name, operands),
            ["shown"] => answers::shown(alloc, self.vm.as_ref()?),
            [call, operands @ ..] => answer_of(alloc, self.vm.as_mut()?, *call, operands),
            [] => None,
        }
    }
}

fn main(rt: HostRuntime) -> ExitCode {
    run::<Machine<CoreVM>, _>(&rt)
}
