//! The built-in handlers under the names that scripts give them.
ghost use Rattle.std.specs.Prelude.{◌≡◌};

use crate::handlers::{Ask, Both, Effect, Go, Hook, Keys, Nap, Pair, Quorum, Race, Read, Twice};
use journal_model::call::{Answer, Call};
use journal_model::handler::{Handler, Input};
use std::alloc::{AllocError, Global};

/// A built-in handler.
#[derive(Debug, Drop)]
pub enum BuiltIn {
    /// `nap`, which sleeps until 10 ms, and `nap99`, which sleeps until 99 ms.
    Nap(Nap),
    Race(Race),
    Both(Both),
    Ask(Ask),
    Pair(Pair),
    Twice(Twice),
    Keys(Keys),
    Read(Read),
    Effect(Effect),
    Go(Go),
    Hook(Hook),
    Quorum(Quorum),
}

impl BuiltIn {
    ghost use Rattle.built_in_handlers.specs.BuiltIn.{built_in};

    /// The handler of this name.
    #[tactic(auto, unfolding(crate::specs::BuiltIn::built_in))]
    pub fn from_name(alloc: Global, name: &[u8]) -> Option<BuiltIn>
        ensures { result ≡ built_in alloc name.now }
    {
        if name == b"nap".as_slice() {
            Some(BuiltIn::Nap(Nap {
                alloc,
                until_ms: 10,
            }))
        } else if name == b"nap99".as_slice() {
            Some(BuiltIn::Nap(Nap {
                alloc,
                until_ms: 99,
            }))
        } else if name == b"race".as_slice() {
            Some(BuiltIn::Race(Race { alloc }))
        } else if name == b"both".as_slice() {
            Some(BuiltIn::Both(Both { alloc }))
        } else if name == b"ask".as_slice() {
            Some(BuiltIn::Ask(Ask { alloc }))
        } else if name == b"pair".as_slice() {
            Some(BuiltIn::Pair(Pair { alloc }))
        } else if name == b"twice".as_slice() {
            Some(BuiltIn::Twice(Twice { alloc }))
        } else if name == b"keys".as_slice() {
            Some(BuiltIn::Keys(Keys { alloc }))
        } else if name == b"read".as_slice() {
            Some(BuiltIn::Read(Read { alloc }))
        } else if name == b"effect".as_slice() {
            Some(BuiltIn::Effect(Effect { alloc }))
        } else if name == b"go".as_slice() {
            Some(BuiltIn::Go(Go { alloc }))
        } else if name == b"hook".as_slice() {
            Some(BuiltIn::Hook(Hook { alloc }))
        } else if name == b"quorum".as_slice() {
            Some(BuiltIn::Quorum(Quorum { alloc }))
        } else {
            None
        }
    }
}

impl Handler for BuiltIn {
    ghost use Rattle.built_in_handlers.specs.BuiltIn.{function_of};

    ghost next_call = { function_of };

    fn next(&self, input: &Input, answers: &[Answer]) -> Result<Call, AllocError> {
        match self {
            BuiltIn::Nap(handler) => handler.next(input, answers),
            BuiltIn::Race(handler) => handler.next(input, answers),
            BuiltIn::Both(handler) => handler.next(input, answers),
            BuiltIn::Ask(handler) => handler.next(input, answers),
            BuiltIn::Pair(handler) => handler.next(input, answers),
            BuiltIn::Twice(handler) => handler.next(input, answers),
            BuiltIn::Keys(handler) => handler.next(input, answers),
            BuiltIn::Read(handler) => handler.next(input, answers),
            BuiltIn::Effect(handler) => handler.next(input, answers),
            BuiltIn::Go(handler) => handler.next(input, answers),
            BuiltIn::Hook(handler) => handler.next(input, answers),
            BuiltIn::Quorum(handler) => handler.next(input, answers),
        }
    }
}
