//! A sequence that contracts see as the list of its items, and that a recursive type may hold.
//!
//! A struct with a field `Vec<T>` is seen as the parts of that `Vec`, its place in memory among them, so two with the same
//! items need not be equal in a contract, and a copy is not seen to equal its source. A `Sequence<T>` is its items and
//! nothing else. `specs/formers/sequence/Sequence.antt` says how it stores them, so that an enum may refer to itself through it.
#![tactic(auto)]

mod sequence;

pub use sequence::Sequence;
