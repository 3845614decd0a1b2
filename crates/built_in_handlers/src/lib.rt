//! The built-in handlers that a script may name, each made of the steps of a list of calls.
#![tactic(auto)]

mod built_in;
pub mod handlers;
pub mod script;

pub use built_in::BuiltIn;
