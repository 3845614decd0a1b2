//! What a handler's call comes to, in the words of the abstract machine of its invocation, by what the machine's calls do.
#![tactic(auto)]

mod outcome;

pub use outcome::{CallOutcome, awaited, done, ended, handled};
