// How what commands choose among is printed.
ghost use Rattle.protocol_commands.specs.Texts.{state_result_text, completion_text};

use crate::{CompletePromiseCommandCompletion, GetEagerStateCommandResult};
use protocol_types::Shown;
use std::fmt;

impl Shown for GetEagerStateCommandResult {
    ghost text = { state_result_text };

    fn show<W: fmt::Write>(&self, f: &mut fmt::Formatter<W>) -> fmt::Result {
        match self {
            GetEagerStateCommandResult::Void(one) => one.show(f),
            GetEagerStateCommandResult::Value(one) => one.show(f),
        }
    }
}

impl Shown for CompletePromiseCommandCompletion {
    ghost text = { completion_text };

    fn show<W: fmt::Write>(&self, f: &mut fmt::Formatter<W>) -> fmt::Result {
        match self {
            CompletePromiseCommandCompletion::CompletionValue(one) => one.show(f),
            CompletePromiseCommandCompletion::CompletionFailure(one) => one.show(f),
        }
    }
}
