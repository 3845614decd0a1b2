// How records that others hold are printed, and the result of an output.
ghost use Rattle.std.specs.Prelude.{Some};
ghost use Rattle.protocol_records.specs.Texts.{header_text, failure_metadata_text, failure_text, value_text, void_text, state_keys_text, output_result_text};

use crate::{Failure, FailureMetadata, Header, OutputCommandResult, StateKeys, Value, Void};
use protocol_types::{Shown, show_labelled};
use std::fmt;
use std::fmt::Write;

impl Shown for Header {
    ghost text = { header_text };

    fn show<W: fmt::Write>(&self, f: &mut fmt::Formatter<W>) -> fmt::Result {
        self.key.show(f)?;
        show_labelled(": ", &self.value, f)
    }
}

impl fmt::Display for Header {
    ghost output = { λ header. Some (header_text header) };

    fn fmt<W: fmt::Write>(&self, f: &mut fmt::Formatter<W>) -> fmt::Result {
        self.show(f)
    }
}

impl Shown for FailureMetadata {
    ghost text = { failure_metadata_text };

    fn show<W: fmt::Write>(&self, f: &mut fmt::Formatter<W>) -> fmt::Result {
        self.key.show(f)?;
        show_labelled(": ", &self.value, f)
    }
}

impl Shown for Failure {
    ghost text = { failure_text };

    fn show<W: fmt::Write>(&self, f: &mut fmt::Formatter<W>) -> fmt::Result {
        show_labelled("failure ", &self.code, f)?;
        show_labelled(" ", &self.message, f)?;
        show_labelled(" ", &self.metadata, f)
    }
}

impl fmt::Display for Failure {
    ghost output = { λ failure. Some (failure_text failure) };

    fn fmt<W: fmt::Write>(&self, f: &mut fmt::Formatter<W>) -> fmt::Result {
        self.show(f)
    }
}

impl Shown for Value {
    ghost text = { value_text };

    fn show<W: fmt::Write>(&self, f: &mut fmt::Formatter<W>) -> fmt::Result {
        self.content.show(f)
    }
}

impl fmt::Display for Value {
    ghost output = { λ value. Some (value_text value) };

    fn fmt<W: fmt::Write>(&self, f: &mut fmt::Formatter<W>) -> fmt::Result {
        self.show(f)
    }
}

impl Shown for Void {
    ghost text = { void_text };

    fn show<W: fmt::Write>(&self, f: &mut fmt::Formatter<W>) -> fmt::Result {
        write!(f, "void")
    }
}

impl Shown for StateKeys {
    ghost text = { state_keys_text };

    fn show<W: fmt::Write>(&self, f: &mut fmt::Formatter<W>) -> fmt::Result {
        self.keys.show(f)
    }
}

impl Shown for OutputCommandResult {
    ghost text = { output_result_text };

    fn show<W: fmt::Write>(&self, f: &mut fmt::Formatter<W>) -> fmt::Result {
        match self {
            OutputCommandResult::Value(one) => one.show(f),
            OutputCommandResult::Failure(one) => one.show(f),
        }
    }
}
