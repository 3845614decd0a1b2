// Ids that have run out.
use protocol_differences::{InvocationErrorCode, WithInvocationErrorCode, codes};
use std::fmt;

/// V3: every number that an id may have was taken.
#[derive(Clone, Copy, Debug, PartialEq, Eq)]
pub struct IdsExhausted;

impl fmt::Display for IdsExhausted {
    ghost use Rattle.std.specs.Prelude.{Some};
    ghost use Rattle.vm_context.specs.Journal.{no_id_text};

    ghost output = { λ _. Some no_id_text };

    fn fmt<W: fmt::Write>(&self, f: &mut fmt::Formatter<W>) -> fmt::Result {
        write!(f, "No id is left")
    }
}

impl std::error::Error for IdsExhausted {}

impl WithInvocationErrorCode for IdsExhausted {
    ghost use Rattle.protocol_errors.specs.Code.{internal};

    ghost code_of = { λ _. internal };

    fn code(&self) -> InvocationErrorCode {
        codes::INTERNAL
    }
}
