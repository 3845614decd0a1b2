//! What several outcomes have brought.
ghost use Rattle.std.specs.Prelude.{◌≡◌, IfOk};
ghost use Rattle.straight_line.specs.Combinators as combining;

use bytes::{ByteStr, Bytes};
use journal_model::TerminalFailure;
use sequence::Sequence;
use std::alloc::{AllocError, Global};

/// The values of those that have come, in their order, and the first failure among them.
#[derive(Drop)]
pub(crate) struct Gathered {
    pub values: Sequence<Bytes>,
    pub failure: Option<TerminalFailure>,
}

#[tactic(auto, unfolding(crate::specs::Combinators::too_few))]
pub(crate) fn too_few(alloc: Global) -> TerminalFailure
    ensures { result ≡ combining.too_few }
{
    TerminalFailure {
        code: 500,
        message: ByteStr::from_static("too few have succeeded"),
        metadata: Sequence::new(alloc),
    }
}

pub(crate) fn nothing(alloc: Global) -> Gathered
    ensures { result ≡ combining.nothing }
{
    Gathered {
        values: Sequence::new(alloc),
        failure: None,
    }
}

/// With what one more has brought.
pub(crate) fn noted(
    gathered: Gathered,
    brought: Result<Bytes, TerminalFailure>,
) -> Result<Gathered, AllocError>
    ensures { IfOk result (λ more. more ≡ combining.noted gathered brought) }
{
    let Gathered {
        mut values,
        failure,
    } = gathered;
    match brought {
        Ok(value) => {
            values.push(value)?;
            Ok(Gathered { values, failure })
        }
        Err(last) => Ok(Gathered {
            values,
            failure: Some(failure.unwrap_or(last)),
        }),
    }
}

/// So many values, or why there are fewer.
pub(crate) fn enough(
    alloc: Global,
    required: usize,
    gathered: Gathered,
) -> Result<Sequence<Bytes>, TerminalFailure>
    ensures { result ≡ combining.enough required gathered }
{
    let Gathered { values, failure } = gathered;
    if required <= values.len() {
        Ok(values)
    } else {
        Err(failure.unwrap_or(too_few(alloc)))
    }
}
