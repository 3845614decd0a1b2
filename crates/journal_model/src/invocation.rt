//! How an invocation is begun.
ghost use Rattle.std.specs.Prelude.{◌≡◌, IfOk};
ghost use Rattle.journal_model.specs.Headers.{plain_invocation, of_handler};

use crate::call::Header;
use bytes::{ByteStr, Bytes};
use sequence::Sequence;
use std::alloc::{AllocError, Global};

/// How much of its object's state an attempt is shown when it starts.
#[derive(Debug, Clone, Copy, PartialEq, Eq)]
pub enum StateMode {
    /// The whole map: what is not in it has no value.
    Whole,
    /// Nothing: each key is asked for.
    None,
}

/// A new invocation of an object.
#[derive(Debug, PartialEq, Eq, Drop)]
pub struct NewInvocation {
    /// Names the invocation. No other has had it, and it is not empty.
    pub id: ByteStr,
    /// The key of the object whose state the invocation reads and writes. It is not empty.
    pub object: ByteStr,
    pub input: Bytes,
    pub headers: Sequence<Header>,
    /// The number of the version of the protocol that its attempts speak, one of `protocol_types::Version`.
    pub version: u32,
    /// What its handler draws random numbers from, from version 6 on.
    pub seed: u64,
    pub state: StateMode,
}

/// The header by which an invocation tells which handler it is of.
pub const HANDLER_HEADER: &str = "hengomaru-handler";

impl NewInvocation {
    /// One of the latest version of the protocol, which has its object's whole state from its start, the seed 1 and no headers.
    pub fn new(alloc: Global, id: ByteStr, object: ByteStr, input: Bytes) -> NewInvocation
        ensures { result ≡ plain_invocation id object input }
    {
        NewInvocation {
            id,
            object,
            input,
            headers: Sequence::new(alloc),
            version: 9,
            seed: 1,
            state: StateMode::Whole,
        }
    }

    /// The same of the handler of this name, which is recorded with it in a header: a handler asks `Input::is_for`. The only error is that
    /// memory for the header was refused.
    pub fn for_handler(mut self, name: ByteStr) -> Result<NewInvocation, AllocError>
        ensures { IfOk result (λ new. new ≡ of_handler name self) }
    {
        let header = Header {
            key: ByteStr::from_static(HANDLER_HEADER),
            value: name,
        };
        match self.headers.push(header) {
            Ok(()) => Ok(self),
            Err(_) => Err(AllocError),
        }
    }
}
