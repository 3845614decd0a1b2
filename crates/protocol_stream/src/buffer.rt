// The bytes of a stream that wait to be taken.
ghost use Rattle.std.specs.Prelude.{◌≡◌, ◌≤◌, ◌++◌, [], length, take, drop, IfOk, OnOk, OnErr};
ghost use Rattle.protocol_stream.specs.First.{IsFirst};

use crate::first::{FirstItem, first_item};
use bytes::{Bytes, BytesMut};
use std::alloc::{AllocError, Global};
use std::marker::Model;

/// What came of a stream and was not taken: whole frames, and the beginning of one.
///
/// Contracts see it as the bytes. The first frame is looked at in its place, and taken once it is decided on: a decision
/// that is put off, for want of memory or of numbers, leaves it first in line.
#[derive(Debug, Drop)]
pub struct FrameBuffer {
    bytes: BytesMut,
}

impl Model for FrameBuffer {
    ghost use Rattle.std.specs.Prelude.{List, ℕ};

    ghost Value = { List ℕ };

    ghost view = { λ buffer. buffer.bytes.items };
}

impl FrameBuffer {
    /// Nothing came yet.
    pub fn new(alloc: Global) -> FrameBuffer
        ensures { result ≡ [] }
    {
        FrameBuffer {
            bytes: BytesMut::new(alloc),
        }
    }

    /// How many bytes wait.
    pub fn len(&self) -> usize
        ensures { result ≡ length self.now }
    {
        self.bytes.len()
    }

    pub fn as_slice(&self) -> &[u8]
        ensures { result.now ≡ self.now }
    {
        self.bytes.as_slice()
    }

    /// The next bytes came.
    pub fn push(&mut self, bytes: &[u8]) -> Result<(), AllocError>
        ensures ok { OnOk result (self.new ≡ self.old ++ bytes.now) }
        ensures err { OnErr result (self.new ≡ self.old) }
    {
        self.bytes.extend_from_slice(bytes)
    }

    /// Looks at the first item.
    pub fn first(&self) -> FirstItem<'_>
        ensures { IsFirst self.now result }
    {
        first_item(self.bytes.as_slice())
    }

    /// Drops the first bytes, which were taken.
    pub fn advance(&mut self, count: usize)
        requires { count ≤ length self.old }
        ensures { self.new ≡ drop count self.old }
    {
        self.bytes.advance(count);
    }

    /// Takes the first bytes. They share the memory of what came: they are cut out of it, not copied.
    pub fn freeze_to(&mut self, count: usize) -> Result<Bytes, AllocError>
        requires { count ≤ length self.old }
        ensures front { IfOk result (λ front. front ≡ take count self.old) }
        ensures rest { OnOk result (self.new ≡ drop count self.old) }
        ensures err { OnErr result (self.new ≡ self.old) }
    {
        self.bytes.freeze_to(count)
    }
}
