//! What a call stands for that brings something later, by what it brings.
//!
//! A handle is no `Copy`: what waits for it and takes what has come uses it up, so nothing is taken twice.
ghost use Rattle.std.specs.Prelude.{◌≡◌};

use bytes::ByteStr;
use journal_model::NotificationHandle;

/// A sleep that has begun.
#[derive(Drop)]
pub struct Timer {
    pub(crate) handle: NotificationHandle,
}

/// What brings a success or a failure: a run, a call, a signal, an awakeable, a promise, another invocation.
#[derive(Drop)]
pub struct DurableFuture {
    pub(crate) handle: NotificationHandle,
}

/// The same of something that may have no result yet: a promise that is peeked at, the output of another invocation.
#[derive(Drop)]
pub struct Peeked {
    pub(crate) handle: NotificationHandle,
}

/// A read of a key of the state.
#[derive(Drop)]
pub struct StateRead {
    pub(crate) handle: NotificationHandle,
}

/// A read of the keys of the state.
#[derive(Drop)]
pub struct KeysRead {
    pub(crate) handle: NotificationHandle,
}

/// The invocation id of a call or a send.
#[derive(Drop)]
pub struct IdAsked {
    pub(crate) handle: NotificationHandle,
}

/// A call of a service.
#[derive(Drop)]
pub struct Called {
    pub invocation_id: IdAsked,
    pub outcome: DurableFuture,
}

/// An awakeable: the text by which the outside completes it, and its outcome.
#[derive(Drop)]
pub struct Awakeable {
    pub id: ByteStr,
    pub outcome: DurableFuture,
}

impl Timer {
    /// By which it is waited for beside others.
    pub fn handle(&self) -> NotificationHandle
        ensures { result ≡ self.now.handle }
    {
        self.handle
    }
}

impl DurableFuture {
    /// By which it is waited for beside others.
    pub fn handle(&self) -> NotificationHandle
        ensures { result ≡ self.now.handle }
    {
        self.handle
    }
}
