//! The attempts that a scheduler holds.
use crate::kept::KeptAttempt;
use bytes::ByteStr;

/// An attempt that the scheduler began, by its invocation and its number.
#[derive(Drop)]
pub struct HeldAttempt<H> {
    pub invocation: ByteStr,
    pub number: u32,
    pub attempt: KeptAttempt<H>,
}
