// What a call answers as a number.
ghost use Rattle.std.specs.Prelude.{◌≡◌, [], Err};
ghost use Rattle.vm_c.specs.Calls.{IsStatus, done_of, reply_in};

use bytes::Bytes;
use vm_c_values::{NotDone, Unread};

/// The call is done.
pub const OK: u32 = 0;

/// The handle has no machine.
pub const NO_MACHINE: u32 = 1;

/// Memory was refused, and the machine is as it was.
pub const MEMORY: u32 = 2;

/// What has to be a text is not UTF-8, or a composite argument is none; the machine is as it was.
pub const NOT_READ: u32 = 3;

/// The machine has failed.
pub const FAILED: u32 = 4;

/// The attempt is suspended: it is over until what it waits for has come.
pub const SUSPENDED: u32 = 5;

/// The call is done, and memory was refused for its reply, which is lost.
pub const UNTOLD: u32 = 6;

pub(crate) fn number_of(why: NotDone) -> u32
    ensures status { IsStatus result }
    ensures done { done_of result [] ≡ Err why }
{
    match why {
        NotDone::Unread(Unread::Memory) => MEMORY,
        NotDone::Unread(Unread::Malformed) => NOT_READ,
        NotDone::Failed { is_suspended } => { if is_suspended { SUSPENDED } else { FAILED } }
        NotDone::Untold => UNTOLD,
    }
}

/// The status of what a call has come to.
pub(crate) fn status_of(done: &Result<Bytes, NotDone>) -> u32
    ensures status { IsStatus result }
    ensures done { done_of result (reply_in done.now) ≡ done.now }
{
    match done {
        Ok(_) => OK,
        Err(why) => number_of(*why),
    }
}
