// What comes in and goes out.
ghost use Rattle.std.specs.Prelude.{◌≡◌, None, IsUtf8};
ghost use Rattle.vm_feeding.specs.MachineQueries.{TellsReady};
ghost use Rattle.vm_feeding.specs.EndOfInput.{ClosesInput};
ghost use Rattle.vm_feeding.specs.InputBytes.{IsFed};
ghost use Rattle.vm_c_machine.specs.Calls.{Changes, DoesCall, GivesOutput, KeepsReadInput, Given};
ghost use Rattle.vm_c_machine.specs.Host.{IsErrorOfHost, ToldByHost};
ghost use Rattle.vm_c_values.specs.Options.{is_set};
ghost use Rattle.vm_c_values.specs.Arguments.{AnyBytes};

use crate::Machine;
use bytes::{ByteStr, Bytes};
use protocol_errors::{Error, InvocationErrorCode};
use std::mem;
use std::time::Duration;
use vm_c_values::{NotDone, Unread, copied_bytes, copied_text};
use vm_core::VM;

/// That no delay is given.
pub(crate) const NO_DELAY: u64 = u64::MAX;

pub(crate) fn as_number(holds: bool) -> u32
    ensures { is_set result ≡ holds }
{
    if holds { 1 } else { 0 }
}

// The error of a host.
fn error_of(code: u16, message: ByteStr, delay_millis: u64, pause: u32) -> Error
    ensures { IsErrorOfHost code message delay_millis pause result }
{
    let error = Error::new(InvocationErrorCode::new(code), message);
    let error = if delay_millis == NO_DELAY {
        error
    } else {
        error.with_next_retry_delay_override(Duration::from_millis(delay_millis))
    };
    if pause != 0 {
        error.with_should_pause()
    } else {
        error
    }
}

impl Machine {
    /// Bytes have come.
    pub fn notify_input(&mut self, bytes: &[u8]) -> Result<Bytes, NotDone>
        ensures { Given AnyBytes (Changes (IsFed bytes.now)) self.old result self.new }
    {
        let copied = copied_bytes(self.alloc, bytes)?;
        self.vm.notify_input(copied);
        Ok(Bytes::new())
    }

    /// No more bytes come.
    pub fn notify_input_closed(&mut self) -> Result<Bytes, NotDone>
        ensures { Changes ClosesInput self.old result self.new }
    {
        self.vm.notify_input_closed();
        Ok(Bytes::new())
    }

    /// The host has failed: the attempt is tried again after a delay, if one is given, or the invocation is paused.
    pub fn notify_error(
        &mut self,
        code: u16,
        message: &[u8],
        delay_millis: u64,
        pause: u32,
    ) -> Result<Bytes, NotDone>
        ensures { Given (IsUtf8 message.now) (Changes (ToldByHost code message.now delay_millis pause)) self.old result self.new }
    {
        let message = copied_text(self.alloc, message)?;
        let error = error_of(code, message, delay_millis, pause);
        self.vm.notify_error(error, None);
        Ok(Bytes::new())
    }

    /// Hands out all bytes that were written and not handed out: the reply.
    pub fn take_output(&mut self) -> Result<Bytes, NotDone>
        ensures { GivesOutput self.old result self.new }
    {
        match self.vm.take_output() {
            Ok(output) => Ok(output),
            Err(_) => Err(NotDone::Unread(Unread::Memory)),
        }
    }

    /// Whether the start and all entries have come that it announces, so that calls can be made.
    pub fn is_ready_to_execute(&mut self, ready: &mut u32) -> Result<Bytes, NotDone>
        ensures { DoesCall (λ old made new. TellsReady old.phase made × (new ≡ old)) (is_set ready.new) self.old result self.new }
    {
        match self.vm.is_ready_to_execute() {
            Ok(is_ready) => {
                *ready = as_number(is_ready);
                Ok(Bytes::new())
            }
            Err(error) => Err(self.failed(error)),
        }
    }

    /// Reads the input, which comes before all other calls: the reply has its bytes.
    pub fn sys_input(&mut self, random_seed: &mut u64) -> Result<Bytes, NotDone>
        ensures { KeepsReadInput random_seed.new self.old result self.new }
    {
        let input = match self.vm.sys_input() {
            Ok(input) => input,
            Err(error) => return Err(self.failed(error)),
        };
        *random_seed = input.random_seed;
        let copied: Result<_, _> = input.input.clone();
        let earlier = mem::replace(&mut self.input, Some(input));
        drop(earlier);
        match copied {
            Ok(bytes) => Ok(bytes),
            Err(_) => Err(NotDone::Untold),
        }
    }
}
