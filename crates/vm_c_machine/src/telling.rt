// What a machine is asked, which changes nothing.
ghost use Rattle.std.specs.Prelude.{◌≡◌, ◌-ℤ◌, pos};
ghost use Rattle.protocol_types.specs.Version.{version_content_type};
ghost use Rattle.vm_feeding.specs.MachineQueries.{state_of_phase};
ghost use Rattle.vm_feeding.specs.Handles.{LooksAtHandle};
ghost use Rattle.vm_c_machine.specs.Calls.{Asks, AsksForBytes};
ghost use Rattle.vm_c_machine.specs.Numbers.{TellsError, TellsPart, command_told, delay_told, state_number};
ghost use Rattle.vm_start.specs.Failure.{behavior_number};
ghost use Rattle.vm_c_values.specs.Options.{is_set};

use crate::Machine;
use crate::feeding::{NO_DELAY, as_number};
use bytes::Bytes;
use journal_model::NotificationHandle;
use protocol_errors::{Error, ErrorBehavior};
use std::time::Duration;
use vm_c_values::{NotDone, Unread, copied_bytes, part_of};
use vm_core::VM;
use vm_types::State;

fn state_number(state: State) -> u32
    ensures { result ≡ state_number state }
{
    match state {
        State::WaitingPreFlight => 0,
        State::Replaying => 1,
        State::Processing => 2,
        State::Closed => 3,
    }
}

fn behavior_number(behavior: ErrorBehavior) -> u32
    ensures { result ≡ behavior_number behavior }
{
    match behavior {
        ErrorBehavior::Retry => 0,
        ErrorBehavior::Pause => 1,
        ErrorBehavior::Fail => 2,
    }
}

fn millis_of(delay: Option<Duration>) -> u64
    ensures { result ≡ delay_told delay }
{
    match delay {
        Some(delay) => u64::try_from(delay.as_millis()).unwrap_or(NO_DELAY),
        None => NO_DELAY,
    }
}

// The index of the command that an error is about, and -1 where it is about none.
fn command_index_of(error: &Error) -> i64
    ensures { result ≡ command_told error.now.related_command }
{
    match error.related_command() {
        Some(command) => i64::from(command.index),
        None => -1,
    }
}

impl Machine {
    /// How the response begins: its status, and as reply its content type.
    pub fn response_head(&self, status_code: &mut u32) -> Result<Bytes, NotDone>
        ensures { AsksForBytes (λ machine reply. (status_code.new ≡ 200) × (reply ≡ version_content_type machine.vm.state.version)) self.now result self.now }
    {
        match self.vm.get_response_head() {
            Ok(head) => {
                *status_code = u32::from(head.status_code);
                Ok(Bytes::from_static(head.version.content_type().as_bytes()))
            }
            Err(_) => Err(NotDone::Unread(Unread::Memory)),
        }
    }

    /// How far the attempt has come: 0 its start has not come, 1 replaying, 2 processing, 3 closed.
    pub fn state(&self, state: &mut u32) -> Result<Bytes, NotDone>
        ensures { Asks (λ vm. state.new ≡ state_number (state_of_phase vm.phase vm.active.is_replaying)) self.now result self.now }
    {
        *state = state_number(self.vm.state());
        Ok(Bytes::new())
    }

    /// The index of the command that was asked for last, and -1 before the first.
    pub fn last_command_index(&self, index: &mut i64) -> Result<Bytes, NotDone>
        ensures { Asks (λ vm. index.new ≡ pos vm.active.journal.commands -ℤ pos 1) self.now result self.now }
    {
        *index = self.vm.last_command_index();
        Ok(Bytes::new())
    }

    /// Whether something that the handle stands for has come and was looked at.
    pub fn is_completed(&self, notification: u32, completed: &mut u32) -> Result<Bytes, NotDone>
        ensures { Asks (λ vm. LooksAtHandle vm.phase vm.active notification (is_set completed.new)) self.now result self.now }
    {
        let is_completed = self.vm.is_completed(NotificationHandle::new(notification));
        *completed = as_number(is_completed);
        Ok(Bytes::new())
    }

    /// A part of the input that was read, where there is one: the reply.
    pub fn input_part(&self, part: u32, index: u32, found: &mut u32) -> Result<Bytes, NotDone>
        ensures { TellsPart part index found.new self.now result self.now }
    {
        *found = 0;
        let Some(input) = &self.input else {
            return Ok(Bytes::new());
        };
        match part_of(input, part, index as usize) {
            Ok(Some(bytes)) => {
                *found = 1;
                Ok(bytes)
            }
            Ok(None) => Ok(Bytes::new()),
            Err(_) => Err(NotDone::Unread(Unread::Memory)),
        }
    }

    /// What was answered last in place of what was asked: its code, 0 where nothing was; its behaviour, 0 retry, 1 pause, 2 fail; its delay in
    /// milliseconds, the greatest number where it has none; the index of the command that it is about, -1 where it is about none. The reply is
    /// its text.
    pub fn last_error(
        &self,
        code: &mut u32,
        behavior: &mut u32,
        delay_millis: &mut u64,
        command_index: &mut i64,
    ) -> Result<Bytes, NotDone>
        ensures { TellsError code.new behavior.new delay_millis.new command_index.new self.now result self.now }
    {
        *code = 0;
        *behavior = 0;
        *delay_millis = NO_DELAY;
        *command_index = -1;
        let Some(error) = &self.failure else {
            return Ok(Bytes::new());
        };
        *code = u32::from(error.code());
        *behavior = behavior_number(error.behavior());
        *delay_millis = millis_of(error.next_retry_delay());
        *command_index = command_index_of(error);
        Ok(copied_bytes(self.alloc, error.message().as_bytes())?)
    }
}
