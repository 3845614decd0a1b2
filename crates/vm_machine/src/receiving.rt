// Messages come.
ghost use Rattle.std.specs.Prelude.{◌≡◌, Some};
ghost use Rattle.protocol_stream.specs.Header.{message_type};
ghost use Rattle.vm_machine.specs.MessageKinds.{incoming_of};
ghost use Rattle.vm_machine.specs.MessageReceipt.{ReceivesStart, ReceivesAnswer, ReceivesAcknowledgement, Receives, TakesNot, TakesMessage};

use crate::{
    EntryError, Incoming, MachineState, entry_cause, kind_of, receive_command,
    receive_ephemeral_answer, receive_notification, receive_run_acknowledgement, receive_start,
};
use protocol_errors::UNEXPECTED_INPUT_MESSAGE;
use protocol_stream::RawMessage;

impl MachineState {
    fn receive_start(&mut self, message: RawMessage) -> Result<(), EntryError>
        ensures { ReceivesStart message self.old result self.new }
    {
        match receive_start(&mut self.phase, &mut self.active, self.alloc, message) {
            Ok(start) => {
                drop(self.start.replace(start));
                Ok(())
            }
            Err(error) => Err(error),
        }
    }

    fn receive_answer(&mut self, message: RawMessage) -> Result<(), EntryError>
        ensures { ReceivesAnswer message self.old result self.new }
    {
        receive_ephemeral_answer(
            &self.phase,
            self.active.is_replaying,
            &mut self.reads,
            self.alloc,
            message,
        )
    }

    fn receive_acknowledgement(&mut self, message: RawMessage) -> Result<(), EntryError>
        ensures { ReceivesAcknowledgement message self.old result self.new }
    {
        receive_run_acknowledgement(
            &self.phase,
            &mut self.active,
            &mut self.runs,
            self.alloc,
            message,
        )
    }

    // What a message tells is kept, or the message is none for the machine.
    fn receive(&mut self, message: RawMessage) -> Result<(), EntryError>
        ensures { Receives message (incoming_of (message_type message.header)) self.old result self.new }
    {
        match kind_of(message.ty()) {
            Incoming::Start => self.receive_start(message),
            Incoming::Command => receive_command(&mut self.phase, &mut self.active, message),
            Incoming::Notification => {
                receive_notification(&mut self.phase, &mut self.active, self.alloc, message)
            }
            Incoming::EphemeralAnswer => self.receive_answer(message),
            Incoming::RunAcknowledgement => self.receive_acknowledgement(message),
            Incoming::Other => {
                drop(message);
                Err(EntryError::Fixed(UNEXPECTED_INPUT_MESSAGE))
            }
        }
    }

    // Fails with why a message is not taken.
    fn fail_untaken(&mut self, error: EntryError)
        ensures { TakesNot self.old error self.new }
    {
        let cause = entry_cause(self.alloc, &self.phase, self.active.is_replaying, error);
        drop(self.fail(cause));
    }

    /// A whole message has come: what it tells is kept, or the machine fails.
    pub fn take_message(&mut self, message: RawMessage)
        ensures { TakesMessage message self.old self.new }
    {
        match self.receive(message) {
            Ok(()) => {}
            Err(error) => self.fail_untaken(error),
        }
    }
}
