// What an attempt has written.
ghost use Rattle.std.specs.Prelude.{◌≡◌, ◌≤◌, ◌^◌, ◌↔◌, ◌++◌, ◌||◌, [], true, false, length, IsOk, IfOk, OnOk, OnErr, IsErrOf};
ghost use Rattle.protocol_stream.specs.declared.encoder.EncodingError.TheVariants.{PayloadTooLong};
ghost use Rattle.protocol_stream.specs.Frame.{spelled};
ghost use Rattle.vm_context.specs.Output.{waiting_bytes, with_frame_of, with_command, with_frame, all_taken};

use bytes::Bytes;
use protocol_messages::{Encoder, RestateEncodableMessage};
use protocol_stream::{EncodingError, Version};
use std::alloc::{AllocError, Global};
use std::marker::Model;
use std::mem::replace;

// What waits to be taken: one frame as it was made, or several, each copied once into one buffer. Where none waits the buffer is empty.
#[derive(Debug, Drop)]
enum Waiting {
    One(Bytes),
    Several(Vec<u8>),
}

/// The frames that an attempt wrote and that were not taken, whether it writes no more, and whether it has written a command.
/// Contracts see the frames' bytes.
#[derive(Debug, Drop)]
pub struct Output {
    version: Version,
    waiting: Waiting,
    is_closed: bool,
    has_commands: bool,
}

impl Model for Output {
    ghost use Rattle.vm_context.specs.Output.{Written, waiting_bytes};

    ghost Value = { Written };

    ghost view = { λ output. record { version = output.version; bytes = waiting_bytes output.waiting; is_closed = output.is_closed; has_commands = output.has_commands } };
}

// A frame behind another, each copied once.
fn join(alloc: Global, first: &[u8], second: &[u8]) -> Result<Vec<u8>, AllocError>
    ensures { IfOk result (λ bytes. bytes.items ≡ first.now ++ second.now) }
{
    let mut bytes = Vec::with_capacity(alloc, first.len().saturating_add(second.len()))?;
    bytes.extend_from_slice(first)?;
    bytes.extend_from_slice(second)?;
    Ok(bytes)
}

// One more frame waits. One alone is kept as it is.
fn push_frame(alloc: Global, waiting: &mut Waiting, frame: Bytes) -> Result<(), AllocError>
    ensures ok { OnOk result (waiting_bytes waiting.new ≡ waiting_bytes waiting.old ++ frame) }
    ensures err { OnErr result (waiting_bytes waiting.new ≡ waiting_bytes waiting.old) }
{
    let more = match waiting {
        Waiting::Several(bytes) => {
            if !bytes.is_empty() {
                return bytes.extend_from_slice(frame.as_slice());
            }
            Waiting::One(frame)
        }
        Waiting::One(first) => {
            Waiting::Several(join(alloc, first.as_slice(), frame.as_slice())?)
        }
    };
    drop(replace(waiting, more));
    Ok(())
}

// All that waits, as one piece, none of it copied.
fn take_all(alloc: Global, waiting: &mut Waiting) -> Result<Bytes, AllocError>
    ensures bytes { IfOk result (λ bytes. bytes ≡ waiting_bytes waiting.old) }
    ensures rest { OnOk result (waiting_bytes waiting.new ≡ []) }
    ensures err { OnErr result (waiting_bytes waiting.new ≡ waiting_bytes waiting.old) }
{
    match replace(waiting, Waiting::Several(Vec::new(alloc))) {
        Waiting::One(frame) => Ok(frame),
        Waiting::Several(bytes) => match Bytes::from_vec(bytes) {
            Ok(bytes) => Ok(bytes),
            Err(refused) => {
                drop(replace(waiting, Waiting::Several(refused.value)));
                Err(AllocError)
            }
        },
    }
}

fn either(one: bool, other: bool) -> bool
    ensures { result ≡ (one || other) }
{
    one || other
}

impl Output {
    /// Nothing was written yet. Frames are to be of this version.
    pub fn new(alloc: Global, version: Version) -> Output
        ensures { result ≡ record { version = version; bytes = []; is_closed = false; has_commands = false } }
    {
        Output {
            version,
            waiting: Waiting::Several(Vec::new(alloc)),
            is_closed: false,
            has_commands: false,
        }
    }

    /// Whether nothing more is written.
    pub fn is_closed(&self) -> bool
        ensures { result ≡ self.now.is_closed }
    {
        self.is_closed
    }

    /// Whether a command was written.
    pub fn has_commands(&self) -> bool
        ensures { result ≡ self.now.has_commands }
    {
        self.has_commands
    }

    /// Writes a command, whole or not at all; behind the end nothing.
    pub fn send_command<M: RestateEncodableMessage>(
        &mut self,
        alloc: Global,
        command: &M,
    ) -> Result<(), EncodingError>
        ensures ok { OnOk result (self.new ≡ with_command (spelled (M.message_at self.old.version command.now)) self.old) }
        ensures err { OnErr result (self.new ≡ self.old) }
        ensures too_long { IsErrOf result PayloadTooLong
            ↔ ((self.old.is_closed ≡ false) × (2 ^ 32 ≤ length (M.message_at self.old.version command.now).payload)) }
        ensures closed { self.old.is_closed ≡ true → IsOk result }
    {
        self.send_as(alloc, command, true)
    }

    /// Writes a message that is no command, whole or not at all; behind the end nothing.
    pub fn send<M: RestateEncodableMessage>(
        &mut self,
        alloc: Global,
        message: &M,
    ) -> Result<(), EncodingError>
        ensures ok { OnOk result (self.new ≡ with_frame (spelled (M.message_at self.old.version message.now)) self.old) }
        ensures err { OnErr result (self.new ≡ self.old) }
        ensures too_long { IsErrOf result PayloadTooLong
            ↔ ((self.old.is_closed ≡ false) × (2 ^ 32 ≤ length (M.message_at self.old.version message.now).payload)) }
        ensures closed { self.old.is_closed ≡ true → IsOk result }
    {
        self.send_as(alloc, message, false)
    }

    fn send_as<M: RestateEncodableMessage>(
        &mut self,
        alloc: Global,
        message: &M,
        is_command: bool,
    ) -> Result<(), EncodingError>
        ensures ok { OnOk result (self.new ≡ with_frame_of is_command (spelled (M.message_at self.old.version message.now)) self.old) }
        ensures err { OnErr result (self.new ≡ self.old) }
        ensures too_long { IsErrOf result PayloadTooLong
            ↔ ((self.old.is_closed ≡ false) × (2 ^ 32 ≤ length (M.message_at self.old.version message.now).payload)) }
        ensures closed { self.old.is_closed ≡ true → IsOk result }
    {
        if self.is_closed {
            return Ok(());
        }
        let frame = Encoder::new(self.version).encode(alloc, message)?;
        push_frame(alloc, &mut self.waiting, frame)?;
        let told = either(is_command, self.has_commands);
        self.has_commands = told;
        Ok(())
    }

    /// Ends the output: what waits can be taken still.
    pub fn send_eof(&mut self)
        ensures { self.new ≡ record self.old { is_closed = true } }
    {
        self.is_closed = true;
    }

    /// Takes all that waits, as one piece. Nothing is copied for that.
    pub fn take(&mut self, alloc: Global) -> Result<Bytes, AllocError>
        ensures bytes { IfOk result (λ bytes. bytes ≡ self.old.bytes) }
        ensures rest { OnOk result (self.new ≡ all_taken self.old) }
        ensures err { OnErr result (self.new ≡ self.old) }
    {
        take_all(alloc, &mut self.waiting)
    }
}
