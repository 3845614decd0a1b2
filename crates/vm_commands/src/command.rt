// What makes a record the command of a call.
ghost use Rattle.std.specs.Prelude.{Option};
ghost use Rattle.journal_model.specs.Request.{Request};
ghost use Rattle.vm_commands.specs.RecordMeanings.{MeansRequests};

use protocol_differences::{CommandMessageHeaderDiff, NamedCommandMessage};
use protocol_messages::PlainMessage;

/// A command that a call makes: it is matched with the recorded one, or written.
pub trait Command: PlainMessage + NamedCommandMessage + CommandMessageHeaderDiff {
    // The request that it stands for, where it has what each request of its kind has.
    ghost request_of: { Self → Option Request };

    // Its messages are these requests, and it is compared, typed and spelled as they are.
    ghost means: { MeansRequests Self.record_type Self.of Self.parts Self.erased request_of };
}
