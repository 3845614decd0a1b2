//! Laws of recorded commands. Each function does nothing: its contract is the law.

ghost use Rattle.vm_commands.specs.HeaderEquality.{ComparesReflexively, ComparesTypes, ComparesHeaders};
ghost use Rattle.vm_commands.specs.RecordedCommands.{KeepsTypes, ReadsAsRecorded};

/// Two requests have the same header exactly where what is compared of their records is the same: so a call's request has the
/// header of itself, whatever the call leaves out, and what has the same header is of one type.
pub fn headers_are_compared()
    ensures headers { ComparesHeaders }
    ensures reflexive { ComparesReflexively }
    ensures types { ComparesTypes }
{}

/// A recorded frame that is a request is of the type of that request's frame.
pub fn recorded_requests_have_their_types()
    ensures { KeepsTypes }
{}

/// Where something is left to match, a read is of the kind that is recorded, with what was known.
pub fn reads_are_as_recorded()
    ensures { ReadsAsRecorded }
{}
