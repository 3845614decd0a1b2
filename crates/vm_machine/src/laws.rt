//! What comes before the calls is what the abstract machine begins with. Each function does nothing: its contract is the law.
ghost use Rattle.vm_machine.specs.StateBeforeInput.{BeginsGathering, GathersCommands, GathersNotifications, SeesBehindInput};

/// An attempt begins as the abstract machine does, with what its start shows.
pub fn starts_begin_attempts()
    ensures { BeginsGathering }
{}

/// What comes is kept as the abstract machine keeps it: commands are left to match, notifications wait in line.
pub fn entries_are_gathered()
    ensures commands { GathersCommands }
    ensures notifications { GathersNotifications }
{}

/// Behind the input, calls match what was recorded behind it.
pub fn calls_follow_the_input()
    ensures { SeesBehindInput }
{}
