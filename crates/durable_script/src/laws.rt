//! Laws of the definitions. The functions do nothing: their contracts are the laws.
ghost use Rattle.durable_script.specs.ShownEntries.{EntriesAreShown};
ghost use Rattle.durable_script.specs.Run.{HandlersAreNamed, LinesFollow};

use built_in_handlers::BuiltIn;
use durable_schedule::schedules_leave;

/// Behind each line of a script, what is recorded of an invocation is of the one uninterrupted run of the handler that its lines name,
/// if what was recorded before is.
pub fn lines_follow()
    ensures { LinesFollow }
{
    schedules_leave::<BuiltIn>();
}

/// Each name that a line may give a handler stands for the handler of this name: `nap` sleeps until 10 ms, awaits that, takes it, puts
/// out `ok`, and ends.
pub fn handlers_are_named()
    ensures { HandlersAreNamed }
{}

/// What is shown of an invocation's entries, of which each arrival is such as a caller can bring, is each with its place, from 1 on: a
/// request as it was spelled, an arrival as it was brought.
pub fn entries_are_shown()
    ensures { EntriesAreShown }
{}
