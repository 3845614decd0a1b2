//! The options that the example chooses.
ghost use Rattle.std.specs.Prelude.{◌≡◌};
ghost use Rattle.durable_schedule.specs.Options.{JournalMismatchRetryBehavior, ReplaysInLine};

use durable_schedule::options::{JournalMismatchRetryBehavior, VMOptions};

/// Those by default, but that an invocation is paused where its handler asks for another call than is recorded.
pub(crate) fn chosen_options() -> VMOptions
    // The theorem speaks of a schedule with these.
    ensures replays { ReplaysInLine result }
    ensures pauses { result.journal_mismatch_retry_behavior ≡ JournalMismatchRetryBehavior.Pause }
{
    let mut options = VMOptions::default();
    options.journal_mismatch_retry_behavior = JournalMismatchRetryBehavior::Pause;
    options
}
