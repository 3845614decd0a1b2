// Outcomes of a body that no turn takes.
ghost use Rattle.std.specs.Prelude.{◌≡◌};
ghost use Rattle.schedule_model.specs.Outcomes.{tells_mismatch};

use protocol_errors::codes;
use vm_attempt::RunOutcome;
use vm_refusals::RunExitResult;

/// Whether it is a failure that is tried again, with the code of a journal that does not match.
pub fn tells_mismatch(outcome: &RunOutcome) -> bool
    ensures { result ≡ tells_mismatch outcome.now }
{
    match &outcome.result {
        RunExitResult::RetryableFailure { error, .. } => {
            error.code() == codes::JOURNAL_MISMATCH.code()
        }
        RunExitResult::Success(_) | RunExitResult::TerminalFailure(_) => false,
    }
}
