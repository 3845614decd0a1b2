//! What holds of an invocation whose attempts are elsewhere, as in another process, where nothing is known of their code. The function
//! does nothing: its contract is the law.
#![tactic(auto)]

ghost use Rattle.elsewhere_laws.specs.Elsewhere.{PromisesHoldElsewhere};

/// Where each frame that was taken of an invocation is of the run of a handler, the headline holds of what is recorded of it, and waking
/// is never late, and exact. Whether a host's frames are so is not looked at.
pub fn promises_hold_elsewhere()
    ensures { PromisesHoldElsewhere }
{}
