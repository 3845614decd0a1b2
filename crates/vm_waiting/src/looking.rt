// Whether a notification has come and was looked at.
ghost use Rattle.std.specs.Prelude.{◌≡◌, Bool, is_some};
ghost use Rattle.journal_model.specs.declared.call.Call.{Call};
ghost use Rattle.journal_model.specs.declared.call.Answer.{Answer};
ghost use Rattle.journal_model.specs.Run.{Invocation};
ghost use Rattle.attempt_model.specs.Machine.{Machine, Answered, reply_to};
ghost use Rattle.attempt_model.specs.Results.{waiting_for};
ghost use Rattle.vm_awaits.specs.Views.{ready_of, slots_of};
ghost use Rattle.vm_commands.specs.HeaderEquality.{same_header};
ghost use Rattle.vm_calls.specs.Active.{Sees};

use journal_model::NotificationHandle;
use vm_calls::Active;

/// Whether what the handle stands for is completed: it has come, and an await has looked at it.
pub fn is_completed(active: &Active, handle: NotificationHandle) -> bool
    ensures held { result ≡ is_some (waiting_for (slots_of active.now.results) (ready_of active.now.results) handle) }
    ensures made { (given : Invocation) (m : Machine) (checks_off : Bool) → Sees given active.now m
        → reply_to (same_header checks_off) given m (Call.IsCompleted handle) ≡ Answered (Answer.Completed result) m }
{
    active.results.is_handle_completed(handle)
}
