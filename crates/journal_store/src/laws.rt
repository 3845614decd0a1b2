//! Laws of the causes that calls of a store pass on. The function does nothing: its contract is the law.
ghost use Rattle.std.specs.Prelude.{ℕ, List};
ghost use Rattle.journal_model.specs.Notification.{Bytes, Text};
ghost use Rattle.journal_model.specs.Event.{Event};
ghost use Rattle.store_steps.specs.declared.frame.FrameReply.{FrameReply};
ghost use Rattle.journal_store.specs.Causes.{AskingWantsMemory, ForgettingWantsMemory, TriesEvent, TriesFrame, TriesFrameOf, WritingWantsMemory};

use sqlite::Alter;

/// Over a connection that was open, with no limit on steps, and whose disk does not fail, the database refuses a question of a call
/// for want of memory alone, and a change for that, or because SQL's own rules find no place for a row of the event that is tried: the
/// event of a call, the frame of a step, or a frame of the bytes that are taken in; or of an invocation that is forgotten. That a call tells
/// its cause, `cause` of the call says.
pub fn refused_for_memory<S: Alter>()
    ensures asking { AskingWantsMemory S.Store }
    ensures event { (one : Event) → WritingWantsMemory S.Store (TriesEvent one) }
    ensures frame { (id : Text) (attempt : ℕ) → WritingWantsMemory S.Store (TriesFrame id attempt) }
    ensures accepted { (id : Text) (attempt : ℕ) (bytes : Bytes) (replies : List FrameReply) → WritingWantsMemory S.Store (TriesFrameOf id attempt bytes replies) }
    ensures forgotten { ForgettingWantsMemory S.Store }
{}
