//! What crashes leave of a store, said by the accepted events. Each function does nothing: its contract is the law.

ghost use Rattle.std.specs.Prelude.{ℕ};
ghost use Rattle.journal_model.specs.Notification.{Text};
ghost use Rattle.journal_model.specs.Event.{Event};
ghost use Rattle.store_calls.specs.AbstractStore.{Adds};
ghost use Rattle.journal_store.specs.Attempts.{BeginsSome};
ghost use Rattle.store_files.specs.CrashImages.{CallsLeave, ImagesAreStores, OpensLeave, QuietCallsLeave};

use sqlite::Alter;

/// A call leaves what could be left before it, or what keeps its one event too. So does an open, of which the one commit keeps what
/// is kept of no events.
pub fn crashes_leave_events<S: Alter>()
    ensures calls { (event : Event) → CallsLeave S.Store (Adds event) event }
    ensures begins { (id : Text) (now : ℕ) → CallsLeave S.Store (BeginsSome id now) (Event.Begin id now) }
    ensures quiet { QuietCallsLeave S.Store }
    ensures opens { OpensLeave S.Store }
{}

/// A connection that finds what a crash left keeps one of these lists of events. An open that takes it stands for that list, with
/// every attempt stopped.
pub fn images_are_stores<S: Alter>()
    ensures { ImagesAreStores S.Store }
{}
