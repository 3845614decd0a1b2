//! Laws of the sleeps that a tick ends, and of what it writes. The functions do nothing: their contracts are the laws.

ghost use Rattle.store_arrivals.specs.Groups.{AllEndedCounted, AllEndingGrouped, AllRowsEnded};
ghost use Rattle.store_arrivals.specs.PreparedTicks.{ReadyKeeps};

/// The rows that are due, grouped, are the invocations of which a tick ends sleeps, each once; the entries that it adds to one are
/// the ends of those sleeps, in order; and it ends as many as rows are due.
pub fn ended_grouped()
    ensures ending { AllEndingGrouped }
    ensures rows { AllRowsEnded }
    ensures counted { AllEndedCounted }
{}

/// What is made ready of a tick makes of the records that are kept before it those that are kept after it, also where there is
/// nothing to write.
pub fn ready_kept()
    ensures { ReadyKeeps }
{}
