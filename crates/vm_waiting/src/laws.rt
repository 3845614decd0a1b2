// A law: what an attempt that waits tells is what its run still waits for.
ghost use Rattle.vm_waiting.specs.WaitReport.{WaitsTellAsRun};

/// What an await that waits tells, and what its suspension tells, is what the run still waits for.
pub fn waits_tell_as_run()
    ensures { WaitsTellAsRun }
{}
