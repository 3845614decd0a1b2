// What holds of frames and of attempts, for whoever takes a frame. The functions do nothing: their contracts are the laws.
ghost use Rattle.store_steps.specs.LiveAreOpen.{LiveAreOpen};

/// An invocation with a live attempt is open.
pub fn live_are_open()
    ensures { LiveAreOpen }
{}
