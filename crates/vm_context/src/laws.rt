//! Laws of what is kept of an object's state. Nothing calls them: a contract is where a law is proved.
ghost use Rattle.vm_context.specs.StateKnowledge.{OthersKeep};

/// A request that writes or clears nothing of the state leaves what is known of it as it was.
pub fn other_requests_change_nothing()
    ensures { OthersKeep }
{}
