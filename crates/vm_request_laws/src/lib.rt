//! Which requests are within what the records of the protocol hold: their frames are read back, and what calls make is. And what trees over
//! its handles a machine tells, and which child a cancellation waits for. Each function does nothing: its contract is the law.
#![tactic(auto)]

ghost use Rattle.vm_request_laws.specs.Requests.{RequestsReadBack};
ghost use Rattle.vm_request_laws.specs.MadeRequests.{CallsMakeFit};
ghost use Rattle.vm_request_laws.specs.AwaitedTrees.{AwaitedTreesFit};
ghost use Rattle.vm_request_laws.specs.Machines.{MachinesFit};

/// A machine that is fed a request's frame is handed that request.
pub fn requests_read_back()
    ensures { RequestsReadBack }
{}

/// Each request that a call makes fits, of a call that is not refused, of ids that are left, and with a payload that a frame can have.
pub fn calls_make_fit()
    ensures { CallsMakeFit }
{}

/// The leaves of trees over handles fit, if what these stand for does; so do those of what is left of a tree. The child that a
/// cancellation waits for is one that a call has made, so its id fits too. A tree whose leaves fit has a record that fits, if it is
/// nested no deeper than that can tell.
pub fn awaited_trees_fit()
    ensures { AwaitedTreesFit }
{}

/// What the handles of a machine stand for fits: behind each typed call for which there are ids left, and wherever the machine stands in
/// a run of such calls.
pub fn machines_fit()
    ensures { MachinesFit }
{}
