//! In which states a machine is that its host tells and asks whatever it likes. The function does nothing: its contract is the law.
//!
//! Where calls are made of a machine, what it keeps is what an abstract machine keeps of an invocation; or it replays and nothing recorded is
//! left, of which the clauses `spent` speak. In its other phases the clauses about an abstract machine ask nothing.
#![tactic(auto)]

ghost use Rattle.vm_core_laws.specs.CallPreconditions.{CallsSpeak};

/// Whichever calls a machine was asked since it was made, replayed or not, the contract of each further one speaks of it.
pub fn calls_speak()
    ensures { CallsSpeak }
{}
