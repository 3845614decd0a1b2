//! What each call of a store answers and leaves, said of the accepted events and of the bytes that wait, which may come in any cut. The
//! functions do nothing: their contracts are the laws.
#![tactic(auto)]

ghost use Rattle.store_calls.specs.Pieces.{PiecesJoin};

mod begun;

pub use begun::BegunAttempt;

/// What is accepted in one piece and then in a second is recorded as what the two joined would be, and answered so, where nothing is
/// refused for want of memory or by a statement.
pub fn pieces_join()
    ensures { PiecesJoin }
{}
