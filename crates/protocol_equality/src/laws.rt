//! Laws of header equality. Each function does nothing: its contract is the law.
ghost use Rattle.std.specs.Prelude.{◌≡◌, Bool, true, false};
ghost use Rattle.protocol_equality.specs.Laws.{AreHeaderEqual};

use crate::CommandMessageHeaderEq;

/// Every command is header-equal to itself; the other way round two are as they are this way; and two that are both
/// header-equal to a third are so to each other: whether payloads are ignored or not. Commands that are header-equal where
/// payloads are compared are so where they are ignored.
pub fn header_equality_is_an_equivalence<M: CommandMessageHeaderEq>()
    ensures reflexive { (ignoring : Bool) (x : M) → AreHeaderEqual M.erased ignoring x x }
    ensures symmetric { (ignoring : Bool) (x y : M) → AreHeaderEqual M.erased ignoring x y → AreHeaderEqual M.erased ignoring y x }
    ensures transitive { (ignoring : Bool) (x y z : M) → AreHeaderEqual M.erased ignoring x y → AreHeaderEqual M.erased ignoring y z → AreHeaderEqual M.erased ignoring x z }
    ensures coarser { (x y : M) → AreHeaderEqual M.erased false x y → AreHeaderEqual M.erased true x y }
{}
