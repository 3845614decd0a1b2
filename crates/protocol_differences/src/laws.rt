//! Laws of printed differences. Each function does nothing: its contract is the law.
ghost use Rattle.std.specs.Prelude.{◌≡◌, [], false};
ghost use Rattle.protocol_equality.specs.Laws.{AreHeaderEqual};

use crate::CommandMessageHeaderDiff;

/// Where two commands are not header-equal with their payloads, at least one line is printed; and where they are, none is.
pub fn differences_are_shown<M: CommandMessageHeaderDiff>()
    ensures shown { (x y : M) → (AreHeaderEqual M.erased false x y → ⊥) → M.difference x y ≡ [] → ⊥ }
    ensures silent { (x y : M) → AreHeaderEqual M.erased false x y → M.difference x y ≡ [] }
{}
