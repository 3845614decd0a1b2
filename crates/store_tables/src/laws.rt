//! Laws of the writes of a store. The function does nothing: its contract is the law.
ghost use Rattle.store_tables.specs.Refusals.{RulesRefuse};

/// Over the tables of a store SQL's own rules refuse a write only where a row finds no place, or where a limit on steps is met. They
/// find no fault with a text, a type, a value that lacks, a check or a reference.
pub fn refused_for_place()
    ensures writes { RulesRefuse }
{}
