//! Whether records that were read stand in the order in which they were asked for.

ghost use Rattle.std.specs.Prelude.{◌≡◌, IsTrue};
ghost use Rattle.store_tables.specs.Questions.{AreInPlace, DoAscend, is_before};

use crate::row::{EntryRow, IdRow, StateRow};

/// Whether the places count up from 0.
#[tactic(auto, using(crate::proofs::Orders::in_place_at))]
pub(crate) fn are_in_place(entries: &[EntryRow]) -> bool
    ensures exact { IsTrue result → AreInPlace 0 entries.now }
    ensures complete { AreInPlace 0 entries.now → IsTrue result }
{
    for (place, entry) in entries.iter().enumerate() {
        if entry.place as usize != place {
            return false;
        }
    }
    true
}

fn is_first(first: &[u8], second: &[u8]) -> bool
    ensures { result ≡ is_before first.now second.now }
{
    first.cmp(second).is_lt()
}

/// Whether each key is before the next.
pub(crate) fn do_states_ascend(states: &[StateRow]) -> bool
    ensures exact { IsTrue result → DoAscend (λ s. s.key) states.now }
    ensures complete { DoAscend (λ s. s.key) states.now → IsTrue result }
{
    for at in 1..states.len() {
        if !is_first(states[at - 1].key.as_slice(), states[at].key.as_slice()) {
            return false;
        }
    }
    true
}

fn is_named_first(first: &IdRow, second: &IdRow) -> bool
    ensures { result ≡ is_before first.now.id second.now.id }
{
    is_first(
        first.id.as_bytes().as_slice(),
        second.id.as_bytes().as_slice(),
    )
}

/// Whether each id is before the next.
pub(crate) fn do_ids_ascend(ids: &[IdRow]) -> bool
    ensures exact { IsTrue result → DoAscend (λ i. i.id) ids.now }
    ensures complete { DoAscend (λ i. i.id) ids.now → IsTrue result }
{
    for at in 1..ids.len() {
        if !is_named_first(&ids[at - 1], &ids[at]) {
            return false;
        }
    }
    true
}
