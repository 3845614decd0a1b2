// What a start tells.
ghost use Rattle.std.specs.Prelude.{◌≡◌, ◌++◌, ◌∷◌, [], IsUtf8, IfOk, OnOk, IfErr};
ghost use Rattle.vm_start.specs.Starts.{pair_of, pairs_of, without_state, AreText, IsNoText, BeginsStarted, KeyFails, KeysFail, StartFails};

use crate::error::StartError;
use bytes::{ByteStr, Bytes};
use protocol_errors::BadEagerStateKeyError;
use protocol_records::{StartMessage, StateEntry};
use sequence::Sequence;
use std::alloc::Global;
use std::mem::replace;
use vm_context::EagerState;

/// What a start tells of its attempt.
#[derive(Debug, Drop)]
pub struct Started {
    /// The start, without the pairs of its state.
    pub start: StartMessage,
    /// What is known of the object's state.
    pub state: EagerState,
}

// The pair of an entry, its key as a text.
fn text_pair(entry: StateEntry) -> Result<(ByteStr, Bytes), BadEagerStateKeyError>
    ensures ok { IfOk result (λ pair. (pair.0 ≡ entry.key) × (pair.1 ≡ entry.value)) }
    ensures text { IfOk result (λ pair. IsUtf8 entry.key) }
    ensures err { IfErr result (λ error. IsNoText entry.key error) }
{
    let StateEntry { key, value } = entry;
    match ByteStr::from_utf8(key) {
        Ok(key) => Ok((key, value)),
        Err(error) => Err(BadEagerStateKeyError(error)),
    }
}

// One more pair.
fn push_pair(pairs: &mut Vec<(ByteStr, Bytes)>, entry: StateEntry) -> Result<(), StartError>
    ensures ok { OnOk result (pairs.new.items ≡ pairs.old.items ++ pair_of entry ∷ []) }
    ensures text { OnOk result (IsUtf8 entry.key) }
    ensures err { IfErr result (KeyFails entry.key) }
{
    match text_pair(entry) {
        Ok(pair) => {
            pairs.push(pair)?;
            Ok(())
        }
        Err(error) => Err(StartError::BadStateKey(error)),
    }
}

// The pairs of a state, in their order, each key as a text.
fn text_pairs(alloc: Global, entries: Vec<StateEntry>) -> Result<Vec<(ByteStr, Bytes)>, StartError>
    ensures ok { IfOk result (λ pairs. pairs.items ≡ pairs_of entries.items) }
    ensures text { OnOk result (AreText entries.items) }
    ensures err { IfErr result (KeysFail entries.items) }
{
    let mut pairs = Vec::new(alloc);
    for entry in entries {
        push_pair(&mut pairs, entry)?;
    }
    Ok(pairs)
}

// The entries of a start's state, and the rest of the start.
fn split_state(alloc: Global, start: StartMessage) -> (StartMessage, Vec<StateEntry>)
    ensures rest { result.0 ≡ without_state start }
    ensures state { result.1.items ≡ start.state_map }
{
    let mut start = start;
    let state = replace(&mut start.state_map, Sequence::new(alloc));
    (start, state.into_vec())
}

/// Reads what a start tells. The keys of its state are to be text, and it is to announce an entry at least: of both that fail
/// the key is told. Of equal keys the last stands.
///
/// Nothing of the state is copied.
pub fn read_start(alloc: Global, start: StartMessage) -> Result<Started, StartError>
    ensures ok { IfOk result (BeginsStarted start) }
    ensures err { IfErr result (StartFails start) }
{
    let (start, entries) = split_state(alloc, start);
    let pairs = text_pairs(alloc, entries)?;
    if start.known_entries == 0 {
        return Err(StartError::KnownEntriesIsZero);
    }
    let state = EagerState::new(alloc, start.partial_state, pairs)?;
    Ok(Started { start, state })
}
