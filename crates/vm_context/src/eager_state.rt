// What is known of the object's state without asking the runtime.
ghost use Rattle.std.specs.Prelude.{◌≡◌, ◌∷◌, ◌++◌, [], true, Some, None, IfOk, OnOk, OnErr};
ghost use Rattle.std.specs.FinMap.{put};
ghost use Rattle.std.specs.Option.{option_copied};
ghost use Rattle.journal_model.specs.Request.{Request};
ghost use Rattle.journal_model.specs.State.{bytes_cmp, state_keys};
ghost use Rattle.vm_context.specs.Eager.{valued, with_known, all_cleared, entries_with, known_from, told_of, told_value, told_keys, tells_value, tells_keys};
ghost use Rattle.vm_context.specs.StateKnowledge.{KnowsState, start_state_of, Follows, TellsValue, TellsKeys};

use bytes::{ByteStr, Bytes};
use sequence::Sequence;
use std::alloc::{AllocError, Global};
use std::collections::BTreeMap;
use std::marker::Model;

/// What is known of a key.
#[derive(Debug, PartialEq, Eq, Drop)]
pub enum EagerGetState {
    /// Whether the key has a value has to be asked for.
    Unknown,
    /// The key has no value.
    Empty,
    Value(Bytes),
}

/// What is known of the keys.
#[derive(Debug, PartialEq, Eq, Drop)]
pub enum EagerGetStateKeys {
    /// Which keys have a value has to be asked for.
    Unknown,
    /// All that have a value, in byte order.
    Keys(Sequence<ByteStr>),
}

/// By key, the value that it is known to have, or that it is known to have none. A look takes a time that grows with the
/// logarithm of their number, and the keys stand in byte order.
type KnownValues = BTreeMap<ByteStr, Option<Bytes>>;

/// What is known of the object's state: what the start has shown, and what was written since.
///
/// A contract says it as `KnowsState` does, by the start's state and the requests that were matched and written.
#[derive(Debug, Drop)]
pub struct EagerState {
    is_partial: bool,
    /// Of a key that is known to have no value, none.
    values: KnownValues,
}

impl Model for EagerState {
    ghost use Rattle.vm_context.specs.Eager.{KnownState};

    ghost Value = { KnownState };

    ghost view = { λ state. record { is_partial = state.is_partial; entries = state.values.entries } };
}

// The entries of these pairs: of equal keys the last. Keys that ascend are each compared with their neighbours alone.
fn entries_of(alloc: Global, pairs: Vec<(ByteStr, Bytes)>) -> Result<KnownValues, AllocError>
    ensures { IfOk result (λ values. values.entries ≡ entries_with [] pairs.items) }
{
    pairs
        .into_iter()
        .map(|(key, value)| (key, Some(value)))
        .collect(alloc)
}

// What is told of a key of which this is kept.
fn tell_value(kept: Option<&Option<Bytes>>, is_partial: bool) -> Result<EagerGetState, AllocError>
    ensures told { IfOk result (λ told. told ≡ told_of (option_copied kept.entry) is_partial) }
    ensures memory { OnErr result (tells_value (told_of (option_copied kept.entry) is_partial) ≡ true) }
{
    match kept {
        Some(Some(value)) => Ok(EagerGetState::Value(value.clone()?)),
        Some(None) => Ok(EagerGetState::Empty),
        None if is_partial => Ok(EagerGetState::Unknown),
        None => Ok(EagerGetState::Empty),
    }
}

// One more entry is looked at: its key is told where it has a value.
fn push_key(
    keys: &mut Sequence<ByteStr>,
    key: &ByteStr,
    value: &Option<Bytes>,
) -> Result<(), AllocError>
    ensures { OnOk result (keys.new ≡ keys.old ++ state_keys (valued ((key.now, value.now) ∷ []))) }
{
    if value.is_some() {
        keys.push(key.clone()?)?;
    }
    Ok(())
}

// The keys that have a value, in byte order.
fn keys_with_value(alloc: Global, values: &KnownValues) -> Result<Sequence<ByteStr>, AllocError>
    ensures { IfOk result (λ keys. keys ≡ state_keys (valued values.now.entries)) }
{
    let mut keys = Sequence::new(alloc);
    for (key, value) in values {
        push_key(&mut keys, key, value)?;
    }
    Ok(keys)
}

// The key has this value, or is known to have none.
fn keep(values: &mut KnownValues, key: ByteStr, value: Option<Bytes>) -> Result<(), AllocError>
    ensures ok { OnOk result (values.new.entries ≡ put bytes_cmp key value values.old.entries) }
    ensures err { OnErr result (values.new.entries ≡ values.old.entries) }
{
    values.insert(key, value)?;
    Ok(())
}

impl EagerState {
    /// What a start shows: these pairs, of equal keys the last, and of other keys nothing where it is partial.
    pub fn new(
        alloc: Global,
        is_partial: bool,
        pairs: Vec<(ByteStr, Bytes)>,
    ) -> Result<EagerState, AllocError>
        ensures made { IfOk result (λ state. state ≡ known_from is_partial pairs.items) }
        ensures knows { IfOk result (λ state. KnowsState state (start_state_of is_partial pairs.items) []) }
    {
        let values = entries_of(alloc, pairs)?;
        Ok(EagerState { is_partial, values })
    }

    /// What is known of a key. Memory is asked for a value's copy alone, which shares its bytes.
    pub fn get(&self, key: &ByteStr) -> Result<EagerGetState, AllocError>
        ensures told { IfOk result (λ told. told ≡ told_value self.now key.now) }
        ensures request { IfOk result (TellsValue self.now key.now) }
        ensures memory { OnErr result (tells_value (told_value self.now key.now) ≡ true) }
    {
        tell_value(self.values.get(key), self.is_partial)
    }

    /// What is known of the keys.
    pub fn get_keys(&self, alloc: Global) -> Result<EagerGetStateKeys, AllocError>
        ensures told { IfOk result (λ told. told ≡ told_keys self.now) }
        ensures request { IfOk result (TellsKeys self.now) }
        ensures memory { OnErr result (tells_keys (told_keys self.now) ≡ true) }
    {
        if self.is_partial {
            return Ok(EagerGetStateKeys::Unknown);
        }
        let keys = keys_with_value(alloc, &self.values)?;
        Ok(EagerGetStateKeys::Keys(keys))
    }

    /// The key has this value from now on.
    pub fn set(&mut self, key: ByteStr, value: Bytes) -> Result<(), AllocError>
        ensures ok { OnOk result (self.new ≡ with_known self.old key (Some value)) }
        ensures knows { OnOk result (Follows (λ name. Request.SetState key value name) self.old self.new) }
        ensures err { OnErr result (self.new ≡ self.old) }
    {
        keep(&mut self.values, key, Some(value))
    }

    /// The key has no value from now on.
    pub fn clear(&mut self, key: ByteStr) -> Result<(), AllocError>
        ensures ok { OnOk result (self.new ≡ with_known self.old key None) }
        ensures knows { OnOk result (Follows (λ name. Request.ClearState key name) self.old self.new) }
        ensures err { OnErr result (self.new ≡ self.old) }
    {
        keep(&mut self.values, key, None)
    }

    /// No key has a value from now on.
    pub fn clear_all(&mut self)
        ensures cleared { self.new ≡ all_cleared }
        ensures knows { Follows (λ name. Request.ClearAllState name) self.old self.new }
    {
        self.values.clear();
        self.is_partial = false;
    }
}
