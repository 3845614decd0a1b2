// Ephemeral reads, by number.
ghost use Rattle.std.specs.Prelude.{◌≡◌, ◌<◌, ◌+◌, ◌^◌, ◌≤◌, ◌↔◌, ℕ, ◌||◌, true, length, is_some, None, SomeIff, IsSome, IfSome, IfOk, OnOk, OnErr, IsErrOf};
ghost use Rattle.std.specs.List.{list_any};
ghost use Rattle.std.specs.Map.{lookup};
ghost use Rattle.std.specs.BTreeMap.{is_at, insert_entry};
ghost use Rattle.std.specs.BTreeSet.{insert_key};
ghost use Rattle.std.specs.Ordering.{nat_cmp};
ghost use Rattle.vm_types.specs.Reads.{no_reads, asked, known, is_in_flight, answer_of, after_answer, reads_after_take, least_of};
ghost use Rattle.vm_types.specs.declared.commands.RegisterError.TheVariants.{IdsExhausted, OutOfMemory};

use crate::EphemeralCompletionId;
use journal_model::Value;
use std::alloc::{AllocError, Global};
use std::collections::{BTreeMap, BTreeSet};
use std::marker::Model;

/// The ephemeral reads of one attempt.
///
/// A read that the runtime was asked for is in flight until it is answered; then its answer is ready, until it is taken. A look
/// takes a time that grows with the logarithm of how many there are.
#[derive(Debug, Drop)]
pub struct EphemeralCommands {
    /// The number that was taken last.
    last_completion_id: u32,
    in_flight: BTreeSet<u32>,
    ready: BTreeMap<u32, Value>,
}

/// Why no read was registered.
#[derive(Clone, Copy, Debug, PartialEq, Eq)]
pub enum RegisterError {
    /// V3: every number that a read may have was taken.
    IdsExhausted,
    OutOfMemory,
}

impl Model for EphemeralCommands {
    ghost use Rattle.std.specs.Prelude.{◌+◌};
    ghost use Rattle.vm_types.specs.Reads.{EphemeralReads};

    ghost Value = { EphemeralReads };

    ghost view = { λ commands. record {
      next = commands.last_completion_id + 1;
      in_flight = commands.in_flight.keys;
      ready = commands.ready.entries;
    } };
}

impl From<AllocError> for RegisterError {
    ghost from_gives = { λ _ error. error ≡ OutOfMemory };

    fn from(_refused: AllocError) -> RegisterError {
        RegisterError::OutOfMemory
    }
}

// The number behind this one.
fn number_behind(last: u32) -> Option<u32>
    ensures { SomeIff result (last + 1 < 2 ^ 32) (last + 1) }
{
    last.checked_add(1)
}

// Whether an answer of this number is waited for, or was not taken.
fn is_known(in_flight: &BTreeSet<u32>, ready: &BTreeMap<u32, Value>, number: u32) -> bool
    ensures { result ≡ (list_any (is_at (nat_cmp number)) in_flight.now.keys || is_some (lookup (is_at (nat_cmp number)) ready.now.entries)) }
{
    in_flight.contains(&number) || ready.contains_key(&number)
}

// One more waits for its answer.
fn ask(in_flight: &mut BTreeSet<u32>, number: u32) -> Result<(), AllocError>
    ensures ok { OnOk result (in_flight.new.keys ≡ insert_key nat_cmp in_flight.old.keys number) }
    ensures err { OnErr result (in_flight.new.keys ≡ in_flight.old.keys) }
{
    in_flight.insert(number)?;
    Ok(())
}

// The answer of one, in place of one that was not taken. Only where there was none memory is asked for.
fn answer(ready: &mut BTreeMap<u32, Value>, number: u32, value: Value) -> Result<(), AllocError>
    ensures ok { OnOk result (ready.new.entries ≡ insert_entry nat_cmp ready.old.entries number value) }
    ensures err { OnErr result (ready.new.entries ≡ ready.old.entries) }
    ensures absent { OnErr result (lookup (is_at (nat_cmp number)) ready.old.entries ≡ None) }
{
    drop(ready.insert(number, value)?);
    Ok(())
}

impl EphemeralCommands {
    /// Nothing was read yet.
    pub fn new(alloc: Global) -> EphemeralCommands
        ensures { result ≡ no_reads }
    {
        EphemeralCommands {
            last_completion_id: 0,
            in_flight: BTreeSet::new(alloc),
            ready: BTreeMap::new(alloc),
        }
    }

    /// Whether every number that a read may have was taken.
    pub fn is_exhausted(&self) -> bool
        ensures { (result ≡ true) ↔ (2 ^ 32 ≤ self.now.next) }
    {
        self.last_completion_id == u32::MAX
    }

    /// A read that the runtime is asked for, under the next number.
    pub fn register_in_flight(&mut self) -> Result<EphemeralCompletionId, RegisterError>
        ensures id { IfOk result (λ id. id.number ≡ self.old.next) }
        ensures ok { OnOk result (self.new ≡ asked self.old) }
        ensures exhausted { IsErrOf result IdsExhausted ↔ (2 ^ 32 ≤ self.old.next) }
        ensures err { OnErr result (self.new ≡ self.old) }
    {
        let Some(number) = number_behind(self.last_completion_id) else {
            return Err(RegisterError::IdsExhausted);
        };
        ask(&mut self.in_flight, number)?;
        self.last_completion_id = number;
        Ok(EphemeralCompletionId { number })
    }

    /// A read whose answer is known, under the next number.
    pub fn register_ready(&mut self, value: Value) -> Result<EphemeralCompletionId, RegisterError>
        ensures id { IfOk result (λ id. id.number ≡ self.old.next) }
        ensures ok { OnOk result (self.new ≡ known value self.old) }
        ensures exhausted { IsErrOf result IdsExhausted ↔ (2 ^ 32 ≤ self.old.next) }
        ensures err { OnErr result (self.new ≡ self.old) }
    {
        let Some(number) = number_behind(self.last_completion_id) else {
            drop(value);
            return Err(RegisterError::IdsExhausted);
        };
        answer(&mut self.ready, number, value)?;
        self.last_completion_id = number;
        Ok(EphemeralCompletionId { number })
    }

    /// The runtime has answered. An answer that was not taken is replaced; of a read that waits for none it is ignored.
    pub fn complete(&mut self, id: EphemeralCompletionId, value: Value) -> Result<(), AllocError>
        ensures ok { OnOk result (self.new ≡ after_answer id.number value self.old) }
        ensures err { OnErr result (self.new ≡ self.old) }
        ensures memory { OnErr result (is_in_flight self.old id.number ≡ true) }
    {
        if !is_known(&self.in_flight, &self.ready, id.number) {
            drop(value);
            return Ok(());
        }
        answer(&mut self.ready, id.number, value)?;
        self.in_flight.remove(&id.number);
        Ok(())
    }

    /// The least read whose answer can be taken.
    pub fn least_ready(&self) -> Option<EphemeralCompletionId>
        ensures least { result ≡ least_of self.now }
        ensures below { IfSome result (λ id. (number : ℕ) → IsSome (answer_of self.now number) → id.number ≤ number) }
    {
        match self.ready.first_key_value() {
            Some((number, _)) => Some(EphemeralCompletionId { number: *number }),
            None => None,
        }
    }

    /// Takes the answer of a read, if there is one.
    pub fn take_notification(&mut self, id: EphemeralCompletionId) -> Option<Value>
        ensures value { result ≡ answer_of self.old id.number }
        ensures rest { self.new ≡ reads_after_take id.number self.old }
    {
        self.ready.remove(&id.number)
    }

    /// Whether the runtime has still to answer a read.
    pub fn has_in_flight(&self) -> bool
        ensures { (result ≡ true) ↔ (0 < length self.now.in_flight) }
    {
        !self.in_flight.is_empty()
    }
}
