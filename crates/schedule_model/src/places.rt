// Where attempts stand, by invocation and number.
ghost use Rattle.std.specs.Prelude.{◌≡◌, ℕ, List, OnOk, OnErr, nat_eq, bytes_eq, Some, None, Option};
ghost use Rattle.indexmap.specs.IndexMap.{get};
ghost use Rattle.schedule_model.specs.Places.{Notes, number_in, place_in};

use bytes::ByteStr;
use indexmap::IndexMap;
use std::alloc::{AllocError, Global};

/// Of one invocation, where the attempt of each number stands.
type Numbers = IndexMap<u32, usize>;

/// Where the first attempt of an invocation and a number stands.
///
/// A look-up takes the same time however many there are, and asks for no memory.
#[derive(Drop)]
pub(crate) struct AttemptPlaces {
    invocations: IndexMap<ByteStr, Numbers>,
}

impl AttemptPlaces {
    /// There is none.
    pub(crate) fn new(alloc: Global) -> AttemptPlaces
        ensures { (id : List ℕ) (n : ℕ) → place_in result id n ≡ None }
    {
        AttemptPlaces {
            invocations: IndexMap::new(alloc),
        }
    }

    /// Where it stands.
    pub(crate) fn place(&self, invocation: &ByteStr, number: u32) -> Option<usize>
        ensures { result ≡ place_in self.now invocation.now number }
    {
        match self.invocations.get(invocation) {
            Some(numbers) => numbers.get(&number).copied(),
            None => None,
        }
    }

    /// It stands at this place, where none stands yet.
    pub(crate) fn note(
        &mut self,
        alloc: Global,
        invocation: &ByteStr,
        number: u32,
        place: usize,
    ) -> Result<(), AllocError>
        ensures ok { OnOk result (Notes invocation.now number place self.old self.new) }
        ensures err { OnErr result ((id : List ℕ) (n : ℕ) → place_in self.new id n ≡ place_in self.old id n) }
    {
        if let Some(numbers) = self.invocations.get_mut(invocation) {
            return note_number(numbers, number, place);
        }
        self.invocations.reserve(1)?;
        let mut numbers = IndexMap::new(alloc);
        note_number(&mut numbers, number, place)?;
        let invocation = invocation.clone()?;
        drop(self.invocations.insert(invocation, numbers).unwrap());
        Ok(())
    }
}

/// The attempt of this number stands at this place, where none stands yet.
fn note_number(numbers: &mut Numbers, number: u32, place: usize) -> Result<(), AllocError>
    ensures ok { OnOk result ((n : ℕ) → get nat_eq numbers.new n ≡ number_in number place (get nat_eq numbers.old n) n) }
    ensures err { OnErr result ((n : ℕ) → get nat_eq numbers.new n ≡ get nat_eq numbers.old n) }
{
    if numbers.contains_key(&number) {
        return Ok(());
    }
    match numbers.insert(number, place) {
        Ok(_) => Ok(()),
        Err(_) => Err(AllocError),
    }
}
