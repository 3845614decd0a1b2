// The attempts that are held.
ghost use Rattle.std.specs.Prelude.{◌≡◌, ◌+◌, ◌<◌, [], ◌∷◌, ◌++◌, vec_len, vec_capacity, OnOk, OnErr, IfErr, IfOk};
ghost use Rattle.std.specs.Borrow.{sem};
ghost use Rattle.std.specs.Option.{option_copied_mut, option_map};
ghost use Rattle.schedule_model.specs.HeldAttempts.{held_of};
ghost use Rattle.schedule_model.specs.Lends.{held_as, lends_attempt};
ghost use Rattle.schedule_model.specs.LettingGo.{HasPlaces, left_of};

use crate::held::HeldAttempt;
use crate::kept::KeptAttempt;
use crate::leaving::{PlacesLeft, keep_left, places_left};
use crate::places::AttemptPlaces;
use bytes::ByteStr;
use std::alloc::{AllocError, AllocFailed, Global};
use std::marker::Model;
use std::mem::replace;

/// The attempts that a scheduler began and has not let go of, in the order of their begins, each found by its invocation and number.
///
/// Contracts see the list of them. Where two are of one invocation and number, the first is found.
#[derive(Drop)]
pub struct HeldAttempts<H> {
    alloc: Global,
    attempts: Vec<HeldAttempt<H>>,
    places: AttemptPlaces,
}

impl<H> Model for HeldAttempts<H> {
    ghost use Rattle.std.specs.Prelude.{List};
    ghost use Rattle.std.specs.Coded.{coded_list};
    ghost use Rattle.schedule_model.specs.declared.held.HeldAttempt.{HeldAttempt};
    ghost use Rattle.schedule_model.specs.HeldCode.{held_code};
    ghost use Rattle.schedule_model.specs.AttemptIndex.{IsIndexed};

    ghost Value = { List (HeldAttempt H) };

    ghost coded = { coded_list (held_code H.code) };

    ghost view = { λ held. held.attempts.items };

    ghost invariant = { λ held. IsIndexed held.places held.attempts.items };
}

/// Puts an attempt behind the others, for which there is room.
fn put<H>(attempts: &mut Vec<HeldAttempt<H>>, one: HeldAttempt<H>)
    requires { vec_len attempts.old < vec_capacity attempts.old }
    ensures { attempts.new.items ≡ attempts.old.items ++ one ∷ [] }
{
    attempts.push(one).unwrap();
}

impl<H> HeldAttempts<H> {
    /// None is held.
    pub fn new(alloc: Global) -> HeldAttempts<H>
        ensures { result ≡ [] }
    {
        HeldAttempts {
            alloc,
            attempts: Vec::new(alloc),
            places: AttemptPlaces::new(alloc),
        }
    }

    /// One more is held, behind the others. Where there is no memory for it, it is given back.
    pub fn push(&mut self, one: HeldAttempt<H>) -> Result<(), AllocFailed<HeldAttempt<H>>>
        ensures ok { OnOk result (self.new ≡ self.old ++ one ∷ []) }
        ensures value { IfErr result (λ refused. refused.value ≡ one) }
        ensures err { OnErr result (self.new ≡ self.old) }
    {
        if self.attempts.reserve(1).is_err() {
            return Err(AllocFailed { value: one });
        }
        let place = self.attempts.len();
        match self
            .places
            .note(self.alloc, &one.invocation, one.number, place)
        {
            Ok(()) => {
                put(&mut self.attempts, one);
                Ok(())
            }
            Err(_) => Err(AllocFailed { value: one }),
        }
    }

    /// The first attempt of this invocation and number.
    ///
    /// A look-up takes the same time however many attempts are held, and asks for no memory.
    pub fn get_mut(&mut self, invocation: &ByteStr, number: u32) -> Option<&mut KeptAttempt<H>>
        ensures* writes_back { sem 𝓛 (lends_attempt H.row self.entry invocation.now number result) }
        ensures found { option_map (held_as invocation.now number) (option_copied_mut result) ≡ held_of self.old invocation.now number }
    {
        match self.places.place(invocation, number) {
            None => None,
            Some(place) => {
                let one = &mut self.attempts[place];
                Some(&mut one.attempt)
            }
        }
    }

    /// Room for letting go of the attempts of these invocations, or, where a number is told, of those among them that have it. Nothing
    /// is let go of yet.
    pub fn room_without(
        &self,
        ids: &[ByteStr],
        number: Option<u32>,
    ) -> Result<PlacesLeft, AllocError>
        ensures { IfOk result (λ room. HasPlaces room (left_of ids.now number self.now)) }
    {
        let places = places_left(self.alloc, self.attempts.as_slice(), ids, number)?;
        Ok(PlacesLeft { places })
    }

    /// Lets go of them, for which there is room. The others stay in their order. It takes time by how many are held.
    pub fn let_go(&mut self, ids: &[ByteStr], number: Option<u32>, room: PlacesLeft)
    where
        H: Drop,
        requires { HasPlaces room (left_of ids.now number self.old) }
        ensures { self.new ≡ left_of ids.now number self.old }
    {
        let PlacesLeft { places } = room;
        keep_left(&mut self.attempts, ids, number);
        drop(replace(&mut self.places, places));
    }
}
