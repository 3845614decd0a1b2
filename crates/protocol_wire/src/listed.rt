//! The fields of a payload, listed once, so that each is selected with no look at the bytes before it.

ghost use Rattle.std.specs.Prelude.{◌≡◌, ◌≤◌, [], ◌∷◌, ◌++◌, length, map, take, IfNone, IfSome};
ghost use Rattle.protocol_wire.specs.Fields.{fields, are_fields};
ghost use Rattle.protocol_wire.specs.CodeFields.{field as seen};
ghost use Rattle.protocol_wire.specs.ComingFields.{coming, are_all};

use crate::field::field_at;
use crate::{Scanned, ScannedField};
use std::marker::Model;

/// So many fields of a payload are listed. Those behind them are read anew each time, so no payload makes the list grow.
const LISTED: usize = 16;

/// Room for the fields of a payload that are listed.
pub type Room<'a> = [ScannedField<'a>; LISTED];

/// A room with no field of a payload yet.
pub fn empty_room<'a>() -> Room<'a>
    ensures { length result ≡ 16 }
{
    [ScannedField {
        number: 0,
        value: Scanned::Fixed,
    }; LISTED]
}

/// The fields of a payload that are still to come, up to where none is read.
#[derive(Clone, Copy)]
pub struct Fields<'a> {
    pub(crate) listed: &'a [ScannedField<'a>],
    pub(crate) rest: &'a [u8],
}

impl<'a> Fields<'a> {
    /// The first field, and those after it.
    pub(crate) fn split_first(self) -> Option<(ScannedField<'a>, Fields<'a>)>
        ensures none { IfNone result (coming self.entry ≡ []) }
        ensures some { IfSome result (λ x. coming self.entry ≡ seen x.0 ∷ coming x.1) }
        ensures kept { IfSome result (λ x. are_all self.entry ≡ are_all x.1) }
    {
        match self.listed.split_first() {
            Some((first, listed)) => Some((
                *first,
                Fields {
                    listed,
                    rest: self.rest,
                },
            )),
            None => {
                if self.rest.is_empty() {
                    return None;
                }
                let (field, rest) = field_at(self.rest)?;
                Some((
                    field,
                    Fields {
                        listed: self.listed,
                        rest,
                    },
                ))
            }
        }
    }
}

impl<'a> Iterator for Fields<'a> {
    type Item = ScannedField<'a>;

    ghost use Rattle.protocol_wire.specs.ComingFields.{coming};
    ghost use Rattle.protocol_wire.specs.CodeFields.{field};
    ghost use Rattle.std.specs.Iterator.{YieldsFirstBy, item_count};

    ghost next_gives = { YieldsFirstBy field coming };

    ghost remaining = { item_count coming };

    fn next(&mut self) -> Option<ScannedField<'a>> {
        let (field, rest) = self.split_first()?;
        *self = rest;
        Some(field)
    }
}

/// A payload, the first of whose fields may be listed. Contracts see its bytes.
#[derive(Drop)]
pub struct Payload<'a> {
    pub(crate) bytes: &'a [u8],
    pub(crate) listed: &'a [ScannedField<'a>],
    pub(crate) rest: &'a [u8],
}

impl<'a> Model for Payload<'a> {
    ghost use Rattle.std.specs.Prelude.{List, ℕ};

    ghost Value = { List ℕ };

    ghost use Rattle.protocol_wire.specs.IsListed.{IsListed};

    ghost view = { λ p. p.bytes.now };

    ghost invariant = { IsListed };
}

impl<'a> Payload<'a> {
    /// The payload, none of whose fields is listed: as it is best where there are few.
    pub fn new(bytes: &'a [u8]) -> Payload<'a>
        ensures { result ≡ bytes.now }
    {
        Payload {
            bytes,
            listed: &[],
            rest: bytes,
        }
    }

    /// The payload, whose first fields are listed in the room.
    pub fn listed_in<'r>(bytes: &'a [u8], room: &'r mut Room<'a>) -> Payload<'r>
        ensures { result ≡ bytes.now }
    {
        let (count, rest) = list_fields(bytes, room);
        Payload {
            bytes,
            listed: &room[..count],
            rest,
        }
    }

    /// Its fields, from the first on.
    pub fn fields(&self) -> Fields<'_>
        ensures all { coming result ≡ fields self.now }
        ensures whole { are_all result ≡ are_fields self.now }
    {
        Fields {
            listed: self.listed,
            rest: self.rest,
        }
    }
}

/// Lists the first fields. Tells how many they are, and the bytes behind them.
fn list_fields<'a>(bytes: &'a [u8], room: &mut Room<'a>) -> (usize, &'a [u8])
    ensures count { result.0 ≤ 16 }
    ensures all { map seen (take result.0 room.new) ++ fields result.1.now ≡ fields bytes.now }
    ensures whole { are_fields result.1.now ≡ are_fields bytes.now }
{
    let mut count = 0;
    let mut rest = bytes;
    while count < LISTED {
        let Some((field, after)) = field_at(rest) else {
            break;
        };
        room[count] = field;
        count += 1;
        rest = after;
    }
    (count, rest)
}
