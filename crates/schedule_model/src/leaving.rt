// Which attempts are let go of, and where those stand that are left.
ghost use Rattle.std.specs.Prelude.{◌≡◌, IfOk};
ghost use Rattle.schedule_model.specs.AttemptIndex.{IsIndexed};
ghost use Rattle.schedule_model.specs.LettingGo.{goes, is_among, is_numbered, left_of};

use crate::held::HeldAttempt;
use crate::places::AttemptPlaces;
use bytes::ByteStr;
use std::alloc::{AllocError, Global};

/// Where the attempts that are left will stand, once some are let go of: all the memory that this takes.
#[derive(Drop)]
pub struct PlacesLeft {
    pub(crate) places: AttemptPlaces,
}

/// Whether an invocation is one of these.
fn is_among(ids: &[ByteStr], id: &ByteStr) -> bool
    ensures { result ≡ is_among ids.now id.now }
{
    for other in ids {
        if other == id {
            return true;
        }
    }
    false
}

/// Whether a number is this one, where one is told.
fn is_numbered(number: Option<u32>, other: u32) -> bool
    ensures { result ≡ is_numbered number other }
{
    match number {
        Some(number) => other == number,
        None => true,
    }
}

/// Whether an attempt is one of these invocations', and has this number, where one is told.
fn goes<H>(one: &HeldAttempt<H>, ids: &[ByteStr], number: Option<u32>) -> bool
    ensures { result ≡ goes ids.now number one.now.invocation one.now.number }
{
    is_among(ids, &one.invocation) && is_numbered(number, one.number)
}

/// Where those stand that are left.
pub(crate) fn places_left<H>(
    alloc: Global,
    attempts: &[HeldAttempt<H>],
    ids: &[ByteStr],
    number: Option<u32>,
) -> Result<AttemptPlaces, AllocError>
    ensures { IfOk result (λ places. IsIndexed places (left_of ids.now number attempts.now)) }
{
    let mut places = AttemptPlaces::new(alloc);
    let mut count = 0;
    for one in attempts {
        if !goes(one, ids, number) {
            places.note(alloc, &one.invocation, one.number, count)?;
            count += 1;
        }
    }
    Ok(places)
}

/// Those that are left stay.
pub(crate) fn keep_left<H: Drop>(
    attempts: &mut Vec<HeldAttempt<H>>,
    ids: &[ByteStr],
    number: Option<u32>,
)
    ensures { attempts.new.items ≡ left_of ids.now number attempts.old.items }
{
    attempts.retain(|one| !goes(one, ids, number));
}
