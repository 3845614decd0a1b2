//! Several values at once, each of which may have been refused memory.
//!
//! A record with many owned fields is put together by one `?`: a way out at each field would have to let go of all fields
//! before it.

ghost use Rattle.std.specs.Prelude.{◌≡◌, Ok, IfOk, IsOk};

use std::alloc::AllocError;

/// Both values, where both are there.
pub fn both<A: Drop, B: Drop>(
    first: Result<A, AllocError>,
    second: Result<B, AllocError>,
) -> Result<(A, B), AllocError>
    ensures values { IfOk result (λ all. (first ≡ Ok all.0) × (second ≡ Ok all.1)) }
    ensures kept { IsOk first → IsOk second → IsOk result }
{
    match (first, second) {
        (Ok(first), Ok(second)) => Ok((first, second)),
        _ => Err(AllocError),
    }
}

/// All three values, where all are there.
pub fn all_three<A: Drop, B: Drop, C: Drop>(
    first: Result<A, AllocError>,
    second: Result<B, AllocError>,
    third: Result<C, AllocError>,
) -> Result<(A, B, C), AllocError>
    ensures values { IfOk result (λ all. (first ≡ Ok all.0) × (second ≡ Ok all.1) × (third ≡ Ok all.2)) }
    ensures kept { IsOk first → IsOk second → IsOk third → IsOk result }
{
    match (first, second, third) {
        (Ok(first), Ok(second), Ok(third)) => Ok((first, second, third)),
        _ => Err(AllocError),
    }
}
