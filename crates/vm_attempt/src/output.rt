// Bytes that wait to be handed out, in two pieces.
ghost use Rattle.std.specs.Prelude.{◌≡◌, ◌++◌, [], take, drop, IfOk, OnOk};

use bytes::{Bytes, BytesMut};
use std::alloc::{AllocError, Global};
use std::mem::replace;

// One behind the other, each copied once.
fn copy_both(alloc: Global, front: &Bytes, behind: &Bytes) -> Result<Bytes, AllocError>
    ensures { IfOk result (λ bytes. bytes ≡ front.now ++ behind.now) }
{
    let mut both = BytesMut::with_capacity(alloc, front.len().saturating_add(behind.len()))?;
    both.extend_from_slice(front.as_slice())?;
    both.extend_from_slice(behind.as_slice())?;
    match both.freeze() {
        Ok(bytes) => Ok(bytes),
        Err(refused) => {
            drop(refused);
            Err(AllocError)
        }
    }
}

/// Puts the second piece behind the first. One piece alone is not copied.
pub(crate) fn join(alloc: Global, front: &mut Bytes, behind: &mut Bytes) -> Result<(), AllocError>
    ensures same { front.new ++ behind.new ≡ front.old ++ behind.old }
    ensures ok { OnOk result (behind.new ≡ []) }
{
    if behind.is_empty() {
        return Ok(());
    }
    if front.is_empty() {
        drop(replace(front, replace(behind, Bytes::new())));
        return Ok(());
    }
    let both = copy_both(alloc, front, behind)?;
    drop(replace(front, both));
    drop(replace(behind, Bytes::new()));
    Ok(())
}

/// The first bytes of a piece, so many at most, shared with it.
pub(crate) fn first(front: &Bytes, max: usize) -> Result<Bytes, AllocError>
    ensures { IfOk result (λ bytes. bytes ≡ take max front.now) }
{
    let count = max.min(front.len());
    front.slice(..count)
}

/// Drops the first bytes, so many at most. Nothing is copied.
pub(crate) fn advance(front: &mut Bytes, behind: &mut Bytes, count: usize)
    ensures { front.new ++ behind.new ≡ drop count (front.old ++ behind.old) }
{
    if count < front.len() {
        front.advance(count);
        return;
    }
    let rest = count - front.len();
    drop(replace(front, replace(behind, Bytes::new())));
    front.advance(rest.min(front.len()));
}
