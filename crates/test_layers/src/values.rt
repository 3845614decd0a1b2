//! Values that code and contracts share.
use bytes::{ByteStr, Bytes};
use journal_model::{
    Answer, AwaitedFuture, CANCEL_NOTIFICATION_HANDLE, Moment, NotificationHandle, PayloadOptions,
    UnresolvedFuture,
};
use std::alloc::{AllocError, Global};
use std::test::Fail;
use std::time::Duration;
use straight_values::{bytes_of, count_of, later, number_in, text_of};

/// Whether a copy is equal to what it is a copy of.
fn is_copied<T: Clone + PartialEq + Drop>(one: T) -> Result<bool, AllocError> {
    let copy = one.clone()?;
    let is_equal = copy == one;
    drop((copy, one));
    Ok(is_equal)
}

/// Whether handles, options and moments keep what they are made of.
fn are_kept() -> bool {
    let moment = Moment::new(Duration::from_secs(2));
    u32::from(NotificationHandle::new(17)) == 17
        && NotificationHandle::from(17u32).number() == 17
        && CANCEL_NOTIFICATION_HANDLE.number() == 1
        && !PayloadOptions::stable_serialization().unstable_serialization
        && PayloadOptions::unstable_serialization().unstable_serialization
        && moment.duration() == Duration::from_secs(2)
}

/// A future of two notifications.
fn two(alloc: Global) -> Result<UnresolvedFuture, AllocError> {
    let handles = (NotificationHandle::new(17), NotificationHandle::new(18));
    let two = UnresolvedFuture::two(alloc, handles.0, handles.1)?;
    Ok(UnresolvedFuture::AllCompleted(two))
}

/// Whether a future is that of one notification.
fn is_single(awaited: AwaitedFuture, handle: NotificationHandle) -> bool {
    let future = awaited.into_future();
    let is_single = future == UnresolvedFuture::from(handle);
    drop(future);
    is_single
}

/// Whether a future that is awaited is copied.
fn is_awaited_copied() -> Result<bool, AllocError> {
    let first = NotificationHandle::new(17);
    let copy = AwaitedFuture::new(UnresolvedFuture::from(first)).clone()?;
    Ok(is_single(copy, first) && is_single(AwaitedFuture::single(first), first))
}

#[test]
fn values_and_their_copies(rt: HostRuntime) -> Result<(), Fail> {
    assert!(rt; are_kept());
    assert!(rt; is_copied(two(rt.alloc())?)?);
    assert!(rt; is_awaited_copied()?);
    let answer = Answer::Awakeable {
        id: ByteStr::from_static("sign_1aW52MQAAABE"),
        handle: NotificationHandle::new(17),
    };
    assert!(rt; is_copied(answer)?);
    Ok(())
}

/// Whether a number is read back from its bytes, and a moment is so far behind it.
fn is_read_back(alloc: Global) -> Result<bool, AllocError> {
    let seven = bytes_of(alloc, 7)?;
    let is_seven = number_in(&seven) == 7;
    let is_later = later(&seven, 3).duration() == Duration::from_millis(10);
    let value = Some(seven);
    let is_counted = count_of(&value) == 7 && count_of(&None) == 0;
    drop(value);
    Ok(is_seven && is_later && is_counted)
}

/// Whether a number is told in its digits.
fn is_told(alloc: Global) -> Result<bool, AllocError> {
    let text = text_of(alloc, 70)?;
    let is_told = text == Bytes::from_static(b"70");
    drop(text);
    Ok(is_told)
}

#[test]
fn numbers_and_their_bytes(rt: HostRuntime) -> Result<(), Fail> {
    assert!(rt; is_read_back(rt.alloc())?);
    assert!(rt; is_told(rt.alloc())?);
    Ok(())
}
