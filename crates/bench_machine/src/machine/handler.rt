// The handler: it sleeps and calls in turn.
use crate::fault::Fault;
use crate::protocol::PIECE;
use bytes::{ByteStr, Bytes};
use invocation_vm::{
    AwaitResponse, Moment, NotificationHandle, PayloadOptions, Sequence, Target, UnresolvedFuture,
    VM, VMOptions, Version,
};
use std::alloc::Global;

/// A machine that was told nothing yet.
pub fn begin<V: VM>(alloc: Global) -> Result<V, Fault> {
    let mut headers = Vec::new(alloc);
    headers.push((
        ByteStr::from_static("content-type"),
        ByteStr::from_static(Version::V7.content_type()),
    ))?;
    let made = V::new(alloc, &headers, VMOptions::default());
    drop(headers);
    Ok(made?)
}

fn sleep<V: VM>(vm: &mut V) -> Result<NotificationHandle, Fault> {
    Ok(vm.sys_sleep(ByteStr::new(), Moment::from_millis(10), None)?)
}

fn call<V: VM>(alloc: Global, vm: &mut V) -> Result<NotificationHandle, Fault> {
    let target = Target {
        service: ByteStr::from_static("Greeter"),
        handler: ByteStr::from_static("greet"),
        key: None,
        idempotency_key: None,
        scope: None,
        limit_key: None,
        headers: Sequence::new(alloc),
    };
    let parameter = Bytes::from_static(b"\"Ada\"");
    let made = vm.sys_call(target, parameter, None, PayloadOptions::default())?;
    Ok(made.call_notification_handle)
}

// What the handle stands for has come, and is taken.
fn take<V: VM>(vm: &mut V, handle: NotificationHandle) -> Result<(), Fault> {
    let response = vm.do_await(UnresolvedFuture::Single(handle))?;
    if response != AwaitResponse::AnyCompleted {
        return Err(Fault::Machine);
    }
    drop(vm.take_notification(handle)?);
    Ok(())
}

fn take_both<V: VM>(alloc: Global, vm: &mut V) -> Result<(), Fault> {
    let slept = sleep(vm)?;
    take(vm, slept)?;
    let answer = call(alloc, vm)?;
    take(vm, answer)
}

fn feed<V: VM>(alloc: Global, vm: &mut V, journal: &[u8]) -> Result<(), Fault> {
    for piece in journal.chunks(PIECE) {
        vm.notify_input(Bytes::copy_from_slice(alloc, piece)?);
    }
    Ok(())
}

/// Goes over a whole journal of so many sleeps and calls.
pub fn replay<V: VM>(alloc: Global, vm: &mut V, journal: &[u8], count: u32) -> Result<(), Fault> {
    feed(alloc, vm, journal)?;
    drop(vm.sys_input()?);
    for _ in 0..count {
        take_both(alloc, vm)?;
    }
    Ok(())
}

/// Makes so many sleeps and calls anew, and hands out their frames.
pub fn write<V: VM>(alloc: Global, vm: &mut V, count: u32) -> Result<Bytes, Fault> {
    for _ in 0..count {
        sleep(vm)?;
        call(alloc, vm)?;
    }
    Ok(vm.take_output()?)
}
