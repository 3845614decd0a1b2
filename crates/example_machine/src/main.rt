//! `example_machine JOURNAL`: a handler that was stopped goes on from what was recorded of it, and what it writes is printed.
#![tactic(auto)]

use anyhow::Result;
use bytes::{ByteStr, Bytes};
use invocation_vm::{
    CoreVM, Moment, PayloadOptions, Sequence, Target, VM, VMOptions, VMResult, Version,
};
use journal_protocol::Decoder;
use std::alloc::Global;
use std::{env, fs};

fn greeter(alloc: Global) -> Target {
    Target {
        service: ByteStr::from_static("Greeter"),
        handler: ByteStr::from_static("greet"),
        key: None,
        idempotency_key: None,
        scope: None,
        limit_key: None,
        headers: Sequence::new(alloc),
    }
}

// The handler: it sleeps, calls another one, and waits for its answer.
fn run<V: VM>(alloc: Global, vm: &mut V) -> VMResult<()> {
    drop(vm.sys_input()?);
    let sleep = vm.sys_sleep(ByteStr::new(), Moment::from_millis(10), None)?;
    vm.do_await(sleep.into())?;
    drop(vm.take_notification(sleep)?);
    let name = Bytes::from_static(b"\"Ada\"");
    let call = vm.sys_call(greeter(alloc), name, None, PayloadOptions::default())?;
    vm.do_await(call.call_notification_handle.into())?;
    Ok(())
}

// A line for each frame: the name of its type, its header, its payload.
fn show_frames<R: Print>(rt: &R, alloc: Global, frames: &[u8]) -> Result<()> {
    let mut decoder = Decoder::new(alloc);
    decoder.push(frames)?;
    for _ in 0..u64::MAX {
        let Some(frame) = decoder.consume_next()? else {
            break;
        };
        let header = u64::from(frame.header());
        let payload = hex::encode(alloc, frame.payload.as_slice())?;
        println!(rt; "{} {header:016x} {payload}", frame.ty())?;
    }
    Ok(())
}

fn go_on<R: Print, V: VM>(rt: &R, alloc: Global, vm: &mut V, journal: &[u8]) -> Result<()> {
    vm.notify_input(Bytes::copy_from_slice(alloc, journal)?);
    vm.notify_input_closed();
    if let Err(error) = run(alloc, vm) {
        println!(rt; "{error}")?;
    }
    show_frames(rt, alloc, vm.take_output()?.as_slice())
}

fn attempt<R: Print>(rt: &R, alloc: Global, journal: &[u8]) -> Result<()> {
    // A request says by its content type which version of the protocol it is in.
    let version = ByteStr::from_static(Version::V7.content_type());
    let headers = vec![in alloc; (ByteStr::from_static("content-type"), version)]?;
    let mut vm = CoreVM::new(alloc, &headers, VMOptions::default())?;
    let gone_on = go_on(rt, alloc, &mut vm, journal);
    drop(vm);
    gone_on
}

fn main(rt: HostRuntime) -> Result<()> {
    if let Some(path) = env::args(&rt)?.nth(1) {
        let journal = fs::read(&rt, path.as_str())?;
        attempt(&rt, rt.alloc(), journal.as_slice())?;
    }
    Ok(())
}
