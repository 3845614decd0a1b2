//! `resolve DELIVERIES WORD ..`: a tree over the completions 1 to 4, spelled as `await` has it, is awaited where these have come, `+` one
//! that succeeded and `-` one that failed, or `-` alone for none. Told is that it wakes, or the frame of what it waits for.
use crate::answers::failed;
use crate::awaits::tree;
use crate::feeding::begin;
use bytes::{ByteStr, Bytes};
use invocation_vm::{AwaitResponse, Moment, VM};
use std::alloc::Global;
use test_rows::{Hex, number, told};

/// The frames of the start of `inv1` with one known entry, and of an input without a value.
const OPENING: &[u8] =
    b"\x00\x00\x00\x00\x00\x00\x00\x0e\x0a\x04inv1\x12\x04inv1\x18\x01\x04\x00\x00\x00\x00\x00\x00\x02\x72\x00";

const SUCCEEDED: &[u8] = b"\x2a\x03\x0a\x01\x31";

const FAILED: &[u8] = b"\x32\x03\x08\xf4\x03";

// The machine reads its input, and makes four sleeps.
fn fall_asleep<V: VM>(vm: &mut V) -> Option<()> {
    vm.notify_input(Bytes::from_static(OPENING));
    drop(vm.sys_input().ok()?);
    for _ in 0..4 {
        vm.sys_sleep(ByteStr::new(), Moment::from_millis(10), None)
            .ok()?;
    }
    drop(vm.take_output().ok()?);
    Some(())
}

// The frame of a sleep's completion, which brings this.
fn deliver<V: VM>(alloc: Global, vm: &mut V, completion: u8, brought: &[u8]) -> Option<()> {
    let mut frame: Vec<u8> = Vec::new(alloc);
    frame
        .extend_from_slice(b"\x80\x0c\x00\x00\x00\x00\x00\x07\x08")
        .ok()?;
    frame.push(completion).ok()?;
    frame.extend_from_slice(brought).ok()?;
    vm.notify_input(Bytes::from_vec(frame).ok()?);
    Some(())
}

fn deliver_all<V: VM>(alloc: Global, vm: &mut V, deliveries: &[u8]) -> Option<()> {
    for delivery in deliveries.chunks(2) {
        match delivery {
            [b'+', digit] => deliver(alloc, vm, digit.wrapping_sub(b'0'), SUCCEEDED)?,
            [b'-', digit] => deliver(alloc, vm, digit.wrapping_sub(b'0'), FAILED)?,
            _ => {}
        }
    }
    Some(())
}

fn awaited<V: VM>(alloc: Global, vm: &mut V, words: &[&str]) -> Option<String> {
    match vm.do_await(tree(alloc, words, 16)?) {
        Ok(AwaitResponse::AnyCompleted) => told(alloc, "wakes"),
        Ok(_) => {
            let frames = vm.take_output().ok()?;
            format!(in alloc; "{}", Hex(frames.as_slice())).ok()
        }
        Err(error) => failed(alloc, error),
    }
}

fn resolve<V: VM>(alloc: Global, vm: &mut V, deliveries: &str, words: &[&str]) -> Option<String> {
    fall_asleep(vm)?;
    deliver_all(alloc, vm, deliveries.as_bytes())?;
    awaited(alloc, vm, words)
}

fn begun<V: VM + Drop>(alloc: Global, deliveries: &str, words: &[&str]) -> Option<String> {
    match begin::<V>(alloc, &["9", "queued", "replay", "stays"])? {
        Ok(mut vm) => {
            let resolved = resolve(alloc, &mut vm, deliveries, words);
            drop(vm);
            resolved
        }
        Err(error) => failed(alloc, error),
    }
}

pub fn answer<V: VM + Drop>(alloc: Global, operands: &[&str]) -> Option<String> {
    match operands {
        [deliveries, words @ ..] => begun::<V>(alloc, *deliveries, words),
        [] => None,
    }
}
