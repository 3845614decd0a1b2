//! A text that is written to a writer that fails, and the flush behind it.
use script_lines::fault::ScriptFault;
use script_lines::output::{finish, write_text};
use std::alloc::Global;
use std::io;
use std::io::{ErrorKind, Write};

/// A text that takes three calls.
const TEXT: &[u8] = b"attempt 1 is waiting";

/// Takes so many calls, at most eight bytes in each, and then fails.
#[derive(Drop)]
struct Failing {
    taken: Vec<u8>,
    calls: u32,
}

impl Failing {
    fn new(alloc: Global, calls: u32) -> Failing {
        Failing {
            taken: Vec::new(alloc),
            calls,
        }
    }

    fn call(&mut self) -> io::Result<()> {
        if self.calls == 0 {
            return Err(io::Error::from(ErrorKind::Other));
        }
        self.calls -= 1;
        Ok(())
    }
}

impl Write for Failing {
    fn write(&mut self, buf: &[u8]) -> io::Result<usize> {
        self.call()?;
        let count = buf.len().min(8);
        self.taken.extend_from_slice(&buf[..count])?;
        Ok(count)
    }

    fn flush(&mut self) -> io::Result<()> {
        self.call()
    }
}

/// Whether writing the text comes to this, and these bytes are taken.
fn writes(alloc: Global, calls: u32, wanted: Result<(), ScriptFault>, taken: &[u8]) -> bool {
    let mut writer = Failing::new(alloc, calls);
    let result = write_text(&mut writer, TEXT);
    let is_taken = writer.taken.as_slice() == taken;
    drop(writer);
    is_taken && result == wanted
}

/// Whether the text and a flush behind it come to this.
fn writes_and_flushes(alloc: Global, calls: u32, wanted: Result<(), ScriptFault>) -> bool {
    let mut writer = Failing::new(alloc, calls);
    let reached = write_text(&mut writer, TEXT);
    let result = finish(&mut writer, reached);
    drop(writer);
    result == wanted
}

/// Whether `finish` behind a fault comes to the wanted one, and leaves so many of the calls.
fn finishes(
    alloc: Global,
    calls: u32,
    reached: ScriptFault,
    wanted: ScriptFault,
    left: u32,
) -> bool {
    let mut writer = Failing::new(alloc, calls);
    let result = finish(&mut writer, Err(reached));
    let is_left = writer.calls == left;
    drop(writer);
    is_left && result == Err(wanted)
}

#[test]
fn a_text_takes_a_call_for_each_part(rt: HostRuntime) {
    let fault = ScriptFault::OutputUnwritable;
    assert!(rt; writes(rt.alloc(), 0, Err(fault), b"".as_slice()));
    assert!(rt; writes(rt.alloc(), 2, Err(fault), b"attempt 1 is wai".as_slice()));
    assert!(rt; writes(rt.alloc(), 3, Ok(()), TEXT));
}

#[test]
fn a_flush_behind_a_text(rt: HostRuntime) {
    let fault = ScriptFault::OutputUnwritable;
    assert!(rt; writes_and_flushes(rt.alloc(), 3, Err(fault)));
    assert!(rt; writes_and_flushes(rt.alloc(), 4, Ok(())));
}

#[test]
fn a_flush_behind_a_line_that_is_not_understood(rt: HostRuntime) {
    let line = ScriptFault::LineNotUnderstood(7);
    let fault = ScriptFault::OutputUnwritable;
    assert!(rt; finishes(rt.alloc(), 0, line, fault, 0));
    assert!(rt; finishes(rt.alloc(), 1, line, line, 0));
}

#[test]
fn no_flush_behind_a_writer_that_has_failed(rt: HostRuntime) {
    let fault = ScriptFault::OutputUnwritable;
    assert!(rt; finishes(rt.alloc(), 1, fault, fault, 1));
}
