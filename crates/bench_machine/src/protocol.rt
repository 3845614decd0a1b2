//! What frames take: those of each command, and those of a whole journal.
mod commands;
mod journal;
mod records;
mod samples;
mod whole;

use crate::fault::Fault;
use crate::timing::nanoseconds_each;
use commands::{pass_command, time_command};
pub use commands::{read_as, write};
pub use journal::{PIECE, append};
use journal::{put_command, put_journal};
use journal_protocol::RawMessage;
use samples::COMMANDS;
use std::fmt;
use std::rt::HostRuntime;
use std::time::Duration;
use whole::{Whole, time_whole};

// Bytes, printed as hexadecimal digits.
#[derive(Clone, Copy)]
struct Hex<'a>(&'a [u8]);

impl fmt::Display for Hex<'_> {
    fn fmt<W: fmt::Write>(&self, f: &mut fmt::Formatter<W>) -> fmt::Result {
        for byte in self.0 {
            let byte = *byte;
            write!(f, "{byte:02x}")?;
        }
        Ok(())
    }
}

// The FNV-1a hash of bytes, in 64 bits.
fn checksum(bytes: &[u8]) -> u64 {
    let mut hash = 0xcbf2_9ce4_8422_2325u64;
    for byte in bytes {
        hash = (hash ^ u64::from(*byte)).wrapping_mul(0x0000_0100_0000_01b3);
    }
    hash
}

// How many megabytes go through in a second.
fn speed(took: Duration, bytes: usize) -> u128 {
    (bytes as u128).wrapping_mul(1000) / took.as_nanos().max(1)
}

// Prints the line of the command at this place, unless the journal has none of it.
fn print_command(rt: &HostRuntime, place: u32, messages: &[RawMessage]) -> Result<(), Fault> {
    let Some(first) = messages.first() else {
        return Ok(());
    };
    let count = messages.len();
    let took = time_command(rt, place, messages)?;
    let reading = nanoseconds_each(took.reading, count);
    let writing = nanoseconds_each(took.writing, count);
    let name = first.ty();
    let mut frame = Vec::new(rt.alloc());
    pass_command(rt.alloc(), first, true, &mut frame)?;
    let hex = Hex(frame.as_slice());
    let printed = println!(rt; "{name} read {reading} write {writing} frames {count} {hex}");
    drop(frame);
    Ok(printed?)
}

// Prints the line of the command at this place, over all its frames in the journal.
fn time_place(rt: &HostRuntime, journal: &[u8], place: u32) -> Result<(), Fault> {
    let mut messages = Vec::new(rt.alloc());
    put_command(rt.alloc(), journal, place, &mut messages)?;
    print_command(rt, place, messages.as_slice())
}

// A word for whether what was written is what was read.
fn end_word(journal: &[u8], written: &[u8]) -> &'static str {
    if written == journal { "same" } else { "OTHER" }
}

// Prints the line of the whole journal. Writing is what it takes longer to read and write than to read.
fn print_whole(
    rt: &HostRuntime,
    journal: &[u8],
    whole: &Whole,
    written: &[u8],
) -> Result<(), Fault> {
    let (frames, bytes) = (whole.count, journal.len());
    let reading = whole.framing.saturating_add(whole.reading);
    let writing = whole.rewriting.saturating_sub(whole.reading);
    let framing = nanoseconds_each(whole.framing, frames);
    let read = nanoseconds_each(reading, frames);
    let write = nanoseconds_each(writing, frames);
    print!(rt;
        "journal frames {frames} bytes {bytes} framing {framing} read {read} write {write}"
    )?;
    let (read_speed, write_speed) = (speed(reading, bytes), speed(writing, bytes));
    let hash = checksum(written);
    let end = end_word(journal, written);
    Ok(println!(rt; " MB/s {read_speed} {write_speed} checksum {hash:016x} {end}")?)
}

// Times a journal, and prints a line for each command and one for the whole.
fn time_journal(rt: &HostRuntime, journal: &[u8], written: &mut Vec<u8>) -> Result<(), Fault> {
    for place in 0..COMMANDS {
        time_place(rt, journal, place)?;
    }
    let whole = time_whole(rt, journal, written)?;
    print_whole(rt, journal, &whole, written.as_slice())
}

// Reads and writes a journal, and prints whether what was written is what was read.
fn try_journal(rt: &HostRuntime, journal: &[u8], written: &mut Vec<u8>) -> Result<(), Fault> {
    let frames = time_whole(rt, journal, written)?.count;
    let end = end_word(journal, written.as_slice());
    Ok(println!(rt; "journal frames {frames} {end}")?)
}

/// Reads and writes a journal of so many commands, and prints what a frame takes; or, where none are asked for, one of forty, and
/// prints what came of it.
pub fn run_protocol(rt: &HostRuntime, count: Option<u32>) -> Result<(), Fault> {
    let mut journal = Vec::new(rt.alloc());
    put_journal(rt.alloc(), &mut journal, count.unwrap_or(40))?;
    let mut written = Vec::with_capacity(rt.alloc(), journal.len())?;
    let done = match count {
        Some(_) => time_journal(rt, journal.as_slice(), &mut written),
        None => try_journal(rt, journal.as_slice(), &mut written),
    };
    drop(written);
    drop(journal);
    done
}
