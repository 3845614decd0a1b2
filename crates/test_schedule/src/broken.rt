//! A row whose reader fails at its Kth read, or whose writer fails at its Kth write, for each K until neither does.
use crate::disks::open_new;
use crate::fault::Fault;
use crate::row::{Ran, Row, Whole, lines_in, run_whole, shown_again};
use durable_script::{ScriptEnd, ScriptFault, run_script};
use journal_store::Store;
use sqlite::Alter;
use std::alloc::Global;
use std::io;
use std::io::{ErrorKind, Read, Write};

/// How many calls are tried at most.
const MOST: u32 = 10_000;

/// The number of calls of what does not fail.
const NEVER: u32 = u32::MAX;

/// How many bytes go by in a call at most.
const PIECE: usize = 8;

/// Gives a script in pieces, and fails behind so many.
#[derive(Drop)]
struct Reader<'a> {
    left: &'a [u8],
    calls: u32,
}

impl Read for Reader<'_> {
    fn read(&mut self, buf: &mut [u8]) -> io::Result<usize> {
        if self.calls == 0 {
            return Err(io::Error::from(ErrorKind::Other));
        }
        self.calls -= 1;
        let mut piece = self.left.get(..PIECE).unwrap_or(self.left);
        let count = piece.read(buf)?;
        self.left = self.left.get(count..).unwrap_or(b"".as_slice());
        Ok(count)
    }
}

/// Takes so many calls, a piece in each, and then fails.
#[derive(Drop)]
struct Writer {
    taken: Vec<u8>,
    calls: u32,
}

impl Writer {
    fn call(&mut self) -> io::Result<()> {
        if self.calls == 0 {
            return Err(io::Error::from(ErrorKind::Other));
        }
        self.calls -= 1;
        Ok(())
    }
}

impl Write for Writer {
    fn write(&mut self, buf: &[u8]) -> io::Result<usize> {
        self.call()?;
        let count = buf.len().min(PIECE);
        self.taken.extend_from_slice(&buf[..count])?;
        Ok(count)
    }

    fn flush(&mut self) -> io::Result<()> {
        self.call()
    }
}

/// What comes of a row.
#[derive(Drop)]
struct Broken {
    printed: Vec<u8>,
    result: Result<(), ScriptFault>,
    shown: Vec<u8>,
}

/// Runs lines by so many calls of the reader and so many of the writer.
fn run_over<S: Alter + Drop>(
    alloc: Global,
    store: Store<S>,
    lines: &[u8],
    reads: u32,
    writes: u32,
) -> Ran<S> {
    let mut reader = Reader {
        left: lines,
        calls: reads,
    };
    let mut writer = Writer {
        taken: Vec::new(alloc),
        calls: writes,
    };
    let ScriptEnd {
        store,
        script,
        result,
    } = run_script(alloc, &mut reader, &mut writer, store);
    drop(script);
    let Writer { taken, .. } = writer;
    Ran {
        printed: taken,
        result,
        store,
    }
}

/// Runs the row by so many calls of the reader and so many of the writer.
fn run_by(alloc: Global, row: &Row, reads: u32, writes: u32) -> Result<Broken, Fault> {
    let store = open_new(alloc)?;
    let Ran {
        printed,
        result,
        store,
    } = run_over(alloc, store, row.first.as_bytes(), reads, writes);
    let shown = shown_again(alloc, row, store)?;
    Ok(Broken {
        printed,
        result,
        shown,
    })
}

/// Reads the row by so many calls: whether it was read, and whether all is as is to be.
fn read_by(alloc: Global, row: &Row, wanted: &Whole, calls: u32) -> Result<(bool, bool), Fault> {
    let Broken {
        printed,
        result,
        shown,
    } = run_by(alloc, row, calls, NEVER)?;
    let is_read = result.is_ok();
    if is_read {
        return Ok((
            true,
            printed.as_slice() == wanted.printed.as_slice() && wanted.ends_so(&shown),
        ));
    }
    let is_named = result == Err(ScriptFault::ScriptUnreadable);
    Ok((
        false,
        is_named && printed.is_empty() && wanted.stands_behind(0, &shown),
    ))
}

/// Writes what the row prints by so many calls: whether all was written, and whether all is as is to be. The line whose text is not taken
/// whole is done, and no later one.
fn write_by(alloc: Global, row: &Row, wanted: &Whole, calls: u32) -> Result<(bool, bool), Fault> {
    let Broken {
        printed,
        result,
        shown,
    } = run_by(alloc, row, NEVER, calls)?;
    let is_written = result.is_ok();
    if is_written {
        return Ok((
            true,
            printed.as_slice() == wanted.printed.as_slice() && wanted.ends_so(&shown),
        ));
    }
    let is_named = result == Err(ScriptFault::OutputUnwritable);
    let is_begun = wanted.printed.starts_with(&printed);
    let done = lines_in(&printed)
        .saturating_add(1)
        .min(lines_in(&wanted.printed));
    Ok((
        false,
        is_named && is_begun && wanted.stands_behind(done, &shown),
    ))
}

fn print_break<R: Print>(rt: &R, what: &str, calls: u32, is_so: bool) -> io::Result<()> {
    if is_so {
        return Ok(());
    }
    println!(rt; "{what} by {calls} calls: AMISS")
}

/// Lets the reader of a row fail at each of its reads.
fn break_reader<R: Print + AllocGlobal>(rt: &R, row: &Row, wanted: &Whole) -> Result<(), Fault> {
    for calls in 0..MOST {
        let (is_read, is_so) = read_by(rt.alloc(), row, wanted, calls)?;
        print_break(rt, "read", calls, is_so)?;
        if is_read {
            break;
        }
    }
    Ok(println!(rt; "each read fails in turn")?)
}

/// Lets the writer of a row fail at each of its writes, and at its flush.
fn break_writer<R: Print + AllocGlobal>(rt: &R, row: &Row, wanted: &Whole) -> Result<(), Fault> {
    for calls in 0..MOST {
        let (is_written, is_so) = write_by(rt.alloc(), row, wanted, calls)?;
        print_break(rt, "written", calls, is_so)?;
        if is_written {
            break;
        }
    }
    Ok(println!(rt; "each write fails in turn")?)
}

/// Lets the reader of a row fail, and its writer.
pub fn break_row<R: Print + AllocGlobal>(rt: &R, name: &str, row: &Row) -> Result<(), Fault> {
    let wanted = run_whole(rt.alloc(), row)?;
    println!(rt; "== {name}, broken")?;
    break_reader(rt, row, &wanted)?;
    break_writer(rt, row, &wanted)
}
