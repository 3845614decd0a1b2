//! A row of which one allocation is refused, for each of them in turn: a round each. What is printed tells it by a name, or is as it is with
//! no refusal; and gone on with, the row ends as with none. Of a row whose arrivals have an order no line is done behind the one that tells
//! it.
use crate::disks::{open_copies, open_new};
use crate::fault::Fault;
use crate::row::{Ran, Row, Whole, go_on, lines_in, print_end, room, run_into, run_whole, text};
use durable_script::{ScriptEnd, ScriptFault, run_script};
use journal_store::Store;
use sqlite::Alter;
use std::alloc::Global;
use std::io;
use std::io::{ErrorKind, Write};
use test_rows::{begin_round, end_round};

/// How many rounds there are at most.
const MOST: u64 = 1_000_000;

/// Which lines of a row are done in a round.
#[derive(Clone, Copy)]
pub enum Lines {
    /// All of them.
    All,
    /// Those up to the one that tells a refusal.
    UntilRefused,
}

/// What a refused allocation comes to.
#[derive(Clone, Copy, PartialEq, Eq)]
enum Comes {
    /// To nothing: what was asked for was not needed.
    Nothing,
    Statement,
    Memory,
    Machine,
    Script,
    Output,
    /// To what has no name, or to another end of the row.
    Amiss,
}

/// What each comes to, and its text.
const TEXTS: [(Comes, &str); 7] = [
    (Comes::Nothing, "nothing differs"),
    (Comes::Statement, "refused S19"),
    (Comes::Memory, "refused S20"),
    (Comes::Machine, "failed 500"),
    (Comes::Script, "script cannot be read"),
    (Comes::Output, "output cannot be written"),
    (Comes::Amiss, "AMISS"),
];

/// What a line tells that is not the wanted one.
fn told_by(line: &str) -> Comes {
    if line.ends_with("refused S19") {
        return Comes::Statement;
    }
    if line.ends_with("refused S20") {
        return Comes::Memory;
    }
    if line.ends_with(" failed 500") {
        return Comes::Machine;
    }
    Comes::Amiss
}

/// What the end of a script tells that has printed what is wanted as far as it came.
fn told_at_end(reached: Result<(), ScriptFault>, is_short: bool) -> Comes {
    match reached {
        Ok(()) if is_short => Comes::Amiss,
        Ok(()) => Comes::Nothing,
        Err(ScriptFault::ScriptUnreadable | ScriptFault::LineOutOfMemory) => Comes::Script,
        Err(ScriptFault::TextOutOfMemory | ScriptFault::OutputUnwritable) => Comes::Output,
        Err(ScriptFault::LineNotUnderstood(_)) => Comes::Amiss,
    }
}

/// What the first line tells that is not the wanted one, or the end behind whole lines.
fn comes_to(wanted: &[u8], printed: &[u8], reached: Result<(), ScriptFault>) -> Comes {
    let mut wanted_lines = text(wanted).lines();
    for line in text(printed).lines() {
        if wanted_lines.next().unwrap_or("") != line {
            return told_by(line);
        }
    }
    told_at_end(reached, lines_in(printed) != lines_in(wanted))
}

/// Takes what is printed, and fails at a line that tells a refusal.
#[derive(Drop)]
struct UntilRefused {
    printed: Vec<u8>,
}

impl Write for UntilRefused {
    fn write(&mut self, buf: &[u8]) -> io::Result<usize> {
        self.printed.extend_from_slice(buf)?;
        if told_by(text(buf).trim_end()) != Comes::Amiss {
            return Err(io::Error::from(ErrorKind::Other));
        }
        Ok(buf.len())
    }

    fn flush(&mut self) -> io::Result<()> {
        Ok(())
    }
}

/// Runs a script up to the line that tells a refusal.
fn run_until_refused<S: Alter + Drop>(
    alloc: Global,
    store: Store<S>,
    lines: &[u8],
    room: Vec<u8>,
) -> Ran<S> {
    let mut reader = lines;
    let mut writer = UntilRefused { printed: room };
    let ScriptEnd {
        store,
        script,
        result,
    } = run_script(alloc, &mut reader, &mut writer, store);
    drop(script);
    let UntilRefused { printed } = writer;
    Ran {
        printed,
        result,
        store,
    }
}

/// Runs a row, all of it or up to the line that tells a refusal.
fn run_row<S: Alter + Drop>(
    alloc: Global,
    store: Store<S>,
    row: &Row,
    room: Vec<u8>,
    lines: Lines,
) -> Ran<S> {
    match lines {
        Lines::All => run_into(alloc, store, row.first.as_bytes(), room),
        Lines::UntilRefused => run_until_refused(alloc, store, row.first.as_bytes(), room),
    }
}

/// One round: what it comes to, and whether an allocation was refused.
fn one_round(
    alloc: Global,
    row: &Row,
    wanted: &Whole,
    lines: Lines,
) -> Result<(Comes, bool), Fault> {
    let room = room(alloc)?;
    let store = open_new(alloc)?;
    begin_round(alloc);
    let Ran {
        printed,
        result,
        store,
    } = run_row(alloc, store, row, room, lines);
    let is_refused = end_round(alloc);
    let (_shown, ended) = go_on(alloc, row, open_copies(alloc, store)?);
    if !wanted.ends_so(&ended) {
        return Ok((Comes::Amiss, is_refused));
    }
    Ok((comes_to(&wanted.printed, &printed, result), is_refused))
}

/// Refuses each allocation of a row in turn, and goes on with it.
pub fn refuse_row<R: Print + AllocGlobal>(
    rt: &R,
    name: &str,
    row: &Row,
    lines: Lines,
) -> Result<(), Fault> {
    let alloc = rt.alloc();
    let wanted = run_whole(alloc, row)?;
    let mut seen = [false; 7];
    let mut rounds = 0u64;
    for round in 1..MOST {
        let (comes, is_refused) = one_round(alloc, row, &wanted, lines)?;
        rounds = round;
        for (at, (each, _)) in TEXTS.iter().enumerate() {
            if *each == comes
                && let Some(is_seen) = seen.get_mut(at)
            {
                *is_seen = true;
            }
        }
        if comes == Comes::Amiss {
            println!(rt; "{name}: amiss in round {round}")?;
        }
        if !is_refused {
            break;
        }
    }
    println!(rt; "== {name}, refused")?;
    print_end(rt, &wanted)?;
    let many = if rounds > 1 {
        "many rounds"
    } else {
        "one round"
    };
    print!(rt; "{many}:")?;
    for (at, (_, text)) in TEXTS.iter().enumerate() {
        if seen.get(at) == Some(&true) {
            print!(rt; " {text};")?;
        }
    }
    println!(rt; "")?;
    Ok(())
}
